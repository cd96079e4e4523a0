//! C_EncryptInit, C_DecryptInit, C_SignInit and C_VerifyInit (PKCS #11 v3.1, 5.8, 5.10, 5.13 and 5.15).

ghost use Rattle.std.specs.Prelude.{◌≡◌, ◌≢◌, None, true};
ghost use Rattle.ck_types.specs.declared.attr_type.AttrType.TheVariants as attr;
ghost use Rattle.attrs.specs.Masking.{is_secret_key};
ghost use Rattle.attrs.specs.Objects.{attribute_of, class_of, key_type_of};
ghost use Rattle.model_views.specs.Answering.{Replies};
ghost use Rattle.model_views.specs.Checked.{is_aes};
ghost use Rattle.model_answers.specs.OperationInit.{operation_init};
ghost use Rattle.serve_base.specs.Refusing.{AtDesk, IsDone};
ghost use Rattle.serve_operations.specs.Beginning.{HasKeyType, by_key, table_begun, uses_aes};

use crate::chosen::{Chosen, choose};
use crate::kinds::{end, permission, place_for};
use crate::mac_mechanisms::begun;
use attrs::Object;
use ck_calls::{Mechanism, Reply};
use ck_mechanisms::key_type_of;
use ck_types::{MechType, Rv};
use desk::Desk;
use keep::Keep;
use ops::Kind;
use precede::Condition;
use serve_base::{Refusal, Store, is_of_type, is_secret_key, object_by_handle, operation_key};
use std::alloc::Global;
use streams::Stream;

/// C_EncryptInit, C_DecryptInit, C_SignInit, C_VerifyInit (PKCS #11 v3.1, 5.8, 5.10, 5.13 and 5.15).
/// Codes: the checks of each (`precede`). Begins an operation of a kind under a copy of a key's value; without a mechanism the one
/// that is in progress ends.
pub fn serve<K: Keep>(
    alloc: Global,
    desk: &mut Desk,
    store: &mut Store<K>,
    kind: Kind,
    session: u64,
    mechanism: Option<Mechanism>,
    key: u64,
) -> Result<Reply, Refusal>
    ensures done { IsDone K.terms 0 (λ v. operation_init kind v session mechanism key) store.old store.new desk.old result desk.new }
    ensures small { mechanism ≡ None → result ≢ Err Refusal.Memory }
{
    begin(alloc, desk, store, kind, session, &mechanism, key)
}

fn begin<K: Keep>(
    alloc: Global,
    desk: &mut Desk,
    store: &mut Store<K>,
    kind: Kind,
    session: u64,
    mechanism: &Option<Mechanism>,
    key: u64,
) -> Result<Reply, Refusal>
    ensures done { IsDone K.terms 0 (λ v. operation_init kind v session mechanism.now key) store.old store.new desk.old result desk.new }
    ensures small { mechanism.now ≡ None → result ≢ Err Refusal.Memory }
{
    let _ = desk.state(session).ok_or(Condition::NoSession)?;
    let Some(mechanism) = mechanism else {
        return Ok(end(desk, kind, session, Condition::NoMechanism));
    };
    let (mech_type, chosen) = choose(desk, kind, session, mechanism)?;
    let found = object_by_handle(alloc, desk, store, key)?.ok_or(Condition::NoKey)?;
    begin_under(alloc, desk, session, mech_type, chosen, &found.object)
}

/// Begins an operation under an object that was found, where that is a key of the mechanism's type and permits it.
fn begin_under(
    alloc: Global,
    desk: &mut Desk,
    session: u64,
    mech_type: MechType,
    chosen: Chosen,
    key: &Object,
) -> Result<Reply, Refusal>
    requires { HasKeyType mech_type chosen }
    ensures { AtDesk Replies (λ v. by_key mech_type chosen v session key.now) desk.old result desk.new }
{
    if !is_secret_key(key) {
        return Err(Refusal::Condition(Condition::NoKey));
    }
    if !is_of_type(key, key_type_of(mech_type)) {
        return Err(Refusal::Condition(Condition::WrongKeyType));
    }
    if !key.flag(permission(chosen.kind())) {
        return Err(Refusal::Condition(Condition::KeyNotPermitted));
    }
    put(alloc, desk, session, chosen, key);
    Ok(Reply::Code(Rv::Ok))
}

/// The operation stands in its session, with a copy of the key's value.
fn put(alloc: Global, desk: &mut Desk, session: u64, chosen: Chosen, key: &Object)
    requires secret { is_secret_key (class_of key.now) ≡ true }
    requires aes { uses_aes chosen ≡ true → is_aes (key_type_of key.now) ≡ true }
    ensures { desk.new ≡ record desk.old { sessions = table_begun desk.old.sessions session chosen (attribute_of key.now attr.Value) } }
{
    match chosen {
        Chosen::Cipher(direction, mechanism) => {
            let key = operation_key(alloc, desk, key);
            let stream = Stream::new(mechanism, direction, key);
            desk.set_operation(session, place_for(direction), Some(stream));
        }
        Chosen::Mac(place, mechanism) => desk.set_mac(session, place, Some(begun(mechanism, key))),
    }
}
