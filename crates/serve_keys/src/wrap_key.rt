//! C_WrapKey (PKCS #11 v3.1, 5.18).

ghost use Rattle.std.specs.Prelude.{◌≡◌, ◌+◌, ◌<◌, ◌≤◌, ◌^◌, ◌&&◌, not, IfOk, IsErrOf, Some, length, true};
ghost use Rattle.ck_types.specs.declared.attr_type.AttrType.TheVariants as attr;
ghost use Rattle.attrs.specs.Masking.{is_secret_key};
ghost use Rattle.attrs.specs.Objects.{attribute_of, class_of, flag};
ghost use Rattle.keep.specs.Contents.{Contents};
ghost use Rattle.keep.specs.Keeping.{Counted, HasCause, Stays};
ghost use Rattle.keep.specs.declared.keep.KeepFault.TheVariants.{Device};
ghost use Rattle.mech.specs.Wrappings.{is_value_length};
ghost use Rattle.model_answers.specs.GetObjectSize.{value_len};
ghost use Rattle.model_answers.specs.WrapKey.{wrap_key, wraps};
ghost use Rattle.serve_base.specs.Found.{IsFound};
ghost use Rattle.serve_base.specs.Refusing.{AtDesk, IsDoneAs};
ghost use Rattle.serve_base.specs.Shown.{Fits, IsFor, said_of};
ghost use Rattle.serve_base.specs.Stores.{StoreHas, SameIds};
ghost use Rattle.serve_keys.specs.Objects.{object_in};

use crate::found_key::{is_no_key, key_in};
use attrs::Object;
use ck_calls::{Function, Mechanism};
use ck_mechanisms::{Purpose, find_for};
use ck_types::{AttrType, Bytes};
use desk::Desk;
use keep::{Keep, KeepFault};
use mech::Work;
use precede::Condition;
use serve_base::{
    Caller, Found, Out, Refusal, Store, aes_key, ask_within, is_aes, object_by_handle,
};
use std::alloc::Global;

/// How many bytes a wrapped key is longer than its value.
const WRAPPING_BYTES: u64 = 8;

/// C_WrapKey (PKCS #11 v3.1, 5.18).
/// Codes: the checks of C_WrapKey (`precede`). Returns a job for the wrapping of a key's value under a wrapping key. Without a buffer it
/// returns the wrapping's length, in bytes; with a short one `CKR_BUFFER_TOO_SMALL`. With the job the call is pending.
pub fn serve<K: Keep>(
    caller: Caller,
    desk: &mut Desk,
    store: &mut Store<K>,
    session: u64,
    mechanism: Mechanism,
    wrapping_key: u64,
    key: u64,
    buffer_len: Option<u64>,
) -> Result<Out, Refusal>
    requires { desk.old.next_question < 2 ^ 63 }
    ensures done { IsDoneAs K.terms said_of 0 (λ c v. wrap_key v session mechanism wrapping_key key buffer_len) store.old store.new desk.old result desk.new }
    ensures asker { IfOk result (IsFor caller.app) }
{
    let (wrapping_key, key) = find_both(caller.alloc, desk, store, wrapping_key, key)?;
    ask_wrapped(
        caller,
        desk,
        session,
        &mechanism,
        &wrapping_key,
        &key,
        buffer_len,
    )
}

/// Copies of the objects under two handles, where the application sees them.
fn find_both<K: Keep>(
    alloc: Global,
    desk: &Desk,
    store: &mut Store<K>,
    first: u64,
    second: u64,
) -> Result<(Option<Found>, Option<Found>), KeepFault>
    ensures found { K.terms.doubt store.new.keep ≡ 0 → (c : Contents) → StoreHas K.terms store.old c → Fits c desk.now.handles.entries
        → IfOk result (λ both. IsFound c desk.now first both.0 × IsFound c desk.now second both.1) }
    ensures same { Stays K.terms store.old.keep store.new.keep }
    ensures ids { SameIds K.terms store.old store.new }
    ensures steady { K.terms.is_steady store.old.keep → IsErrOf result Device → (c : Contents) → StoreHas K.terms store.old c → ⊥ }
    ensures counts { Counted K.terms store.old.keep store.new.keep 0 0 }
    ensures cause { HasCause (K.terms.failures store.old.keep) (K.terms.failures store.new.keep) result }
{
    let first = object_by_handle(alloc, desk, store, first)?;
    let second = object_by_handle(alloc, desk, store, second)?;
    Ok((first, second))
}

/// Returns the job of the wrapping of what was found, where the checks of the call's table pass.
fn ask_wrapped(
    caller: Caller,
    desk: &mut Desk,
    session: u64,
    mechanism: &Mechanism,
    wrapping_key: &Option<Found>,
    key: &Option<Found>,
    buffer_len: Option<u64>,
) -> Result<Out, Refusal>
    requires { desk.old.next_question < 2 ^ 63 }
    ensures serves { AtDesk said_of (λ v. wraps v session mechanism.now (object_in wrapping_key.now) (object_in key.now) buffer_len) desk.old result desk.new }
    ensures asker { IfOk result (IsFor caller.app) }
{
    let _ = desk.state(session).ok_or(Condition::NoSession)?;
    let _ = find_for(Purpose::Wrapping, mechanism.mech_type).ok_or(Condition::WrongMechanism)?;
    if !mechanism.parameter.is_empty() {
        return Err(Refusal::Condition(Condition::WrongParameter));
    }
    if is_no_key(wrapping_key) {
        return Err(Refusal::Condition(Condition::NoWrappingKey));
    }
    if is_no_key(key) {
        return Err(Refusal::Condition(Condition::NoKey));
    }
    let wrapping_key = key_in(wrapping_key);
    let key = key_in(key);
    if !is_aes(wrapping_key) {
        return Err(Refusal::Condition(Condition::WrongWrappingKeyType));
    }
    if !may_wrap(wrapping_key) {
        return Err(Refusal::Condition(Condition::KeyNotPermitted));
    }
    if !is_extractable(key) {
        return Err(Refusal::Condition(Condition::KeyUnextractable));
    }
    if lacks_trust(wrapping_key, key) {
        return Err(Refusal::Condition(Condition::KeyNotWrappable));
    }
    let value = value_of(key);
    if !is_value_length(value.len()) {
        return Err(Refusal::Condition(Condition::KeyLength));
    }
    let wanted = wrapped_len(value);
    let work = Work::Wrap {
        key: aes_key(wrapping_key),
        value: Bytes::from_slice(caller.alloc, value)?,
    };
    Ok(ask_within(
        caller.alloc,
        caller.app,
        desk,
        Function::WrapKey,
        session,
        work,
        wanted,
        buffer_len,
    )?)
}

/// Whether a key may wrap others.
fn may_wrap(key: &Object) -> bool
    ensures { result ≡ flag key.now attr.Wrap }
{
    key.flag(AttrType::Wrap)
}

/// Whether a key may be wrapped at all.
fn is_extractable(key: &Object) -> bool
    ensures { result ≡ flag key.now attr.Extractable }
{
    key.flag(AttrType::Extractable)
}

/// Whether a key may be wrapped by trusted keys alone, and the wrapping key isn't one (PKCS #11 v3.1, 4.10).
fn lacks_trust(wrapping_key: &Object, key: &Object) -> bool
    ensures { result ≡ (flag key.now attr.WrapWithTrusted && not (flag wrapping_key.now attr.Trusted)) }
{
    key.flag(AttrType::WrapWithTrusted) && !wrapping_key.flag(AttrType::Trusted)
}

/// The value of a key.
fn value_of(key: &Object) -> &[u8]
    requires { is_secret_key (class_of key.now) ≡ true }
    ensures value { attribute_of key.now attr.Value ≡ Some result.now }
    ensures length { value_len key.now ≡ length result.now }
    ensures within { length result.now ≤ 1024 }
{
    let _entries = key.entries(); // brings its clause
    key.value()
}

/// How many bytes the wrapping of a value has.
fn wrapped_len(value: &[u8]) -> u64
    requires { length value.now ≤ 1024 }
    ensures { result ≡ length value.now + 8 }
{
    value.len() as u64 + WRAPPING_BYTES
}

/// Whether so many bytes can be wrapped: two or more whole halves of a block (RFC 3394, 2).
fn is_value_length(len: usize) -> bool
    ensures { result ≡ is_value_length len }
{
    16 <= len && len % 8 == 0
}
