//! One call of an application, at its desk: the one place where a call finds the function that serves it.

ghost use Rattle.std.specs.Prelude.{◌≡◌, false, length, true};
ghost use Rattle.ck_calls.specs.Need.{random_bytes};
ghost use Rattle.desk.specs.Desks.{is_busy};
ghost use Rattle.model_worlds.specs.Worlds.{reveal_by_call};
ghost use Rattle.model_answers.specs.Answers.{answer, answer_to};
ghost use Rattle.token.specs.Dispatching.{is_on_sessions, noted_at};
ghost use Rattle.token.specs.Memory.{takes_no_memory};
ghost use Rattle.serve_base.specs.Refusing.{IsServedIf};
ghost use Rattle.serve_base.specs.Short.{IsShortCall};
ghost use Rattle.serve_base.specs.Shown.{IsFor, RepliesAtOnce};

use aes_modes::Direction;
use ck_calls::{Call, Reply};
use ck_types::Rv;
use desk::Desk;
use keep::Keep;
use model_views::Fault;
use ops::{Kind, MacPlace};
use precede::Condition;
use serve_base::{Caller, Out, Store, settle};
use serve_keys::unwrap_key::Wrapped;
use serve_keys::{generate_key, generate_random, unwrap_key, wrap_key};
use serve_objects::{
    copy_object, create_object, destroy_object, find_objects, find_objects_init,
    get_attribute_value, get_object_size, set_attribute_value,
};
use serve_operations::{cipher, init, mac};
use serve_sessions::{
    close_session, get_mechanism_info, get_mechanism_list, get_session_info, get_token_info,
    init_pin, init_token, login, logout, open_session, set_pin,
};
use std::alloc::Global;
use std::snapshot::Snapshot;

/// A call with its random bytes.
pub(crate) fn serve<K: Keep>(
    alloc: Global,
    app: u64,
    desk: &mut Desk,
    store: &mut Store<K>,
    call: Call,
    random: &[u8],
    others_have_sessions: bool,
) -> Result<Out, Fault>
    requires { length random.now ≡ random_bytes call }
    ensures served { IsServedIf (IsShortCall call) K.terms (IsFor app)
        (λ v. answer v call random.now (reveal_by_call call others_have_sessions)) store.old store.new desk.old result desk.new }
    ensures small { takes_no_memory call ≡ true → RepliesAtOnce Fault.Memory result }
{
    if desk.is_busy() {
        return Ok(Out::Reply(Reply::Code(Condition::Busy.code(Rv::Ok))));
    }
    let asked = Snapshot::of(&call);
    let outcome = serve_taken(alloc, app, desk, store, call, random, others_have_sessions);
    note_pending(desk, asked, &outcome);
    outcome
}

/// A call that is taken. Those on sessions are answered first.
fn serve_taken<K: Keep>(
    alloc: Global,
    app: u64,
    desk: &mut Desk,
    store: &mut Store<K>,
    call: Call,
    random: &[u8],
    others_have_sessions: bool,
) -> Result<Out, Fault>
    requires random { length random.now ≡ random_bytes call }
    requires free { is_busy desk.old ≡ false }
    ensures served { IsServedIf (IsShortCall call) K.terms (IsFor app)
        (λ v. answer_to v call random.now (reveal_by_call call others_have_sessions)) store.old store.new desk.old result desk.new }
    ensures small { takes_no_memory call ≡ true → RepliesAtOnce Fault.Memory result }
{
    match call {
        // Session management (PKCS #11 v3.1, 5.6).
        Call::OpenSession { slot, flags } => settle(open_session::serve(desk, slot, flags)),
        Call::CloseSession { session } => settle(close_session::serve(desk, session)),
        Call::CloseAllSessions { slot } => settle(close_session::serve_all(desk, slot)),
        Call::GetSessionInfo { session } => settle(get_session_info::serve(desk, session)),
        call => dispatch(alloc, app, desk, store, call, random, others_have_sessions),
    }
}

/// A call that became pending is noted.
fn note_pending(desk: &mut Desk, call: Snapshot<Call>, outcome: &Result<Out, Fault>)
    ensures { desk.new ≡ noted_at call.value outcome.now desk.old }
{
    if let Ok(Out::Ask(_)) = outcome {
        desk.note_call(call);
    }
}

/// A call that is taken and is none of those on sessions: an arm for each. It clears a local for each arm where it is entered,
/// so that the calls on sessions, which do the least, are answered before.
fn dispatch<K: Keep>(
    alloc: Global,
    app: u64,
    desk: &mut Desk,
    store: &mut Store<K>,
    call: Call,
    random: &[u8],
    others_have_sessions: bool,
) -> Result<Out, Fault>
    requires random { length random.now ≡ random_bytes call }
    requires free { is_busy desk.old ≡ false }
    requires other { is_on_sessions call ≡ false }
    ensures served { IsServedIf (IsShortCall call) K.terms (IsFor app)
        (λ v. answer_to v call random.now (reveal_by_call call others_have_sessions)) store.old store.new desk.old result desk.new }
    ensures small { takes_no_memory call ≡ true → RepliesAtOnce Fault.Memory result }
{
    match call {
        // Slot and token management (PKCS #11 v3.1, 5.5).
        Call::GetTokenInfo { slot } => settle(get_token_info::serve(desk, store, slot)),
        Call::GetMechanismList { slot } => settle(get_mechanism_list::serve(alloc, slot)),
        Call::GetMechanismInfo { slot, mechanism } => {
            settle(get_mechanism_info::serve(slot, mechanism))
        }
        Call::InitToken { slot, pin, label } => settle(init_token::serve(
            Caller { alloc, app },
            desk,
            store,
            slot,
            pin,
            label,
            random,
            others_have_sessions,
        )),
        Call::InitPin { session, pin } => {
            settle(init_pin::serve(alloc, app, desk, session, pin, random))
        }
        Call::SetPin {
            session,
            old_pin,
            new_pin,
        } => settle(set_pin::serve(alloc, app, desk, store, session, old_pin, new_pin, random)),
        // Session management (5.6), where `serve` has not answered already.
        Call::OpenSession { .. }
        | Call::CloseSession { .. }
        | Call::CloseAllSessions { .. }
        | Call::GetSessionInfo { .. } => unreachable!(),
        Call::Login {
            session,
            user_type,
            pin,
        } => settle(login::serve(alloc, app, desk, store, session, user_type, pin)),
        Call::Logout { session } => settle(logout::serve(desk, session)),
        // Object management (5.7).
        Call::CreateObject { session, template } => settle(create_object::serve(
            alloc, desk, store, session, &template, random,
        )),
        Call::CopyObject {
            session,
            object,
            template,
        } => settle(copy_object::serve(alloc, desk, store, session, object, &template, random)),
        Call::DestroyObject { session, object } => {
            settle(destroy_object::serve(alloc, desk, store, session, object))
        }
        Call::GetObjectSize { session, object } => {
            settle(get_object_size::serve(alloc, desk, store, session, object))
        }
        Call::GetAttributeValue {
            session,
            object,
            query,
        } => settle(get_attribute_value::serve(alloc, desk, store, session, object, &query)),
        Call::SetAttributeValue {
            session,
            object,
            template,
        } => settle(set_attribute_value::serve(alloc, desk, store, session, object, &template)),
        Call::FindObjectsInit { session, template } => {
            settle(find_objects_init::serve(alloc, desk, store, session, &template))
        }
        Call::FindObjects { session, max_count } => {
            settle(find_objects::serve(alloc, desk, session, max_count))
        }
        Call::FindObjectsFinal { session } => settle(find_objects::serve_final(desk, session)),
        // Encryption (5.8).
        Call::EncryptInit {
            session,
            mechanism,
            key,
        } => settle(init::serve(
            alloc,
            desk,
            store,
            Kind::Cipher(Direction::Encrypt),
            session,
            mechanism,
            key,
        )),
        Call::Encrypt {
            session,
            data,
            buffer_len,
        } => settle(cipher::serve_final(
            alloc,
            app,
            desk,
            Direction::Encrypt,
            session,
            Some(data),
            buffer_len,
        )),
        Call::EncryptUpdate {
            session,
            part,
            buffer_len,
        } => settle(cipher::update(
            alloc,
            app,
            desk,
            Direction::Encrypt,
            session,
            part,
            buffer_len,
        )),
        Call::EncryptFinal {
            session,
            buffer_len,
        } => {
            settle(cipher::serve_final(
                alloc,
                app,
                desk,
                Direction::Encrypt,
                session,
                None,
                buffer_len,
            ))
        }
        // Decryption (5.10).
        Call::DecryptInit {
            session,
            mechanism,
            key,
        } => settle(init::serve(
            alloc,
            desk,
            store,
            Kind::Cipher(Direction::Decrypt),
            session,
            mechanism,
            key,
        )),
        Call::Decrypt {
            session,
            encrypted_data,
            buffer_len,
        } => settle(cipher::serve_final(
            alloc,
            app,
            desk,
            Direction::Decrypt,
            session,
            Some(encrypted_data),
            buffer_len,
        )),
        Call::DecryptUpdate {
            session,
            encrypted_part,
            buffer_len,
        } => settle(cipher::update(
            alloc,
            app,
            desk,
            Direction::Decrypt,
            session,
            encrypted_part,
            buffer_len,
        )),
        Call::DecryptFinal {
            session,
            buffer_len,
        } => {
            settle(cipher::serve_final(
                alloc,
                app,
                desk,
                Direction::Decrypt,
                session,
                None,
                buffer_len,
            ))
        }
        // Signing and MACing (5.13).
        Call::SignInit {
            session,
            mechanism,
            key,
        } => settle(init::serve(
            alloc,
            desk,
            store,
            Kind::Mac(MacPlace::Sign),
            session,
            mechanism,
            key,
        )),
        Call::Sign {
            session,
            data,
            buffer_len,
        } => settle(mac::sign(alloc, app, desk, session, Some(data), buffer_len)),
        Call::SignUpdate { session, part } => {
            settle(mac::update(alloc, app, desk, MacPlace::Sign, session, part))
        }
        Call::SignFinal {
            session,
            buffer_len,
        } => { settle(mac::sign(alloc, app, desk, session, None, buffer_len)) }
        // Verifying signatures and MACs (5.15).
        Call::VerifyInit {
            session,
            mechanism,
            key,
        } => settle(init::serve(
            alloc,
            desk,
            store,
            Kind::Mac(MacPlace::Verify),
            session,
            mechanism,
            key,
        )),
        Call::Verify {
            session,
            data,
            signature,
        } => settle(mac::verify(alloc, app, desk, session, Some(data), signature)),
        Call::VerifyUpdate { session, part } => {
            settle(mac::update(alloc, app, desk, MacPlace::Verify, session, part))
        }
        Call::VerifyFinal { session, signature } => {
            settle(mac::verify(alloc, app, desk, session, None, signature))
        }
        // Key management (5.18), and random numbers (5.19).
        Call::GenerateKey {
            session,
            mechanism,
            template,
        } => settle(generate_key::serve(alloc, desk, store, session, mechanism, &template, random)),
        Call::WrapKey {
            session,
            mechanism,
            wrapping_key,
            key,
            buffer_len,
        } => settle(wrap_key::serve(
            Caller { alloc, app },
            desk,
            store,
            session,
            mechanism,
            wrapping_key,
            key,
            buffer_len,
        )),
        Call::UnwrapKey {
            session,
            mechanism,
            unwrapping_key,
            wrapped_key,
            template,
        } => settle(unwrap_key::serve(
            Caller { alloc, app },
            desk,
            store,
            session,
            Wrapped {
                mechanism,
                unwrapping_key,
                bytes: wrapped_key,
            },
            template,
            random,
        )),
        Call::GenerateRandom { session, len } => {
            settle(generate_random::serve(alloc, desk, session, len, random))
        }
    }
}
