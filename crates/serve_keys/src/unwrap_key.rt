//! C_UnwrapKey (PKCS #11 v3.1, 5.18).

ghost use Rattle.std.specs.Prelude.{◌≡◌, ◌<◌, ◌^◌, ◌-◌, ◌&&◌, not, [], IfOk, length, true};
ghost use Rattle.model_views.specs.TaskResults.{Unwrapped};
ghost use Rattle.model_answers.specs.UnwrapKey.{is_wrapped_length, unwrap_key, unwraps, unwrapped_result};
ghost use Rattle.templates.specs.declared.making.Making.TheVariants as templates_call;
ghost use Rattle.templates.specs.Faults.{template_fault};
ghost use Rattle.model_views.specs.Checked.{state_in};
ghost use Rattle.serve_base.specs.Refusing.{AtDesk, IsDone, IsDoneAs};
ghost use Rattle.serve_base.specs.Shown.{IsFor, said_of};
ghost use Rattle.serve_keys.specs.Objects.{object_in};
ghost use Rattle.serve_keys.specs.Unwrapping.{asks_for_key};

use crate::found_key::{is_no_key, key_in};
use aes_vector::Key;
use attrs::Object;
use ck_calls::{Function, Mechanism, Reply};
use ck_mechanisms::{Purpose, find_for};
use ck_types::{AttrType, Bytes, Rv, SessionState, Template};
use desk::Desk;
use guard::{is_read_write, is_user, needs_read_write};
use keep::Keep;
use lists::NUMBER_LIMIT;
use mech::Work;
use precede::Condition;
use serve_base::{
    Caller, Found, Out, Refusal, Store, add_object, aes_key, ask, is_aes, object_by_handle,
    random_block,
};
use templates::{unwrap_fault, unwraps_private_key, unwraps_token_key};

/// A wrapped key, and what unwraps it.
#[derive(Drop)]
pub struct Wrapped {
    pub mechanism: Mechanism,
    pub unwrapping_key: u64,
    pub bytes: Bytes,
}

/// C_UnwrapKey (PKCS #11 v3.1, 5.18).
/// Codes: the checks of C_UnwrapKey (`precede`), and those of the template. Returns a job for the key that a template makes of the value
/// which is wrapped in the bytes, under an unwrapping key. The call's random bytes make its CKA_UNIQUE_ID. The call is pending then.
pub fn serve<K: Keep>(
    caller: Caller,
    desk: &mut Desk,
    store: &mut Store<K>,
    session: u64,
    wrapped: Wrapped,
    template: Template,
    random: &[u8],
) -> Result<Out, Refusal>
    requires below { desk.old.next_question < 2 ^ 63 }
    requires random { length random.now ≡ 16 }
    ensures done { IsDoneAs K.terms said_of 0
        (λ c v. unwrap_key v session wrapped.mechanism wrapped.unwrapping_key wrapped.bytes template random.now)
        store.old store.new desk.old result desk.new }
    ensures asker { IfOk result (IsFor caller.app) }
{
    let Wrapped {
        mechanism,
        unwrapping_key,
        bytes,
    } = wrapped;
    let key = object_by_handle(caller.alloc, desk, store, unwrapping_key)?;
    ask_unwrapped(
        caller, desk, session, &mechanism, &key, bytes, template, random,
    )
}

/// Returns the job of the unwrapping under what was found, where the checks of the call's table pass.
fn ask_unwrapped(
    caller: Caller,
    desk: &mut Desk,
    session: u64,
    mechanism: &Mechanism,
    key: &Option<Found>,
    wrapped_key: Bytes,
    template: Template,
    random: &[u8],
) -> Result<Out, Refusal>
    requires below { desk.old.next_question < 2 ^ 63 }
    requires random { length random.now ≡ 16 }
    ensures serves { AtDesk said_of
        (λ v. unwraps v session mechanism.now (object_in key.now) wrapped_key template random.now (state_in v session)
        (template_fault (templates_call.Unwrap (length wrapped_key - 8)) (state_in v session) [] template)) desk.old result desk.new }
    ensures asker { IfOk result (IsFor caller.app) }
{
    let state = desk.state(session).ok_or(Condition::NoSession)?;
    let _ = find_for(Purpose::Wrapping, mechanism.mech_type).ok_or(Condition::WrongMechanism)?;
    if !mechanism.parameter.is_empty() {
        return Err(Refusal::Condition(Condition::WrongParameter));
    }
    if is_no_key(key) {
        return Err(Refusal::Condition(Condition::NoUnwrappingKey));
    }
    let key = key_in(key);
    if !is_aes(key) {
        return Err(Refusal::Condition(Condition::WrongUnwrappingKeyType));
    }
    if !key.flag(AttrType::Unwrap) {
        return Err(Refusal::Condition(Condition::KeyNotPermitted));
    }
    if !is_wrapped_length(wrapped_key.len()) {
        return Err(Refusal::Condition(Condition::WrappedLength));
    }
    ask_for_key(
        caller,
        desk,
        session,
        state,
        aes_key(key),
        wrapped_key,
        template,
        random,
    )
}

/// Whether so many bytes are the wrapping of a value that a key can have: 24 to 520, and whole halves of a block.
fn is_wrapped_length(len: usize) -> bool
    ensures { result ≡ is_wrapped_length len }
{
    24 <= len && len <= 520 && len % 8 == 0
}

/// Why a template makes no key of so many wrapped bytes, if it makes none: its value is 8 bytes shorter.
fn fault_of(state: SessionState, template: &Template, wrapped_len: usize) -> Option<Rv>
    requires { is_wrapped_length wrapped_len ≡ true }
    ensures { result ≡ template_fault (templates_call.Unwrap (wrapped_len - 8)) state [] template.now }
{
    unwrap_fault(state, template, wrapped_len - 8)
}

/// Returns the job for the key of a template. The template must make one, and a session in this state must be allowed to have
/// it. The limit of session objects must not be reached.
fn ask_for_key(
    caller: Caller,
    desk: &mut Desk,
    session: u64,
    state: SessionState,
    key: Key,
    wrapped: Bytes,
    template: Template,
    random: &[u8],
) -> Result<Out, Refusal>
    requires below { desk.old.next_question < 2 ^ 63 }
    requires random { length random.now ≡ 16 }
    requires wrapped { is_wrapped_length (length wrapped) ≡ true }
    ensures serves { AtDesk said_of (λ v. asks_for_key v session state key wrapped template random.now) desk.old result desk.new }
    ensures asker { IfOk result (IsFor caller.app) }
{
    if let Some(code) = fault_of(state, &template, wrapped.len()) {
        return Err(Refusal::Code(code));
    }
    let is_token = unwraps_token_key(&template);
    if needs_read_write(is_read_write(state), is_token) {
        return Err(Refusal::Condition(Condition::TokenObjectReadOnly));
    }
    if unwraps_private_key(&template) && !is_user(state) {
        return Err(Refusal::Condition(Condition::PrivateObject));
    }
    if !is_token && desk.has_all_objects() {
        return Err(Refusal::Condition(Condition::ObjectLimit));
    }
    let work = Work::Unwrap {
        key,
        wrapped,
        state,
        template,
        random: random_block(random),
    };
    Ok(Out::Ask(ask(
        caller.alloc,
        caller.app,
        desk,
        Function::UnwrapKey,
        session,
        work,
    )?))
}

/// The outcome of C_UnwrapKey: adds the key that was made of the unwrapped value, and returns its handle.
/// `CKR_FUNCTION_FAILED` where there is no such session or the handles are used up; the other codes are those of C_CreateObject.
pub fn unwrapped<K: Keep>(
    desk: &mut Desk,
    store: &mut Store<K>,
    session: u64,
    object: Object,
) -> Result<Reply, Refusal>
    ensures { IsDone K.terms 1 (λ v. unwrapped_result v session (Unwrapped object)) store.old store.new desk.old result desk.new }
{
    let Some(state) = desk.state(session) else {
        return Err(Refusal::Code(Rv::FunctionFailed));
    };
    if desk.next_handle() < NUMBER_LIMIT {
        return add_object(desk, store, session, state, object);
    }
    Err(Refusal::Code(Rv::FunctionFailed))
}
