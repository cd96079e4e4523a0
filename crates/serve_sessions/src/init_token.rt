//! C_InitToken (PKCS #11 v3.1, 5.5): the token is initialised, for the first time or again.

ghost use Rattle.std.specs.Prelude.{◌≡◌, ◌<◌, ◌^◌, ◌≤◌, IfOk, Some, None, length};
ghost use Rattle.std.specs.Option.{option_map};
ghost use Rattle.ck_types.specs.declared.user_type.UserType.TheVariants.{So};
ghost use Rattle.pin_record.specs.Records.{initialized_record, tries_limit, verifier_of};
ghost use Rattle.model_views.specs.Answering.{Replies};
ghost use Rattle.model_session_answers.specs.InitToken.{init_token, inited, reset};
ghost use Rattle.serve_base.specs.Refusing.{IsDone, IsDoneAs};
ghost use Rattle.serve_base.specs.Shown.{IsFor, said_of};

use crate::SLOT;
use crate::pin_checks::{ask_charged, is_pin_length, reset_to, store_record};
use ck_calls::{Function, Reply};
use ck_types::{Bytes, Label, Rv, UserType};
use desk::Desk;
use keep::Keep;
use mech::Work;
use pin_record::{Record, Verifier, end_check};
use precede::Condition;
use serve_base::{Caller, Out, Refusal, Store, ask, random_block};

/// C_InitToken (PKCS #11 v3.1, 5.5).
/// Codes: the checks of C_InitToken (`precede`). Returns a job for a check of the SO's PIN, which is charged before it. Where the token
/// isn't initialised, the job is for the verifier of this PIN, with the call's random bytes as its salt. The call is pending then.
pub fn serve<K: Keep>(
    caller: Caller,
    desk: &mut Desk,
    store: &mut Store<K>,
    slot: u64,
    pin: Bytes,
    label: Bytes,
    random: &[u8],
    others_have_sessions: bool,
) -> Result<Out, Refusal>
    requires below { desk.old.next_question < 2 ^ 63 }
    requires random { length random.now ≡ 16 }
    ensures done { IsDoneAs K.terms said_of 1 (λ c v. init_token v slot pin label random.now (record {
      objects = None;
      under_way = None;
      others_have_sessions = Some others_have_sessions;
    })) store.old store.new desk.old result desk.new }
    ensures asker { IfOk result (IsFor caller.app) }
{
    if slot != SLOT {
        return Err(Refusal::Condition(Condition::NoSlot));
    }
    let label = Label::from_slice(label.as_slice()).ok_or(Condition::LabelLength)?;
    if desk.has_session() || others_have_sessions {
        return Err(Refusal::Condition(Condition::SessionOpen));
    }
    let record = store.get_record();
    let Some(verifier) = record.verifier(UserType::So).copied() else {
        if !is_pin_length(pin.as_slice()) {
            return Err(Refusal::Condition(Condition::PinLength));
        }
        let salt = random_block(random);
        let work = Work::InitToken { label, pin, salt };
        return Ok(Out::Ask(ask(caller.alloc, caller.app, desk, Function::InitToken, 0, work)?));
    };
    if record.is_locked(UserType::So) {
        return Err(Refusal::Condition(Condition::PinLocked));
    }
    let work = Work::ResetToken {
        label,
        verifier,
        pin,
    };
    ask_charged(
        caller,
        desk,
        store,
        record,
        UserType::So,
        Function::InitToken,
        0,
        work,
    )
}

/// The outcome of C_InitToken where the token wasn't initialised: the SO's first PIN is set, and the token has this label.
/// `CKR_FUNCTION_FAILED` where it was initialised meanwhile, `CKR_SESSION_EXISTS` where there is a session by now.
pub fn initialize<K: Keep>(
    desk: &Desk,
    store: &mut Store<K>,
    label: Label,
    verifier: Verifier,
    others_have_sessions: bool,
) -> Result<Reply, Refusal>
    ensures { IsDone K.terms 1 (λ v. inited v label verifier (record {
      objects = None;
      under_way = None;
      others_have_sessions = Some others_have_sessions;
    })) store.old store.new desk.now result desk.now }
{
    let record = store.get_record();
    if record.is_initialized() || record.tries(UserType::So) != 0 {
        return Err(Refusal::Code(Rv::FunctionFailed));
    }
    if desk.has_session() || others_have_sessions {
        return Err(Refusal::Code(Rv::SessionExists));
    }
    reset_to(desk, store, Record::initialized(label, verifier, 0))
}

/// The outcome of C_InitToken where the SO's PIN was right: the token has no objects, this label, the SO's PIN and no user's.
/// `CKR_SESSION_EXISTS` where there is a session by now.
pub fn reinitialize<K: Keep>(
    desk: &Desk,
    store: &mut Store<K>,
    label: Label,
    under_way: usize,
    others_have_sessions: bool,
) -> Result<Reply, Refusal>
    ensures { IsDone K.terms 1 (λ v. reset v label (record {
      objects = None;
      under_way = Some under_way;
      others_have_sessions = Some others_have_sessions;
    })) store.old store.new desk.now result desk.now }
{
    let record = store.get_record();
    if under_way >= record.tries(UserType::So) as usize {
        return Err(Refusal::Code(Rv::FunctionFailed));
    }
    let under_way = under_way as u8;
    if desk.has_session() || others_have_sessions {
        let record = end_check(record, UserType::So, true, under_way);
        return store_record(desk, store, record, Rv::SessionExists);
    }
    let Some(record) = renewed(&record, label, under_way) else {
        return Err(Refusal::Code(Rv::FunctionFailed));
    };
    reset_to(desk, store, record)
}

/// The record of a token that is initialised again. It keeps the SO's PIN.
fn renewed(before: &Record, label: Label, under_way: u8) -> Option<Record>
    requires { under_way ≤ tries_limit }
    ensures { result ≡ option_map (λ verifier. initialized_record label verifier under_way) (verifier_of before.now So) }
{
    let verifier = before.verifier(UserType::So).copied()?;
    Some(Record::initialized(label, verifier, under_way))
}
