//! C_SetPIN (PKCS #11 v3.1, 5.5): a new PIN in the place of the old one.

ghost use Rattle.std.specs.Prelude.{◌≡◌, ◌<◌, ◌^◌, IfOk, Some, None, length};
ghost use Rattle.model_views.specs.Answering.{Replies};
ghost use Rattle.model_session_answers.specs.SetPin.{owner, pin_changed, set_pin};
ghost use Rattle.serve_base.specs.Refusing.{IsDone, IsDoneAs};
ghost use Rattle.serve_base.specs.Shown.{IsFor, said_of};

use crate::pin_checks::{ask_charged, is_pin_length, store_record};
use ck_calls::{Function, Reply};
use ck_types::{Bytes, Rv, UserType};
use desk::Desk;
use keep::Keep;
use mech::Work;
use pin_record::{Verifier, end_check};
use precede::Condition;
use serve_base::{Caller, Out, Refusal, Store, random_block};
use std::alloc::Global;

/// Whose PIN is changed: that of who is logged in, and the user's where nobody is.
fn owner(login: Option<UserType>) -> UserType
    ensures { result ≡ owner login }
{
    match login {
        None => UserType::User,
        Some(who) => who,
    }
}

/// C_SetPIN (PKCS #11 v3.1, 5.5).
/// Codes: the checks of C_SetPIN (`precede`). Returns a job for a check of the old PIN, which is charged before it. The job also makes the
/// verifier of the new PIN, with the call's random bytes as its salt. The call is pending then.
pub fn serve<K: Keep>(
    alloc: Global,
    app: u64,
    desk: &mut Desk,
    store: &mut Store<K>,
    session: u64,
    old_pin: Bytes,
    new_pin: Bytes,
    random: &[u8],
) -> Result<Out, Refusal>
    requires below { desk.old.next_question < 2 ^ 63 }
    requires random { length random.now ≡ 16 }
    ensures done { IsDoneAs K.terms said_of 1 (λ c v. set_pin v session old_pin new_pin random.now) store.old store.new desk.old result desk.new }
    ensures asker { IfOk result (IsFor app) }
{
    let read_write = desk.is_read_write(session).ok_or(Condition::NoSession)?;
    if !read_write {
        return Err(Refusal::Condition(Condition::SessionReadOnly));
    }
    let who = owner(desk.logged_in());
    let record = store.get_record();
    let verifier = record.verifier(who).copied().ok_or(Condition::PinNotSet)?;
    if !is_pin_length(new_pin.as_slice()) {
        return Err(Refusal::Condition(Condition::PinLength));
    }
    if record.is_locked(who) {
        return Err(Refusal::Condition(Condition::PinLocked));
    }
    let salt = random_block(random);
    let work = Work::ChangePin {
        who,
        verifier,
        pin: old_pin,
        new_pin,
        salt,
    };
    ask_charged(
        Caller { alloc, app },
        desk,
        store,
        record,
        who,
        Function::SetPin,
        session,
        work,
    )
}

/// The outcome of C_SetPIN where the old PIN was right: the new one is set. As many of its tries are spent as other applications
/// have checks of the PIN in progress. `CKR_FUNCTION_FAILED` where the token isn't initialised any more.
pub fn store_pin<K: Keep>(
    desk: &Desk,
    store: &mut Store<K>,
    who: UserType,
    verifier: Verifier,
    under_way: usize,
) -> Result<Reply, Refusal>
    ensures { IsDone K.terms 1 (λ v. pin_changed v who verifier (record {
      objects = None;
      under_way = Some under_way;
      others_have_sessions = None;
    })) store.old store.new desk.now result desk.now }
{
    let record = store.get_record();
    if under_way >= record.tries(who) as usize {
        return Err(Refusal::Code(Rv::FunctionFailed));
    }
    let under_way = under_way as u8;
    if !record.is_initialized() {
        let record = end_check(record, who, true, under_way);
        return store_record(desk, store, record, Rv::FunctionFailed);
    }
    store_record(
        desk,
        store,
        record.with_pin(who, verifier, under_way),
        Rv::Ok,
    )
}
