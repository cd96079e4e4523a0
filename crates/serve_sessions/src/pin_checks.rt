//! The token's record, which the calls of PINs write.

ghost use Rattle.std.specs.Prelude.{◌≡◌, ◌<◌, ◌≤◌, ◌^◌, IfOk, IsTrue, None, is_some, length, true};
ghost use Rattle.ck_calls.specs.declared.reply.Reply.TheVariants.{Code};
ghost use Rattle.mech.specs.Runnable.{is_runnable};
ghost use Rattle.pin_record.specs.Records.{tries_limit, tries_of, verifier_of};
ghost use Rattle.model_views.specs.Answering.{Replies};
ghost use Rattle.model_views.specs.Refusals.{resource_error};
ghost use Rattle.model_session_answers.specs.Pins.{is_pin_length, resets};
ghost use Rattle.serve_base.specs.Refusing.{EndsNone, IsDone, IsDoneIf};
ghost use Rattle.serve_base.specs.Short.{IsShortTask};
ghost use Rattle.serve_base.specs.Shown.{IsFor, said_of, task_of};
ghost use Rattle.serve_sessions.specs.Recording.{asks_charged, codes_with};

use ck_calls::{Function, Reply};
use ck_types::{MAX_PIN_LEN, MIN_PIN_LEN, Rv, UserType};
use desk::Desk;
use keep::Keep;
use mech::Work;
use pin_record::{Record, begin_check};
use serve_base::{Caller, Out, Refusal, Store, new_job};

/// Whether a new PIN has 4 to 64 bytes.
pub(crate) fn is_pin_length(pin: &[u8]) -> bool
    ensures { result ≡ is_pin_length pin.now }
{
    MIN_PIN_LEN <= pin.len() as u64 && pin.len() as u64 <= MAX_PIN_LEN
}

/// Returns a job for a check of a PIN. The charge is stored before the call is pending. The job is allocated before both, so
/// an allocation failure charges no try.
pub(crate) fn ask_charged<K: Keep>(
    caller: Caller,
    desk: &mut Desk,
    store: &mut Store<K>,
    record: Record,
    who: UserType,
    function: Function,
    session: u64,
    work: Work,
) -> Result<Out, Refusal>
    requires below { desk.old.next_question < 2 ^ 63 }
    requires runnable { IsTrue (is_runnable work) }
    requires set { is_some (verifier_of «record» who) ≡ true }
    requires unlocked { tries_of «record» who < tries_limit }
    ensures done { IsDoneIf (IsShortTask (task_of work)) EndsNone K.terms said_of 1
        (λ c v. asks_charged «record» v function session (task_of work) who) store.old store.new desk.old result desk.new }
    ensures asker { IfOk result (IsFor caller.app) }
{
    let job = new_job(caller.alloc, caller.app, desk, function, session, work)?;
    store.set_record(begin_check(record, who))?;
    desk.ask(&job);
    Ok(Out::Ask(job))
}

/// Stores another record, and returns a code.
pub(crate) fn store_record<K: Keep>(
    desk: &Desk,
    store: &mut Store<K>,
    record: Record,
    code: Rv,
) -> Result<Reply, Refusal>
    requires { resource_error (Code code) ≡ None }
    ensures { IsDone K.terms 1 (λ v. codes_with code «record» v) store.old store.new desk.now result desk.now }
{
    store.set_record(record)?;
    Ok(Reply::Code(code))
}

/// Removes all token objects and stores another record.
pub(crate) fn reset_to<K: Keep>(
    desk: &Desk,
    store: &mut Store<K>,
    record: Record,
) -> Result<Reply, Refusal>
    ensures { IsDone K.terms 1 (λ v. resets «record» v) store.old store.new desk.now result desk.now }
{
    store.reset(record)?;
    Ok(Reply::Code(Rv::Ok))
}
