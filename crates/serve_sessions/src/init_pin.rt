//! C_InitPIN (PKCS #11 v3.1, 5.5): the SO sets the user's PIN.

ghost use Rattle.std.specs.Prelude.{◌≡◌, ◌<◌, ◌^◌, IfOk, Some, None, length};
ghost use Rattle.model_views.specs.Answering.{Replies};
ghost use Rattle.model_session_answers.specs.InitPin.{init_pin, pin_made};
ghost use Rattle.model_session_answers.specs.Pins.{is_so};
ghost use Rattle.serve_base.specs.Refusing.{AtDesk, IsDone};
ghost use Rattle.serve_base.specs.Shown.{IsFor, said_of};

use crate::pin_checks::{is_pin_length, store_record};
use ck_calls::{Function, Reply};
use ck_types::{Bytes, Rv, UserType};
use desk::Desk;
use keep::Keep;
use mech::Work;
use pin_record::{TRIES_LIMIT, Verifier};
use precede::Condition;
use serve_base::{Out, Refusal, Store, ask, random_block};
use std::alloc::Global;

fn is_so(login: Option<UserType>) -> bool
    ensures { result ≡ is_so login }
{
    match login {
        None => false,
        Some(who) => who == UserType::So,
    }
}

/// C_InitPIN (PKCS #11 v3.1, 5.5).
/// Codes: the checks of C_InitPIN (`precede`). Returns a job for the verifier of the user's new PIN, with the call's random bytes as its
/// salt. The call is pending then.
pub fn serve(
    alloc: Global,
    app: u64,
    desk: &mut Desk,
    session: u64,
    pin: Bytes,
    random: &[u8],
) -> Result<Out, Refusal>
    requires below { desk.old.next_question < 2 ^ 63 }
    requires random { length random.now ≡ 16 }
    ensures serves { AtDesk said_of (λ v. init_pin v session pin random.now) desk.old result desk.new }
    ensures asker { IfOk result (IsFor app) }
{
    let _ = desk.state(session).ok_or(Condition::NoSession)?;
    if !is_so(desk.logged_in()) {
        return Err(Refusal::Condition(Condition::NotSo));
    }
    if !is_pin_length(pin.as_slice()) {
        return Err(Refusal::Condition(Condition::PinLength));
    }
    let salt = random_block(random);
    let work = Work::MakePin { pin, salt };
    Ok(Out::Ask(ask(alloc, app, desk, Function::InitPin, session, work)?))
}

/// The outcome of C_InitPIN: the user's PIN is set. As many of its tries are spent as other applications have checks of it in
/// progress. `CKR_FUNCTION_FAILED` where the token isn't initialised any more.
pub fn store_pin<K: Keep>(
    desk: &Desk,
    store: &mut Store<K>,
    verifier: Verifier,
    under_way: usize,
) -> Result<Reply, Refusal>
    ensures { IsDone K.terms 1 (λ v. pin_made v verifier (record {
      objects = None;
      under_way = Some under_way;
      others_have_sessions = None;
    })) store.old store.new desk.now result desk.now }
{
    let record = store.get_record();
    if !record.is_initialized() || under_way > TRIES_LIMIT as usize {
        return Err(Refusal::Code(Rv::FunctionFailed));
    }
    let record = record.with_pin(UserType::User, verifier, under_way as u8);
    store_record(desk, store, record, Rv::Ok)
}
