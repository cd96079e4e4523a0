//! C_Login (PKCS #11 v3.1, 5.6): a check of a PIN, and its outcome.

ghost use Rattle.std.specs.Prelude.{◌≡◌, ◌<◌, ◌^◌, IfOk, IsFalse, IsTrue, None, length};
ghost use Rattle.ck_types.specs.declared.user_type.UserType.TheVariants.{So};
ghost use Rattle.desk.specs.Desks.{IsDiscreet};
ghost use Rattle.keep.specs.Contents.{Contents};
ghost use Rattle.pin_record.specs.Records.{is_locked};
ghost use Rattle.sessions.specs.Sessions.{has_read_only};
ghost use Rattle.model_views.specs.Answering.{Replies};
ghost use Rattle.model_session_answers.specs.Login.{is_in, keeps_out, login, may_log_in, right_pin, user_of};
ghost use Rattle.serve_sessions.specs.Recording.{right_reveal};
ghost use Rattle.serve_base.specs.Refusing.{IsDoneAs};
ghost use Rattle.serve_base.specs.Shown.{IsFor, said_of, view_of};

use crate::pin_checks::{ask_charged, store_record};
use ck_calls::{Function, Reply};
use ck_types::{Bytes, Rv, UserType};
use desk::Desk;
use keep::Keep;
use mech::Work;
use pin_record::{Record, end_check};
use precede::Condition;
use serve_base::{Caller, Out, Refusal, Store};
use std::alloc::Global;

/// The user of a `CK_USER_TYPE`.
fn user_of(number: u64) -> Option<UserType>
    ensures { result ≡ user_of number }
{
    if number == UserType::So.number() {
        Some(UserType::So)
    } else if number == UserType::User.number() {
        Some(UserType::User)
    } else {
        None
    }
}

fn is_in(who: UserType, login: Option<UserType>) -> bool
    ensures { result ≡ is_in who login }
{
    match login {
        None => false,
        Some(other) => who == other,
    }
}

/// Whether a read-only session keeps this user from logging in, as it does the SO.
fn keeps_out(who: UserType, read_only: bool) -> bool
    ensures { result ≡ keeps_out who read_only }
{
    match who {
        UserType::So => read_only,
        UserType::User => false,
    }
}

/// Whether all tries of a PIN are spent, so that no check of it may begin.
fn has_no_try_left(record: &Record, who: UserType) -> bool
    ensures { result ≡ is_locked «record».now who }
{
    record.is_locked(who)
}

/// C_Login (PKCS #11 v3.1, 5.6).
/// Codes: the checks of C_Login (`precede`). Returns a job for a check of a PIN, which is charged before it. The call is pending then.
pub fn serve<K: Keep>(
    alloc: Global,
    app: u64,
    desk: &mut Desk,
    store: &mut Store<K>,
    session: u64,
    user_type: u64,
    pin: Bytes,
) -> Result<Out, Refusal>
    requires { desk.old.next_question < 2 ^ 63 }
    ensures done { IsDoneAs K.terms said_of 1 (λ c v. login v session user_type pin) store.old store.new desk.old result desk.new }
    ensures asker { IfOk result (IsFor app) }
{
    let _ = desk.state(session).ok_or(Condition::NoSession)?;
    let who = user_of(user_type).ok_or(Condition::UnknownUserType)?;
    let login = desk.logged_in();
    if is_in(who, login) {
        return Err(Refusal::Condition(Condition::SameUserLoggedIn));
    }
    if login.is_some() {
        return Err(Refusal::Condition(Condition::OtherUserLoggedIn));
    }
    if keeps_out(who, desk.has_read_only_session()) {
        return Err(Refusal::Condition(Condition::ReadOnlySessionOpen));
    }
    let record = store.get_record();
    let verifier = record.verifier(who).copied().ok_or(Condition::PinNotSet)?;
    if has_no_try_left(&record, who) {
        return Err(Refusal::Condition(Condition::PinLocked));
    }
    let work = Work::CheckPin { who, verifier, pin };
    ask_charged(
        Caller { alloc, app },
        desk,
        store,
        record,
        who,
        Function::Login,
        session,
        work,
    )
}

/// Whether this user may be logged in: nobody is, and there are sessions, none of which prevents it.
fn may_log_in(desk: &Desk, who: UserType) -> bool
    ensures value { (c : Contents) → result ≡ may_log_in (view_of c desk.now) who }
    ensures open { IsTrue result → 0 < length desk.now.sessions.sessions }
    ensures public { IsTrue result → desk.now.sessions.login ≡ None }
    ensures access { IsTrue result → who ≡ So → IsFalse (has_read_only desk.now.sessions.sessions) }
    ensures discreet { IsDiscreet desk.now }
{
    desk.logged_in().is_none()
        && desk.has_session()
        && !keeps_out(who, desk.has_read_only_session())
}

/// The outcome of C_Login where the PIN was right: this user is logged in. As many tries of the PIN are spent as other
/// applications have checks of it in progress. `CKR_FUNCTION_FAILED` where the login is no longer possible.
pub fn log_in<K: Keep>(
    desk: &mut Desk,
    store: &mut Store<K>,
    who: UserType,
    under_way: usize,
) -> Result<Reply, Refusal>
    ensures { IsDoneAs K.terms Replies 1 (λ c v. right_pin v who (right_reveal who under_way c)) store.old store.new desk.old result desk.new }
{
    let record = store.get_record();
    if under_way >= record.tries(who) as usize {
        return Err(Refusal::Code(Rv::FunctionFailed));
    }
    let ended = end_check(record, who, true, under_way as u8);
    if !may_log_in(desk, who) {
        return store_record(desk, store, ended, Rv::FunctionFailed);
    }
    store.set_record(ended)?;
    desk.login(who);
    Ok(Reply::Code(Rv::Ok))
}
