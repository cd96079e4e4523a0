//! Applications that go while a check of theirs is in progress.

use super::given::*;
use super::stored::{play_and_run_questions, record_with};
use ck_calls::{Reply, need};
use ck_types::{Rv, UserType};
use keep::{Keep, ListKeep};
use std::alloc::Global;
use std::test::*;
use test_scripts::given::*;
use test_scripts::{Row, Step, Told, call_of, token_over};
use token::{Job, Out, Token};

#[test]
fn a_charge_stays_when_its_application_goes(rt: HostRuntime) -> Result<(), Fail> {
    const ROWS: &[Row] = &[
        (A, OPEN, Told::Session(1)),
        (A, LOGIN, Told::Nothing),
        (A, Step::Goes, Told::Nothing),
        (ASKER, TOKEN_INFO, Told::TokenInfo(NAME, 0x3040d, 0, 0)),
        (A, Step::Finish, Told::Nothing),
        (A, OPEN, Told::Session(1)),
        (A, WRONG_LOGIN, Told::Nothing),
        (A, Step::Goes, Told::Nothing),
        (ASKER, TOKEN_INFO, Told::TokenInfo(NAME, 0x5040d, 0, 0)),
        (A, OPEN, Told::Session(1)),
        (A, LOGIN, LOCKED),
    ];
    play_and_run_questions(rt.alloc(), record_with(0, 8)?, ROWS)
}

#[test]
fn a_check_that_is_gone_is_not_under_way(rt: HostRuntime) -> Result<(), Fail> {
    const ROWS: &[Row] = &[
        (A, OPEN, Told::Session(1)),
        (A, LOGIN, Told::Nothing),
        (A, Step::Goes, Told::Nothing),
        (ASKER, TOKEN_INFO, Told::TokenInfo(NAME, 0x1040d, 0, 0)),
        (B, OPEN, Told::Session(1)),
        (B, LOGIN, Told::Nothing),
        (B, Step::Finish, OK),
        (ASKER, TOKEN_INFO, Told::TokenInfo(NAME, 0x40d, 0, 0)),
    ];
    play_and_run_questions(rt.alloc(), record_with(0, 0)?, ROWS)
}

#[test]
fn a_reset_that_is_gone_resets_nothing(rt: HostRuntime) -> Result<(), Fail> {
    const ROWS: &[Row] = &[
        (A, Step::InitToken(0, SO_PIN, NEW_NAME), Told::Nothing),
        (A, Step::Goes, Told::Nothing),
        (A, Step::Finish, Told::Nothing),
        (A, TOKEN_INFO, Told::TokenInfo(NAME, 0x10040d, 0, 0)),
    ];
    play_and_run_questions(rt.alloc(), record_with(0, 0)?, ROWS)
}

/// What comes of a step.
fn out_of(alloc: Global, token: &mut Token<ListKeep>, app: u64, step: Step) -> Result<Out, Fail> {
    let call = call_of(alloc, step)?;
    let random = vec![in alloc; 0u8; need(&call)]?;
    Ok(token.call(alloc, app, call, &random))
}

/// The job of a step.
fn job_of(alloc: Global, token: &mut Token<ListKeep>, app: u64, step: Step) -> Result<Job, Fail> {
    match out_of(alloc, token, app, step)? {
        Out::Ask(job) => Ok(job),
        Out::Reply(_) => Err("the step has no job".into()),
    }
}

/// The reply to a step.
fn reply_to(
    alloc: Global,
    token: &mut Token<ListKeep>,
    app: u64,
    step: Step,
) -> Result<Reply, Fail> {
    match out_of(alloc, token, app, step)? {
        Out::Reply(reply) => Ok(reply),
        Out::Ask(_) => Err("the step has a job".into()),
    }
}

/// The code that a late result returns. The check of a right PIN began with a try before it.
fn late_code(alloc: Global, token: &mut Token<ListKeep>, before: &[Step]) -> Result<Reply, Fail> {
    drop(reply_to(alloc, token, A, OPEN)?);
    let job = job_of(alloc, token, A, LOGIN)?;
    token.gone(A);
    for step in before {
        drop(reply_to(alloc, token, A, *step)?);
    }
    Ok(token.finish(alloc, A, job.run(alloc)))
}

/// A token over a store whose user has one try.
fn token_with_a_try(alloc: Global) -> Result<Token<ListKeep>, Fail> {
    token_over(alloc, ListKeep::new(alloc, record_with(0, 1)?))
}

/// The reply to a late result, and the replies to the next steps of an application of the number.
fn late_replies(alloc: Global, before: &[Step], steps: &[Step]) -> Result<(Vec<Reply>, u8), Fail> {
    let mut token = token_with_a_try(alloc)?;
    let mut replies = Vec::new(alloc);
    replies.push(late_code(alloc, &mut token, before)?)?;
    for step in steps {
        replies.push(reply_to(alloc, &mut token, A, *step)?)?;
    }
    Ok((
        replies,
        token.into_keep().get_record().tries(UserType::User),
    ))
}

#[test]
fn a_late_result_fails_and_its_charge_stays(rt: HostRuntime) -> Result<(), Fail> {
    let steps = [Step::GetSessionInfo(1), LOGOUT];
    let (replies, tries) = late_replies(rt.alloc(), &[], &steps)?;
    let wanted = [
        Reply::Code(Rv::FunctionFailed),
        Reply::Code(Rv::SessionHandleInvalid),
        Reply::Code(Rv::SessionHandleInvalid),
    ];
    assert_eq!(rt; (replies.as_slice(), tries), (wanted.as_slice(), 2));
    Ok(())
}

#[test]
fn a_late_result_logs_nobody_of_its_number_in(rt: HostRuntime) -> Result<(), Fail> {
    let steps = [LOGOUT, Step::CloseSession(2)];
    let (replies, tries) = late_replies(rt.alloc(), &[OPEN], &steps)?;
    let wanted = [
        Reply::Code(Rv::FunctionFailed),
        Reply::Code(Rv::UserNotLoggedIn),
        Reply::Code(Rv::SessionHandleInvalid),
    ];
    assert_eq!(rt; (replies.as_slice(), tries), (wanted.as_slice(), 2));
    Ok(())
}
