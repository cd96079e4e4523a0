//! Sessions: C_OpenSession, C_CloseSession, C_CloseAllSessions and C_GetSessionInfo.

use ck_calls::SessionInfo;
use ck_types::{Rv, SessionState};
use std::test::*;
use test_scripts::given::*;
use test_scripts::{Bench, Row, Step, Told, play};

#[test]
fn a_number_is_never_used_again(rt: HostRuntime) -> Result<(), Fail> {
    const ROWS: &[Row] = &[
        (A, OPEN, Told::Session(1)),
        (A, OPEN, Told::Session(2)),
        (A, Step::CloseSession(2), OK),
        (A, Step::CloseSession(2), NO_SESSION),
        (A, OPEN, Told::Session(3)),
        (A, Step::CreateObject(1, TOKEN_DATA), Told::Object(1)),
        (A, Step::DestroyObject(1, 1), OK),
        (A, Step::DestroyObject(1, 1), NO_OBJECT),
        (A, Step::CreateObject(1, TOKEN_DATA), Told::Object(2)),
    ];
    play(rt.alloc(), ROWS)
}

#[test]
fn an_application_that_goes_has_nothing_when_it_comes_again(rt: HostRuntime) -> Result<(), Fail> {
    const ROWS: &[Row] = &[
        (A, OPEN, Told::Session(1)),
        (A, Step::CreateObject(1, TOKEN_DATA), Told::Object(1)),
        (A, Step::Goes, Told::Nothing),
        (A, Step::CloseSession(1), NO_SESSION),
        (A, OPEN, Told::Session(1)),
        (A, Step::DestroyObject(1, 1), NO_OBJECT),
    ];
    play(rt.alloc(), ROWS)
}

#[test]
fn session_objects_go_with_the_session_that_made_them(rt: HostRuntime) -> Result<(), Fail> {
    const ROWS: &[Row] = &[
        (A, OPEN, Told::Session(1)),
        (A, OPEN_READ_ONLY, Told::Session(2)),
        (A, Step::CreateObject(1, SESSION_DATA), Told::Object(1)),
        (A, Step::CreateObject(2, SESSION_DATA), Told::Object(2)),
        (A, Step::CloseSession(1), OK),
        (A, Step::DestroyObject(2, 1), NO_OBJECT),
        (A, Step::DestroyObject(2, 2), OK),
        (A, Step::CloseAllSessions(1), NO_SLOT),
        (A, Step::CloseAllSessions(0), OK),
        (A, Step::CloseSession(2), NO_SESSION),
    ];
    play(rt.alloc(), ROWS)
}

#[test]
fn what_a_session_may_not_do_has_its_code(rt: HostRuntime) -> Result<(), Fail> {
    const ROWS: &[Row] = &[
        (
            A,
            Step::OpenSession(0, 2),
            Told::Code(Rv::SessionParallelNotSupported),
        ),
        (A, Step::OpenSession(0, 7), Told::Code(Rv::ArgumentsBad)),
        (A, OPEN_READ_ONLY, Told::Session(1)),
        (A, Step::CreateObject(1, TOKEN_DATA), READ_ONLY_SESSION),
        (A, Step::CreateObject(1, PRIVATE_DATA), NOT_LOGGED_IN),
    ];
    play(rt.alloc(), ROWS)
}

#[test]
fn an_application_has_at_most_64_sessions(rt: HostRuntime) -> Result<(), Fail> {
    const AFTER: &[Row] = &[
        (A, OPEN, SESSION_LIMIT),
        (A, OPEN, SESSION_LIMIT),
        (B, OPEN, Told::Session(1)),
    ];
    let mut bench = Bench::new(rt.alloc())?;
    bench.fill((A, OPEN), 1, 64)?;
    bench.play(AFTER)
}

#[test]
fn a_session_tells_its_state(rt: HostRuntime) -> Result<(), Fail> {
    const INFO: SessionInfo = SessionInfo {
        slot: 0,
        state: SessionState::RoPublic,
        read_write: false,
    };
    const ROWS: &[Row] = &[
        (A, OPEN_READ_ONLY, Told::Session(1)),
        (A, Step::GetSessionInfo(1), Told::SessionInfo(INFO)),
    ];
    play(rt.alloc(), ROWS)
}
