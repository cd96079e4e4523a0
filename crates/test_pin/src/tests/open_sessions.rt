//! Sessions beside logins.

use super::given::*;
use super::stored::{play_and_run, record_with};
use ck_calls::SessionInfo;
use ck_types::{Rv, SessionState};
use std::alloc::Global;
use std::test::*;
use test_scripts::given::*;
use test_scripts::{Row, Step, Told};

/// A opens 64 sessions, and then come the rows.
fn after_64_sessions(alloc: Global, rows: &[Row]) -> Result<Vec<Row>, Fail> {
    let mut all = Vec::new(alloc);
    for session in 1..=64 {
        all.push((A, OPEN, Told::Session(session)))?;
    }
    all.extend_from_slice(rows)?;
    Ok(all)
}

#[test]
fn there_is_no_65th_session(rt: HostRuntime) -> Result<(), Fail> {
    const ROWS: &[Row] = &[
        (A, TOKEN_INFO, Told::TokenInfo(NAME, 0x40d, 64, 64)),
        (A, OPEN, SESSION_LIMIT),
        (A, OPEN_READ_ONLY, SESSION_LIMIT),
        (
            A,
            Step::OpenSession(0, 2),
            Told::Code(Rv::SessionParallelNotSupported),
        ),
        (A, Step::CloseSession(64), OK),
        (A, OPEN_READ_ONLY, Told::Session(65)),
        (A, TOKEN_INFO, Told::TokenInfo(NAME, 0x40d, 64, 63)),
    ];
    let rows = after_64_sessions(rt.alloc(), ROWS)?;
    play_and_run(rt.alloc(), record_with(0, 0)?, &rows)
}

#[test]
fn the_so_has_no_read_only_session(rt: HostRuntime) -> Result<(), Fail> {
    const ROWS: &[Row] = &[
        (A, OPEN, Told::Session(1)),
        (A, OPEN_READ_ONLY, Told::Session(2)),
        (A, LOGIN_SO, Told::Code(Rv::SessionReadOnlyExists)),
        (
            A,
            Step::Login(2, SO, SO_PIN),
            Told::Code(Rv::SessionReadOnlyExists),
        ),
        (ASKER, TOKEN_INFO, Told::TokenInfo(NAME, 0x40d, 0, 0)),
        (A, Step::CloseSession(2), OK),
        (B, OPEN_READ_ONLY, Told::Session(1)),
        (A, LOGIN_SO, OK),
        (A, OPEN_READ_ONLY, Told::Code(Rv::SessionReadWriteSoExists)),
        (A, OPEN, Told::Session(3)),
        (B, OPEN_READ_ONLY, Told::Session(2)),
        (A, LOGOUT, OK),
        (A, OPEN_READ_ONLY, Told::Session(4)),
    ];
    play_and_run(rt.alloc(), record_with(0, 0)?, ROWS)
}

const RO_PUBLIC: Told = Told::SessionInfo(SessionInfo {
    slot: 0,
    state: SessionState::RoPublic,
    read_write: false,
});

const RO_USER: Told = Told::SessionInfo(SessionInfo {
    slot: 0,
    state: SessionState::RoUser,
    read_write: false,
});

const RW_PUBLIC: Told = Told::SessionInfo(SessionInfo {
    slot: 0,
    state: SessionState::RwPublic,
    read_write: true,
});

const RW_USER: Told = Told::SessionInfo(SessionInfo {
    slot: 0,
    state: SessionState::RwUser,
    read_write: true,
});

const RW_SO: Told = Told::SessionInfo(SessionInfo {
    slot: 0,
    state: SessionState::RwSo,
    read_write: true,
});

#[test]
fn all_sessions_of_an_application_are_logged_in_and_no_others(rt: HostRuntime) -> Result<(), Fail> {
    const ROWS: &[Row] = &[
        (A, OPEN, Told::Session(1)),
        (A, OPEN_READ_ONLY, Told::Session(2)),
        (B, OPEN, Told::Session(1)),
        (A, Step::Login(2, USER, USER_PIN), OK),
        (A, Step::GetSessionInfo(1), RW_USER),
        (A, Step::GetSessionInfo(2), RO_USER),
        (B, Step::GetSessionInfo(1), RW_PUBLIC),
        (B, LOGIN_SO, OK),
        (B, Step::GetSessionInfo(1), RW_SO),
        (A, Step::Logout(2), OK),
        (A, Step::GetSessionInfo(1), RW_PUBLIC),
        (A, Step::GetSessionInfo(2), RO_PUBLIC),
        (B, Step::GetSessionInfo(1), RW_SO),
    ];
    play_and_run(rt.alloc(), record_with(0, 0)?, ROWS)
}

#[test]
fn the_last_session_ends_the_login(rt: HostRuntime) -> Result<(), Fail> {
    const ROWS: &[Row] = &[
        (A, OPEN, Told::Session(1)),
        (A, LOGIN, OK),
        (A, OPEN, Told::Session(2)),
        (A, Step::CloseSession(1), OK),
        (A, Step::GetSessionInfo(2), RW_USER),
        (A, Step::CloseSession(2), OK),
        (A, OPEN, Told::Session(3)),
        (A, Step::GetSessionInfo(3), RW_PUBLIC),
        (A, Step::Logout(3), NOT_LOGGED_IN),
    ];
    play_and_run(rt.alloc(), record_with(0, 0)?, ROWS)
}
