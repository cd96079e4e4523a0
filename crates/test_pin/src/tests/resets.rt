//! C_InitToken.

use super::given::*;
use super::stored::{bench_over, play_and_run, play_and_run_questions, record_with};
use ck_types::UserType;
use keep::Keep;
use pin_record::Record;
use std::alloc::Global;
use std::test::*;
use test_scripts::given::*;
use test_scripts::{Row, Step, Told};

const RESET: Step = Step::InitToken(0, SO_PIN, NEW_NAME);

/// B makes an object of the token, and closes its session.
const OPENED: Row = (B, OPEN, Told::Session(1));

const MADE: Row = (B, Step::CreateObject(1, TOKEN_DATA), Told::Object(1));

const CLOSED: Row = (B, Step::CloseSession(1), OK);

/// How many objects there are, and the SO's tries, once a token over a store has taken the rows.
fn left_by(alloc: Global, rows: &[Row]) -> Result<(usize, u8), Fail> {
    let mut bench = bench_over(alloc, record_with(3, 0)?)?;
    bench.play(rows)?;
    let mut keep = bench.into_keep();
    let count = keep.ids(alloc)?.len();
    Ok((count, keep.get_record().tries(UserType::So)))
}

/// A's reset begins with no session anywhere, and ends after B has opened one.
const INTERRUPTED: &[Row] = &[
    OPENED,
    MADE,
    CLOSED,
    (A, RESET, Told::Nothing),
    (B, OPEN, Told::Session(2)),
    (A, Step::Finish, SESSION_EXISTS),
    (ASKER, TOKEN_INFO, Told::TokenInfo(NAME, 0x40d, 0, 0)),
    (B, Step::GetObjectSize(2, 1), Told::ObjectSize(128)),
    (B, Step::CreateObject(2, TOKEN_DATA), Told::Object(2)),
    (B, Step::DestroyObject(2, 2), OK),
];

#[test]
fn a_session_that_was_opened_meanwhile_keeps_a_token(rt: HostRuntime) -> Result<(), Fail> {
    play_and_run_questions(rt.alloc(), record_with(3, 0)?, INTERRUPTED)?;
    assert_eq!(rt; left_by(rt.alloc(), INTERRUPTED)?, (1, 0));
    Ok(())
}

/// The same, and nobody opens a session.
const RESETS: &[Row] = &[
    OPENED,
    MADE,
    CLOSED,
    (A, RESET, Told::Nothing),
    (A, Step::Finish, OK),
    (A, TOKEN_INFO, Told::TokenInfo(NEW_NAME, 0x405, 0, 0)),
    (A, OPEN, Told::Session(1)),
    (A, LOGIN, PIN_NOT_SET),
    (A, LOGIN_SO, Told::Nothing),
    (A, Step::Finish, OK),
    (B, OPEN, Told::Session(2)),
    (B, Step::DestroyObject(2, 1), NO_OBJECT),
];

#[test]
fn a_reset_takes_the_objects_and_the_users_pin(rt: HostRuntime) -> Result<(), Fail> {
    play_and_run_questions(rt.alloc(), record_with(3, 0)?, RESETS)?;
    assert_eq!(rt; left_by(rt.alloc(), RESETS)?, (0, 0));
    Ok(())
}

#[test]
fn of_two_that_initialise_a_token_the_second_fails(rt: HostRuntime) -> Result<(), Fail> {
    const ROWS: &[Row] = &[
        (A, RESET, Told::Nothing),
        (B, Step::InitToken(0, NEW_PIN, NAME), Told::Nothing),
        (B, Step::Finish, OK),
        (A, Step::Finish, FAILED),
        (A, TOKEN_INFO, Told::TokenInfo(NAME, 0x405, 0, 0)),
        (A, OPEN, Told::Session(1)),
        (A, LOGIN_SO, Told::Nothing),
        (A, Step::Finish, WRONG),
        (A, Step::Login(1, SO, NEW_PIN), Told::Nothing),
        (A, Step::Finish, OK),
    ];
    play_and_run_questions(rt.alloc(), Record::new(), ROWS)
}

#[test]
fn a_session_keeps_a_new_store_from_its_first_pin(rt: HostRuntime) -> Result<(), Fail> {
    const ROWS: &[Row] = &[
        (A, RESET, Told::Nothing),
        (B, OPEN, Told::Session(1)),
        (A, Step::Finish, SESSION_EXISTS),
        (ASKER, TOKEN_INFO, Told::TokenInfo(BLANK, 0x5, 0, 0)),
        (A, RESET, SESSION_EXISTS),
        (B, RESET, SESSION_EXISTS),
    ];
    play_and_run_questions(rt.alloc(), Record::new(), ROWS)
}

#[test]
fn a_wrong_pin_resets_nothing_and_is_charged(rt: HostRuntime) -> Result<(), Fail> {
    const ROWS: &[Row] = &[
        (A, Step::InitToken(0, WRONG_PIN, NEW_NAME), WRONG),
        (A, TOKEN_INFO, Told::TokenInfo(NAME, 0x30040d, 0, 0)),
        (A, Step::InitToken(0, SHORT_PIN, NEW_NAME), WRONG),
        (A, TOKEN_INFO, Told::TokenInfo(NAME, 0x50040d, 0, 0)),
        (A, RESET, LOCKED),
    ];
    play_and_run(rt.alloc(), record_with(8, 0)?, ROWS)
}

#[test]
fn the_first_pin_of_the_so_has_4_to_64_bytes(rt: HostRuntime) -> Result<(), Fail> {
    const ROWS: &[Row] = &[
        (A, Step::InitToken(0, SHORT_PIN, NAME), PIN_LENGTH),
        (A, Step::InitToken(0, LONG_PIN, NAME), PIN_LENGTH),
        (A, Step::InitToken(0, SHORTEST_PIN, NAME), Told::Nothing),
        (B, Step::InitToken(0, LONGEST_PIN, NAME), Told::Nothing),
        (A, Step::Goes, Told::Nothing),
        (B, Step::Goes, Told::Nothing),
        (A, TOKEN_INFO, Told::TokenInfo(BLANK, 0x5, 0, 0)),
    ];
    play_and_run_questions(rt.alloc(), Record::new(), ROWS)
}
