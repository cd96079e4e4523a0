//! Checks of a PIN beside one another.

use super::given::*;
use super::stored::{bench_over, play_and_run_questions, record_with};
use ck_types::UserType;
use keep::Keep;
use std::alloc::Global;
use std::test::*;
use test_scripts::given::*;
use test_scripts::{Row, Step, Told};

const A_OPENS: Row = (A, OPEN, Told::Session(1));

const B_OPENS: Row = (B, OPEN, Told::Session(1));

const B_LOGS_IN: Row = (B, LOGIN, OK);

/// A wrong PIN of the user.
const BEGIN: Row = (A, WRONG_LOGIN, Told::Nothing);

const MISS: Row = (A, Step::Finish, WRONG);

#[test]
fn the_last_try_is_one_applications(rt: HostRuntime) -> Result<(), Fail> {
    const ROWS: &[Row] = &[
        A_OPENS,
        B_OPENS,
        BEGIN,
        MISS,
        BEGIN,
        MISS,
        BEGIN,
        MISS,
        BEGIN,
        MISS,
        BEGIN,
        MISS,
        BEGIN,
        MISS,
        BEGIN,
        MISS,
        BEGIN,
        MISS,
        BEGIN,
        MISS,
        (ASKER, TOKEN_INFO, Told::TokenInfo(NAME, 0x3040d, 0, 0)),
        (A, LOGIN, Told::Nothing),
        (B, LOGIN, LOCKED),
        (ASKER, TOKEN_INFO, Told::TokenInfo(NAME, 0x5040d, 0, 0)),
        (A, Step::Finish, OK),
        (ASKER, TOKEN_INFO, Told::TokenInfo(NAME, 0x40d, 0, 0)),
        (B, LOGIN, Told::Nothing),
        (B, Step::Finish, OK),
        (ASKER, TOKEN_INFO, Told::TokenInfo(NAME, 0x40d, 0, 0)),
    ];
    play_and_run_questions(rt.alloc(), record_with(0, 0)?, ROWS)
}

#[test]
fn a_busy_application_is_told_that_its_call_failed(rt: HostRuntime) -> Result<(), Fail> {
    const ROWS: &[Row] = &[
        A_OPENS,
        B_OPENS,
        (A, LOGIN, Told::Nothing),
        (A, LOGIN, FAILED),
        (A, LOGOUT, FAILED),
        (A, TOKEN_INFO, FAILED),
        (B, Step::CloseSession(1), OK),
        (A, Step::Finish, OK),
        (A, LOGOUT, OK),
    ];
    play_and_run_questions(rt.alloc(), record_with(0, 0)?, ROWS)
}

/// The user's tries, once a token over a store with two has taken the rows.
fn tries_after(alloc: Global, rows: &[Row]) -> Result<u8, Fail> {
    let mut bench = bench_over(alloc, record_with(0, 2)?)?;
    bench.play(rows)?;
    Ok(bench.into_keep().get_record().tries(UserType::User))
}

/// What A, with a wrong PIN, and B do, and the user's tries afterwards, where they were two before.
const LEFT: &[(&[Row], u8)] = &[
    (&[A_OPENS, B_OPENS, BEGIN], 3),
    (&[A_OPENS, B_OPENS, BEGIN, B_LOGS_IN], 1),
    (
        &[
            A_OPENS,
            B_OPENS,
            BEGIN,
            (B, Step::SetPin(1, USER_PIN, NEW_PIN), OK),
        ],
        1,
    ),
    (
        &[
            A_OPENS,
            B_OPENS,
            BEGIN,
            (B, LOGIN_SO, OK),
            (B, Step::InitPin(1, NEW_PIN), OK),
        ],
        1,
    ),
    (
        &[
            A_OPENS,
            B_OPENS,
            BEGIN,
            B_LOGS_IN,
            MISS,
            (B, LOGOUT, OK),
            B_LOGS_IN,
        ],
        0,
    ),
];

#[test]
fn a_right_pin_leaves_the_checks_under_way_as_tries(rt: HostRuntime) -> Result<(), Fail> {
    for (rows, tries) in LEFT {
        assert_eq!(rt; tries_after(rt.alloc(), rows)?, *tries);
    }
    Ok(())
}

#[test]
fn a_pin_that_was_right_when_its_check_began_logs_in(rt: HostRuntime) -> Result<(), Fail> {
    const ROWS: &[Row] = &[
        A_OPENS,
        B_OPENS,
        (A, LOGIN, Told::Nothing),
        (B, Step::SetPin(1, USER_PIN, NEW_PIN), Told::Nothing),
        (B, Step::Finish, OK),
        (ASKER, TOKEN_INFO, Told::TokenInfo(NAME, 0x1040d, 0, 0)),
        (A, Step::Finish, OK),
        (ASKER, TOKEN_INFO, Told::TokenInfo(NAME, 0x40d, 0, 0)),
    ];
    play_and_run_questions(rt.alloc(), record_with(0, 0)?, ROWS)
}
