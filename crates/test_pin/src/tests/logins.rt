//! C_Login and C_Logout.

use super::given::*;
use super::stored::{play_and_run, record_with};
use ck_types::Rv;
use std::test::*;
use test_scripts::given::*;
use test_scripts::{Row, Step, Told};

#[test]
fn who_logs_in_is_told_what_keeps_it_out(rt: HostRuntime) -> Result<(), Fail> {
    const ROWS: &[Row] = &[
        (A, OPEN, Told::Session(1)),
        (
            A,
            Step::Login(1, CONTEXT, USER_PIN),
            Told::Code(Rv::UserTypeInvalid),
        ),
        (A, Step::Login(2, USER, USER_PIN), NO_SESSION),
        (A, LOGOUT, NOT_LOGGED_IN),
        (A, LOGIN, OK),
        (A, LOGIN, Told::Code(Rv::UserAlreadyLoggedIn)),
        (A, LOGIN_SO, Told::Code(Rv::UserAnotherAlreadyLoggedIn)),
        (A, LOGOUT, OK),
        (A, LOGOUT, NOT_LOGGED_IN),
        (A, LOGIN_SO, OK),
        (A, LOGIN_SO, Told::Code(Rv::UserAlreadyLoggedIn)),
        (A, LOGIN, Told::Code(Rv::UserAnotherAlreadyLoggedIn)),
        (ASKER, TOKEN_INFO, Told::TokenInfo(NAME, 0x40d, 0, 0)),
    ];
    play_and_run(rt.alloc(), record_with(0, 0)?, ROWS)
}

#[test]
fn a_pin_that_is_not_set_lets_nobody_in(rt: HostRuntime) -> Result<(), Fail> {
    const ROWS: &[Row] = &[
        (A, Step::InitToken(0, SO_PIN, NEW_NAME), OK),
        (A, OPEN, Told::Session(1)),
        (A, LOGIN, PIN_NOT_SET),
        (A, Step::Login(1, USER, b""), PIN_NOT_SET),
        (A, Step::SetPin(1, USER_PIN, NEW_PIN), PIN_NOT_SET),
        (A, TOKEN_INFO, Told::TokenInfo(NEW_NAME, 0x405, 1, 1)),
    ];
    play_and_run(rt.alloc(), record_with(0, 0)?, ROWS)
}

#[test]
fn a_wrong_pin_of_any_length_is_charged(rt: HostRuntime) -> Result<(), Fail> {
    const ROWS: &[Row] = &[
        (A, OPEN, Told::Session(1)),
        (A, Step::Login(1, USER, b""), WRONG),
        (A, Step::Login(1, USER, LONG_PIN), WRONG),
        (A, Step::Login(1, USER, SO_PIN), WRONG),
        (A, Step::Login(1, SO, USER_PIN), WRONG),
        (ASKER, TOKEN_INFO, Told::TokenInfo(NAME, 0x11040d, 0, 0)),
        (A, LOGIN, OK),
        (ASKER, TOKEN_INFO, Told::TokenInfo(NAME, 0x10040d, 0, 0)),
    ];
    play_and_run(rt.alloc(), record_with(0, 0)?, ROWS)
}
