//! What C_GetTokenInfo returns of a token and its PINs.

use super::given::*;
use super::stored::{play_and_run, record_with};
use pin_record::Record;
use std::test::*;
use test_scripts::given::*;
use test_scripts::{Row, Step, Told};

#[test]
fn a_new_store_has_a_blank_token_without_pins(rt: HostRuntime) -> Result<(), Fail> {
    const ROWS: &[Row] = &[
        (A, TOKEN_INFO, Told::TokenInfo(BLANK, 0x5, 0, 0)),
        (A, Step::InitToken(0, SO_PIN, SHORT_NAME), BAD_ARGUMENTS),
        (A, OPEN, Told::Session(1)),
        (A, LOGIN, PIN_NOT_SET),
        (A, LOGIN_SO, PIN_NOT_SET),
        (A, TOKEN_INFO, Told::TokenInfo(BLANK, 0x5, 1, 1)),
    ];
    play_and_run(rt.alloc(), Record::new(), ROWS)
}

#[test]
fn both_pins_are_set_by_calls(rt: HostRuntime) -> Result<(), Fail> {
    const ROWS: &[Row] = &[
        (A, Step::InitToken(0, SO_PIN, NAME), OK),
        (A, TOKEN_INFO, Told::TokenInfo(NAME, 0x405, 0, 0)),
        (A, OPEN, Told::Session(1)),
        (A, LOGIN, PIN_NOT_SET),
        (A, LOGIN_SO, OK),
        (A, Step::InitPin(1, USER_PIN), OK),
        (A, LOGOUT, OK),
        (A, LOGIN, OK),
        (A, TOKEN_INFO, Told::TokenInfo(NAME, 0x40d, 1, 1)),
    ];
    play_and_run(rt.alloc(), Record::new(), ROWS)
}

#[test]
fn an_applications_own_sessions_are_counted(rt: HostRuntime) -> Result<(), Fail> {
    const ROWS: &[Row] = &[
        (A, OPEN, Told::Session(1)),
        (A, OPEN_READ_ONLY, Told::Session(2)),
        (A, OPEN_READ_ONLY, Told::Session(3)),
        (B, OPEN, Told::Session(1)),
        (A, TOKEN_INFO, Told::TokenInfo(NAME, 0x40d, 3, 1)),
        (B, TOKEN_INFO, Told::TokenInfo(NAME, 0x40d, 1, 1)),
        (ASKER, TOKEN_INFO, Told::TokenInfo(NAME, 0x40d, 0, 0)),
    ];
    play_and_run(rt.alloc(), record_with(0, 0)?, ROWS)
}

/// A wrong PIN of the user.
const MISS: Row = (A, WRONG_LOGIN, WRONG);

#[test]
fn the_users_tries_are_told_until_the_so_sets_a_pin(rt: HostRuntime) -> Result<(), Fail> {
    const ROWS: &[Row] = &[
        (ASKER, TOKEN_INFO, Told::TokenInfo(NAME, 0x40d, 0, 0)),
        (A, OPEN, Told::Session(1)),
        MISS,
        (ASKER, TOKEN_INFO, Told::TokenInfo(NAME, 0x1040d, 0, 0)),
        MISS,
        MISS,
        MISS,
        MISS,
        MISS,
        MISS,
        MISS,
        MISS,
        (ASKER, TOKEN_INFO, Told::TokenInfo(NAME, 0x3040d, 0, 0)),
        MISS,
        (ASKER, TOKEN_INFO, Told::TokenInfo(NAME, 0x5040d, 0, 0)),
        (A, WRONG_LOGIN, LOCKED),
        (A, LOGIN, LOCKED),
        (A, LOGIN_SO, OK),
        (A, Step::InitPin(1, NEW_PIN), OK),
        (ASKER, TOKEN_INFO, Told::TokenInfo(NAME, 0x40d, 0, 0)),
    ];
    play_and_run(rt.alloc(), record_with(0, 0)?, ROWS)
}

#[test]
fn the_sos_tries_are_told(rt: HostRuntime) -> Result<(), Fail> {
    const ROWS: &[Row] = &[
        (A, OPEN, Told::Session(1)),
        (ASKER, TOKEN_INFO, Told::TokenInfo(NAME, 0x10040d, 0, 0)),
        (A, WRONG_LOGIN_SO, WRONG),
        (ASKER, TOKEN_INFO, Told::TokenInfo(NAME, 0x30040d, 0, 0)),
        (A, WRONG_LOGIN_SO, WRONG),
        (ASKER, TOKEN_INFO, Told::TokenInfo(NAME, 0x50040d, 0, 0)),
        (A, LOGIN_SO, LOCKED),
    ];
    play_and_run(rt.alloc(), record_with(8, 0)?, ROWS)
}
