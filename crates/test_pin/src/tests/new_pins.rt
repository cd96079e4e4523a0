//! C_SetPIN and C_InitPIN.

use super::given::*;
use super::stored::{bench_over, play_and_run, play_and_run_questions, record_with};
use ck_types::UserType;
use keep::Keep;
use pin_record::Record;
use std::alloc::Global;
use std::test::*;
use test_scripts::given::*;
use test_scripts::{Row, Step, Told};

const CHANGE: Step = Step::SetPin(1, USER_PIN, NEW_PIN);

const NEW_LOGIN: Step = Step::Login(1, USER, NEW_PIN);

#[test]
fn the_users_pin_is_changed_in_public(rt: HostRuntime) -> Result<(), Fail> {
    const ROWS: &[Row] = &[
        (A, OPEN, Told::Session(1)),
        (A, Step::SetPin(1, WRONG_PIN, NEW_PIN), WRONG),
        (ASKER, TOKEN_INFO, Told::TokenInfo(NAME, 0x1040d, 0, 0)),
        (A, Step::SetPin(1, SO_PIN, NEW_PIN), WRONG),
        (A, CHANGE, OK),
        (ASKER, TOKEN_INFO, Told::TokenInfo(NAME, 0x40d, 0, 0)),
        (A, LOGIN, WRONG),
        (A, NEW_LOGIN, OK),
        (A, LOGOUT, OK),
        (A, LOGIN_SO, OK),
    ];
    play_and_run(rt.alloc(), record_with(0, 0)?, ROWS)
}

#[test]
fn who_is_logged_in_changes_the_own_pin(rt: HostRuntime) -> Result<(), Fail> {
    const ROWS: &[Row] = &[
        (A, OPEN, Told::Session(1)),
        (A, LOGIN, OK),
        (A, Step::SetPin(1, SO_PIN, NEW_PIN), WRONG),
        (A, CHANGE, OK),
        (A, LOGOUT, OK),
        (A, LOGIN_SO, OK),
        (A, Step::SetPin(1, NEW_PIN, USER_PIN), WRONG),
        (ASKER, TOKEN_INFO, Told::TokenInfo(NAME, 0x10040d, 0, 0)),
        (A, Step::SetPin(1, SO_PIN, LONGEST_PIN), OK),
        (A, LOGOUT, OK),
        (A, LOGIN_SO, WRONG),
        (A, Step::Login(1, SO, LONGEST_PIN), OK),
        (A, LOGOUT, OK),
        (A, NEW_LOGIN, OK),
    ];
    play_and_run(rt.alloc(), record_with(0, 0)?, ROWS)
}

#[test]
fn a_change_is_refused_before_its_check(rt: HostRuntime) -> Result<(), Fail> {
    const ROWS: &[Row] = &[
        (A, OPEN, Told::Session(1)),
        (A, OPEN_READ_ONLY, Told::Session(2)),
        (A, Step::SetPin(2, USER_PIN, NEW_PIN), READ_ONLY_SESSION),
        (A, Step::SetPin(3, USER_PIN, NEW_PIN), NO_SESSION),
        (A, Step::SetPin(1, USER_PIN, SHORT_PIN), PIN_LENGTH),
        (A, Step::SetPin(1, USER_PIN, LONG_PIN), PIN_LENGTH),
        (ASKER, TOKEN_INFO, Told::TokenInfo(NAME, 0x40d, 0, 0)),
        (A, LOGIN, Told::Nothing),
        (A, Step::Finish, OK),
        (A, Step::SetPin(2, USER_PIN, NEW_PIN), READ_ONLY_SESSION),
        (A, Step::SetPin(1, USER_PIN, SHORTEST_PIN), Told::Nothing),
        (A, Step::Goes, Told::Nothing),
        (A, OPEN, Told::Session(1)),
        (A, Step::SetPin(1, USER_PIN, LONGEST_PIN), Told::Nothing),
        (A, Step::Goes, Told::Nothing),
        (ASKER, TOKEN_INFO, Told::TokenInfo(NAME, 0x1040d, 0, 0)),
    ];
    play_and_run_questions(rt.alloc(), record_with(0, 0)?, ROWS)
}

#[test]
fn the_so_alone_sets_the_users_pin(rt: HostRuntime) -> Result<(), Fail> {
    const ROWS: &[Row] = &[
        (A, OPEN, Told::Session(1)),
        (A, Step::InitPin(1, NEW_PIN), NOT_LOGGED_IN),
        (A, Step::InitPin(2, NEW_PIN), NO_SESSION),
        (A, LOGIN, OK),
        (A, Step::InitPin(1, NEW_PIN), NOT_LOGGED_IN),
        (A, LOGOUT, OK),
        (A, LOGIN_SO, OK),
        (A, Step::InitPin(1, SHORT_PIN), PIN_LENGTH),
        (A, Step::InitPin(1, LONG_PIN), PIN_LENGTH),
        (B, OPEN, Told::Session(1)),
        (B, Step::InitPin(1, NEW_PIN), NOT_LOGGED_IN),
        (A, Step::InitPin(1, NEW_PIN), OK),
        (B, LOGIN, WRONG),
        (B, NEW_LOGIN, OK),
    ];
    play_and_run(rt.alloc(), record_with(0, 0)?, ROWS)
}

/// What a bench gives as random bytes, and so the salt of a new verifier.
const SALT: &[u8; 16] = b"\x76\xb8\xe0\xad\xa0\xf1\x3d\x90\x40\x5d\x6a\xe5\x53\x86\xbd\x28";

/// The keys of `SO_PIN` and `NEW_PIN` by it and 20,000 rounds. They were computed by another program, Python's
/// `hashlib.pbkdf2_hmac`.
const SO_KEY: &[u8; 32] = b"\x50\x63\x18\x5e\x9c\xa7\xb4\x8f\x1f\xab\xa8\x73\xa8\xfc\x2c\x5d\
      \x1a\xfb\x4e\xab\xab\x45\x6d\x37\x96\x48\x13\x77\xc6\x3c\x49\xf6";

const NEW_KEY: &[u8; 32] = b"\xa3\xa6\xaf\x81\x44\xaf\x8d\xdf\x13\xe1\x95\x7c\x61\x23\x9e\x52\
      \xea\x87\x69\xff\xfe\x94\x34\x69\xe2\xf9\x9f\x92\x4b\xd5\xae\x44";

/// The record of a token that started with one, once it has taken the rows.
fn record_after(alloc: Global, record: Record, rows: &[Row]) -> Result<Record, Fail> {
    let mut bench = bench_over(alloc, record)?;
    bench.play(rows)?;
    Ok(bench.into_keep().get_record())
}

/// Whether the verifier of a PIN has 20,000 rounds, the salt, and this key.
fn is_new(record: &Record, who: UserType, key: &[u8; 32]) -> bool {
    match record.verifier(who) {
        Some(verifier) => {
            verifier.rounds() == 20_000 && verifier.salt() == SALT && verifier.key() == key
        }
        None => false,
    }
}

#[test]
fn the_sos_first_pin_has_20_000_rounds(rt: HostRuntime) -> Result<(), Fail> {
    const ROWS: &[Row] = &[(A, Step::InitToken(0, SO_PIN, NAME), OK)];
    let record = record_after(rt.alloc(), Record::new(), ROWS)?;
    let is_new = is_new(&record, UserType::So, SO_KEY);
    assert!(rt; is_new);
    Ok(())
}

/// A change by the user, one by the SO, and a PIN that the SO sets, each with the PIN that is new.
const CHANGES: &[(&[Row], UserType)] = &[
    (
        &[(A, OPEN, Told::Session(1)), (A, CHANGE, OK)],
        UserType::User,
    ),
    (
        &[
            (A, OPEN, Told::Session(1)),
            (A, LOGIN_SO, OK),
            (A, Step::SetPin(1, SO_PIN, NEW_PIN), OK),
        ],
        UserType::So,
    ),
    (
        &[
            (A, OPEN, Told::Session(1)),
            (A, LOGIN_SO, OK),
            (A, Step::InitPin(1, NEW_PIN), OK),
        ],
        UserType::User,
    ),
];

fn other_than(who: UserType) -> UserType {
    match who {
        UserType::So => UserType::User,
        UserType::User => UserType::So,
    }
}

/// Whether the rows give one PIN a new verifier and no tries, and leave the other one.
fn renews(alloc: Global, rows: &[Row], who: UserType) -> Result<bool, Fail> {
    let before = record_with(0, 0)?;
    let after = record_after(alloc, before, rows)?;
    let other = other_than(who);
    Ok(
        is_new(&after, who, NEW_KEY)
            && after.tries(who) == 0
            && after.verifier(other) == before.verifier(other),
    )
}

#[test]
fn a_new_pin_has_20_000_rounds(rt: HostRuntime) -> Result<(), Fail> {
    for (rows, who) in CHANGES {
        let renews = renews(rt.alloc(), rows, *who)?;
        assert!(rt; renews, "{who:?}");
    }
    Ok(())
}
