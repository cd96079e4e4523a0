//! A result that is refused, since the keeper fails in its event: each call of a PIN that writes there, and C_UnwrapKey. The
//! pending call is over. What the call would have changed is as it was, but for the try that its beginning charged.

use super::failures::code_of;
use ck_calls::SessionInfo;
use ck_types::{AttrType, SessionState};
use keep::ListKeep;
use pin_record::Record;
use std::alloc::Global;
use std::test::*;
use test_keepers::{FailingKeep, Failure};
use test_scripts::given::*;
use test_scripts::{Given, Row, Step, Told, play_over, record_with, run_over, with_finishes};

/// An application that calls C_GetTokenInfo alone.
const ASKER: u64 = 99;

const TOKEN_INFO: Step = Step::GetTokenInfo(0);

const SO_PIN: &[u8] = b"so-pin";

const USER_PIN: &[u8] = b"user-pin";

const NEW_PIN: &[u8] = b"new-pin";

/// The labels of a new store, of a token with PINs, and of one that is initialized anew.
const BLANK: &[u8] = b"                                ";

const NAME: &[u8] = b"the token of the tests          ";

const NEW_NAME: &[u8] = b"the same token under a new label";

const LOGIN: Step = Step::Login(1, 1, USER_PIN);

const LOGIN_SO: Step = Step::Login(1, 0, SO_PIN);

/// C_InitToken with a new label.
const RESET: Step = Step::InitToken(0, SO_PIN, NEW_NAME);

const LOGOUT: Row = (A, Step::Logout(1), OK);

const OPENS: Row = (A, OPEN, Told::Session(1));

/// What C_GetSessionInfo returns of A's session.
const PUBLIC: Told = Told::SessionInfo(SessionInfo {
    slot: 0,
    state: SessionState::RwPublic,
    read_write: true,
});

const USER_IN: Told = Told::SessionInfo(SessionInfo {
    slot: 0,
    state: SessionState::RwUser,
    read_write: true,
});

const SO_IN: Told = Told::SessionInfo(SessionInfo {
    slot: 0,
    state: SessionState::RwSo,
    read_write: true,
});

/// A key of the token that is unwrapped.
const UNWRAPPED: Given = &[
    (AttrType::KeyType, AES),
    (AttrType::Private, NO),
    (AttrType::Token, YES),
];

const UNWRAP: Step = Step::UnwrapKey(1, AES_KEY_WRAP, 1, WRAPPED, UNWRAPPED);

/// A call that returns a job, in its place.
#[derive(Clone, Copy)]
struct Case {
    /// Both PINs are set before.
    has_pins: bool,
    before: &'static [Row],
    step: Step,
    /// Which call of the keeper, of those that may fail, is the one of the result. The token's making is one, and so is each
    /// charge and each change.
    call: u64,
    after: &'static [Row],
}

/// The rows of a case, in which the result is refused.
fn rows_of(alloc: Global, case: &Case, failure: Failure) -> Result<Vec<Row>, Fail> {
    let mut rows = Vec::from_slice(alloc, case.before)?;
    rows.push((A, case.step, Told::Nothing))?;
    rows.push((A, Step::Finish, Told::Code(code_of(failure))))?;
    rows.extend_from_slice(case.after)?;
    Ok(rows)
}

/// A keeper in memory that fails once, in the event of the case's result.
fn keeper_of(alloc: Global, case: &Case, failure: Failure) -> Result<FailingKeep<ListKeep>, Fail> {
    let record = if case.has_pins {
        record_with(0, 0)?
    } else {
        Record::new()
    };
    Ok(FailingKeep::new(ListKeep::new(alloc, record), case.call, failure))
}

/// Sees that the case goes so: by calls one after the other where the device fails, and in one list of events where memory does.
fn expect_refused(alloc: Global, case: &Case) -> Result<(), Fail> {
    let rows = rows_of(alloc, case, Failure::Device)?;
    drop(play_over(alloc, keeper_of(alloc, case, Failure::Device)?, &rows)?);
    let rows = with_finishes(alloc, &rows_of(alloc, case, Failure::Memory)?)?;
    run_over(alloc, keeper_of(alloc, case, Failure::Memory)?, &rows)
}

#[test]
fn nobody_is_logged_in_by_a_refused_result(rt: HostRuntime) -> Result<(), Fail> {
    const CASE: Case = Case {
        has_pins: true,
        before: &[OPENS],
        step: LOGIN,
        call: 3,
        after: &[
            (A, Step::GetSessionInfo(1), PUBLIC),
            (ASKER, TOKEN_INFO, Told::TokenInfo(NAME, 0x1040d, 0, 0)),
            (A, LOGIN, OK),
            (ASKER, TOKEN_INFO, Told::TokenInfo(NAME, 0x40d, 0, 0)),
        ],
    };
    expect_refused(rt.alloc(), &CASE)
}

#[test]
fn a_pin_stays_where_a_new_one_is_refused(rt: HostRuntime) -> Result<(), Fail> {
    const CASE: Case = Case {
        has_pins: true,
        before: &[OPENS, (A, LOGIN, OK)],
        step: Step::SetPin(1, USER_PIN, NEW_PIN),
        call: 5,
        after: &[
            (A, Step::GetSessionInfo(1), USER_IN),
            (ASKER, TOKEN_INFO, Told::TokenInfo(NAME, 0x1040d, 0, 0)),
            LOGOUT,
            (A, LOGIN, OK),
            (ASKER, TOKEN_INFO, Told::TokenInfo(NAME, 0x40d, 0, 0)),
        ],
    };
    expect_refused(rt.alloc(), &CASE)
}

#[test]
fn a_pin_stays_where_the_so_is_refused_a_new_one(rt: HostRuntime) -> Result<(), Fail> {
    const CASE: Case = Case {
        has_pins: true,
        before: &[OPENS, (A, LOGIN_SO, OK)],
        step: Step::InitPin(1, NEW_PIN),
        call: 4,
        after: &[
            (A, Step::GetSessionInfo(1), SO_IN),
            (ASKER, TOKEN_INFO, Told::TokenInfo(NAME, 0x40d, 0, 0)),
            LOGOUT,
            (A, LOGIN, OK),
        ],
    };
    expect_refused(rt.alloc(), &CASE)
}

#[test]
fn a_token_stays_where_its_reset_is_refused(rt: HostRuntime) -> Result<(), Fail> {
    const CASE: Case = Case {
        has_pins: true,
        before: &[
            OPENS,
            (A, Step::CreateObject(1, TOKEN_DATA), Told::Object(1)),
            (A, Step::CloseSession(1), OK),
        ],
        step: RESET,
        call: 4,
        after: &[
            (ASKER, TOKEN_INFO, Told::TokenInfo(NAME, 0x10040d, 0, 0)),
            (A, OPEN, Told::Session(2)),
            (A, Step::GetObjectSize(2, 1), Told::ObjectSize(128)),
            (A, Step::Login(2, 1, USER_PIN), OK),
        ],
    };
    expect_refused(rt.alloc(), &CASE)
}

#[test]
fn a_new_store_stays_one_where_its_reset_is_refused(rt: HostRuntime) -> Result<(), Fail> {
    const CASE: Case = Case {
        has_pins: false,
        before: &[],
        step: RESET,
        call: 2,
        after: &[
            (ASKER, TOKEN_INFO, Told::TokenInfo(BLANK, 0x5, 0, 0)),
            (A, RESET, OK),
            (ASKER, TOKEN_INFO, Told::TokenInfo(NEW_NAME, 0x405, 0, 0)),
        ],
    };
    expect_refused(rt.alloc(), &CASE)
}

#[test]
fn no_key_is_unwrapped_by_a_refused_result(rt: HostRuntime) -> Result<(), Fail> {
    const CASE: Case = Case {
        has_pins: false,
        before: &[
            OPENS,
            (A, Step::CreateObject(1, WRAPPING_KEY), Told::Object(1)),
        ],
        step: UNWRAP,
        call: 2,
        after: &[
            (A, Step::FindObjectsInit(1, ON_TOKEN), OK),
            (A, Step::FindObjects(1, 9), Told::Objects(&[])),
            (A, Step::FindObjectsFinal(1), OK),
            (A, UNWRAP, Told::Object(2)),
        ],
    };
    expect_refused(rt.alloc(), &CASE)
}
