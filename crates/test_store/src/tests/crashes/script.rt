//! What applications do until the machine stops: each event is a row of its own. Then an event is refused, and A sees what it saw
//! before it.

use ck_calls::{Reply, SessionInfo};
use ck_types::{AttrType, Rv, SessionState};
use keep::Keep;
use std::alloc::Global;
use std::test::Fail;
use test_scripts::given::*;
use test_scripts::{BenchOver, Given, Row, Step, Told, reply_of};

const SO: u64 = 0;

const USER: u64 = 1;

const SO_PIN: &[u8] = b"so-pin";

const USER_PIN: &[u8] = b"user-pin";

const BLANK: &[u8] = b"                                ";

const NAME: &[u8] = b"the token of the tests          ";

const NEW_NAME: &[u8] = b"the same token under a new label";

/// The rows. A check of a PIN is charged where it begins.
pub(super) const ROWS: &[Row] = &[
    (A, Step::InitToken(0, SO_PIN, NAME), Told::Nothing),
    (A, Step::Finish, OK),
    (A, OPEN, Told::Session(1)),
    (A, Step::Login(1, SO, SO_PIN), Told::Nothing),
    (A, Step::Finish, OK),
    (A, Step::InitPin(1, USER_PIN), Told::Nothing),
    (A, Step::Finish, OK),
    (A, Step::Logout(1), OK),
    (A, Step::CreateObject(1, TOKEN_DATA), Told::Object(1)),
    (A, Step::CreateObject(1, TOKEN_KEY), Told::Object(2)),
    (A, Step::SetAttributeValue(1, 1, NEW_LABEL), OK),
    (A, Step::Login(1, USER, SO_PIN), Told::Nothing),
    (A, Step::Finish, Told::Code(Rv::PinIncorrect)),
    (A, Step::Login(1, USER, USER_PIN), Told::Nothing),
    (A, Step::Finish, OK),
    (A, Step::DestroyObject(1, 2), OK),
    (A, Step::CloseSession(1), OK),
    (A, Step::InitToken(0, SO_PIN, NEW_NAME), Told::Nothing),
    (A, Step::Finish, OK),
];

/// What C_GetSessionInfo returns of A's session.
const PUBLIC: Told = Told::SessionInfo(SessionInfo {
    slot: 0,
    state: SessionState::RwPublic,
    read_write: true,
});

const SO_IN: Told = Told::SessionInfo(SessionInfo {
    slot: 0,
    state: SessionState::RwSo,
    read_write: true,
});

const USER_IN: Told = Told::SessionInfo(SessionInfo {
    slot: 0,
    state: SessionState::RwUser,
    read_write: true,
});

/// What A has: none of the objects, the data object alone, both objects, and both once the first one has a label. An object
/// that can't be read may be refused.
const NO_OBJECTS: &[(u64, Told)] = &[(1, NO_OBJECT)];

const ONE_OBJECT: &[(u64, Told)] = &[(1, Told::ObjectSize(128)), (2, NO_OBJECT)];

const TWO_OBJECTS: &[(u64, Told)] = &[(1, Told::ObjectSize(128)), (2, Told::ObjectSize(309))];

const LABELLED: &[(u64, Told)] = &[(1, Told::ObjectSize(130)), (2, Told::ObjectSize(309))];

/// A row, what A's session, the token and A's objects are for A before it.
type View = (usize, Told, Told, &'static [(u64, Told)]);

/// The rows that write the store. The call that a result is of is over, and what its beginning charged stays.
pub(super) const VIEWS: &[View] = &[
    (1, NO_SESSION, Told::TokenInfo(BLANK, 0x5, 0, 0), &[]),
    (3, PUBLIC, Told::TokenInfo(NAME, 0x405, 1, 1), NO_OBJECTS),
    (
        4,
        PUBLIC,
        Told::TokenInfo(NAME, 0x10_0405, 1, 1),
        NO_OBJECTS,
    ),
    (6, SO_IN, Told::TokenInfo(NAME, 0x405, 1, 1), NO_OBJECTS),
    (8, PUBLIC, Told::TokenInfo(NAME, 0x40d, 1, 1), NO_OBJECTS),
    (9, PUBLIC, Told::TokenInfo(NAME, 0x40d, 1, 1), ONE_OBJECT),
    (10, PUBLIC, Told::TokenInfo(NAME, 0x40d, 1, 1), TWO_OBJECTS),
    (11, PUBLIC, Told::TokenInfo(NAME, 0x40d, 1, 1), LABELLED),
    (13, PUBLIC, Told::TokenInfo(NAME, 0x1_040d, 1, 1), LABELLED),
    (14, PUBLIC, Told::TokenInfo(NAME, 0x1_040d, 1, 1), LABELLED),
    (15, USER_IN, Told::TokenInfo(NAME, 0x40d, 1, 1), LABELLED),
    (17, NO_SESSION, Told::TokenInfo(NAME, 0x40d, 0, 0), &[]),
    (18, NO_SESSION, Told::TokenInfo(NAME, 0x10_040d, 0, 0), &[]),
];

/// A key of the token that is generated.
const GENERATED: Given = &[
    (AttrType::ValueLen, b"\x00\x00\x00\x00\x00\x00\x00\x10"),
    (AttrType::Private, NO),
    (AttrType::Token, YES),
];

const REFUSED: Told = Told::Code(Rv::DeviceError);

/// From which row up to which one a call can be made that writes the store: after a refusal there it is refused, too. Among them
/// is each kind of write: a reset, an object that is made, changed and destroyed, and a record.
const WRITES: &[(usize, usize, Row)] = &[
    (1, 1, (B, Step::InitToken(0, SO_PIN, NAME), REFUSED)),
    (17, 18, (B, Step::InitToken(0, SO_PIN, NAME), REFUSED)),
    (1, 18, (B, OPEN, Told::Session(1))),
    (1, 18, (B, Step::CreateObject(1, TOKEN_DATA), REFUSED)),
    (
        1,
        18,
        (B, Step::GenerateKey(1, AES_KEY_GEN, GENERATED), REFUSED),
    ),
    (3, 18, (B, Step::Login(1, SO, SO_PIN), REFUSED)),
    (9, 15, (A, Step::CopyObject(1, 1, NOTHING), REFUSED)),
    (
        9,
        15,
        (A, Step::SetAttributeValue(1, 1, NEW_LABEL), REFUSED),
    ),
    (9, 15, (A, Step::DestroyObject(1, 1), REFUSED)),
];

/// How many rows get what they have. A row that gets another reply gets CKR_DEVICE_ERROR. A's view is then as it was before, and
/// whatever writes the store is refused.
pub(super) fn told_as_wanted<K: Keep>(
    alloc: Global,
    bench: &mut BenchOver<K>,
) -> Result<usize, Fail> {
    for (number, (app, step, told)) in ROWS.iter().enumerate() {
        let got = bench.told(*app, *step)?;
        if !is_told(alloc, *told, &got)? {
            expect_device_error(number, got)?;
            expect_view(alloc, bench, number)?;
            expect_no_writes(bench, number)?;
            return Ok(number);
        }
        drop(got);
    }
    Ok(ROWS.len())
}

fn is_told(alloc: Global, told: Told, got: &Option<Reply>) -> Result<bool, Fail> {
    let wanted = reply_of(alloc, told)?;
    let is_told = *got == wanted;
    drop(wanted);
    Ok(is_told)
}

/// Sees what A sees where a row was refused.
fn expect_view<K: Keep>(
    alloc: Global,
    bench: &mut BenchOver<K>,
    number: usize,
) -> Result<(), Fail> {
    for (row, session, token, objects) in VIEWS {
        if *row == number {
            bench.expect(("refused", number), (A, Step::GetSessionInfo(1), *session))?;
            bench.expect(("refused", number), (A, Step::GetTokenInfo(0), *token))?;
            return expect_objects(alloc, bench, number, objects);
        }
    }
    Err("a row that writes nothing was refused".into())
}

/// Sees the sizes of A's objects. One that can't be read is refused.
fn expect_objects<K: Keep>(
    alloc: Global,
    bench: &mut BenchOver<K>,
    number: usize,
    objects: &[(u64, Told)],
) -> Result<(), Fail> {
    for (handle, told) in objects {
        let got = bench.told(A, Step::GetObjectSize(1, *handle))?;
        if is_told(alloc, *told, &got)? {
            drop(got);
        } else {
            expect_device_error(number, got)?;
        }
    }
    Ok(())
}

/// Sees that no call writes the store where a row was refused.
fn expect_no_writes<K: Keep>(bench: &mut BenchOver<K>, number: usize) -> Result<(), Fail> {
    for (from, to, row) in WRITES {
        if (*from..=*to).contains(&number) {
            bench.expect(("refused", number), *row)?;
        }
    }
    Ok(())
}

fn expect_device_error(number: usize, got: Option<Reply>) -> Result<(), Fail> {
    let seen = match &got {
        Some(Reply::Code(Rv::DeviceError)) => Ok(()),
        _ => Err(Fail::new(format_args!("row {number}: {got:?}"))),
    };
    drop(got);
    seen
}
