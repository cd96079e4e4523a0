//! The faults, two at a time, that the calls of each table are given.

use crate::tests::given::*;
use ck_calls::Function;
use precede::Condition as Fault;
use precede::Condition::{
    LabelLength, NoSession, NoSlot, NobodyLoggedIn, NotSerial, NotSo, OtherUserLoggedIn, PinLength,
    PinLocked, PinNotSet, ReadOnlySessionOpen, SameUserLoggedIn, SessionLimit, SessionOpen,
    SessionReadOnly, SoLoggedIn, UnknownFlag, UnknownUserType,
};
use test_scripts::Step::{GetTokenInfo, InitPin, InitToken, Login, Logout, OpenSession, SetPin};
use test_scripts::given::*;
use test_scripts::{LeftOut, Row, Step, Told};

/// What the token starts from: a new store, one with both PINs, and one with both PINs locked.
#[derive(Clone, Copy)]
pub(super) enum Store {
    New,
    Set,
    Locked,
}

/// Two faults of a call: where the second holds alone and the call that returns its code, and what happens between that and the
/// call with both.
pub(super) struct Case {
    pub(super) first: Fault,
    pub(super) second: Fault,
    pub(super) store: Store,
    pub(super) before: &'static [Row],
    pub(super) alone: Step,
    pub(super) between: &'static [Row],
    pub(super) both: Step,
}

/// The sessions: one that may write, one that may not, and none.
const WRITES: u64 = 1;

const READS: u64 = 2;

const NOWHERE: u64 = 99;

/// Sessions of A and of another application.
const OPENED: Row = (A, OPEN, Told::Session(WRITES));

const OPENED_TO_READ: Row = (A, OPEN_READ_ONLY, Told::Session(READS));

const OPENED_BY_B: Row = (B, OPEN, Told::Session(1));

const LOGGED_IN: Row = (A, LOGIN, OK);

const SO_LOGGED_IN: Row = (A, LOGIN_SO, OK);

/// Each call, with the fault that stands right after a pending call, and with that fault.
pub(super) const SECONDS: &[(Fault, Step)] = &[
    (NoSlot, GetTokenInfo(1)),
    (NoSlot, InitToken(1, SO_PIN, NAME)),
    (NoSession, InitPin(NOWHERE, NEW_PIN)),
    (NoSession, SetPin(NOWHERE, USER_PIN, NEW_PIN)),
    (NoSlot, OpenSession(1, READ_WRITE)),
    (NoSession, Login(NOWHERE, USER, USER_PIN)),
    (NoSession, Logout(NOWHERE)),
];

/// Neighbours of the tables after the first two rows, and rows between which one can't hold.
pub(super) const CASES: &[Case] = &[
    Case {
        first: NoSlot,
        second: LabelLength,
        store: Store::New,
        before: &[],
        alone: InitToken(0, SO_PIN, SHORT_NAME),
        between: &[],
        both: InitToken(1, SO_PIN, SHORT_NAME),
    },
    Case {
        first: LabelLength,
        second: SessionOpen,
        store: Store::New,
        before: &[OPENED_BY_B],
        alone: InitToken(0, SO_PIN, NAME),
        between: &[],
        both: InitToken(0, SO_PIN, SHORT_NAME),
    },
    Case {
        first: SessionOpen,
        second: PinLength,
        store: Store::New,
        before: &[],
        alone: InitToken(0, SHORT_PIN, NAME),
        between: &[OPENED_BY_B],
        both: InitToken(0, SHORT_PIN, NAME),
    },
    Case {
        first: SessionOpen,
        second: PinLocked,
        store: Store::Locked,
        before: &[],
        alone: InitToken(0, SO_PIN, NAME),
        between: &[OPENED],
        both: InitToken(0, SO_PIN, NAME),
    },
    Case {
        first: NoSession,
        second: NotSo,
        store: Store::Set,
        before: &[OPENED],
        alone: InitPin(WRITES, NEW_PIN),
        between: &[],
        both: InitPin(NOWHERE, NEW_PIN),
    },
    Case {
        first: NotSo,
        second: PinLength,
        store: Store::Set,
        before: &[OPENED, SO_LOGGED_IN],
        alone: InitPin(WRITES, SHORT_PIN),
        between: &[(A, LOGOUT, OK), LOGGED_IN],
        both: InitPin(WRITES, SHORT_PIN),
    },
    Case {
        first: NoSession,
        second: PinNotSet,
        store: Store::New,
        before: &[OPENED],
        alone: SetPin(WRITES, USER_PIN, NEW_PIN),
        between: &[],
        both: SetPin(NOWHERE, USER_PIN, NEW_PIN),
    },
    Case {
        first: SessionReadOnly,
        second: PinNotSet,
        store: Store::New,
        before: &[OPENED, OPENED_TO_READ],
        alone: SetPin(WRITES, USER_PIN, NEW_PIN),
        between: &[],
        both: SetPin(READS, USER_PIN, NEW_PIN),
    },
    Case {
        first: SessionReadOnly,
        second: PinLength,
        store: Store::Set,
        before: &[OPENED, OPENED_TO_READ],
        alone: SetPin(WRITES, USER_PIN, SHORT_PIN),
        between: &[],
        both: SetPin(READS, USER_PIN, SHORT_PIN),
    },
    Case {
        first: PinNotSet,
        second: PinLength,
        store: Store::Set,
        before: &[OPENED],
        alone: SetPin(WRITES, USER_PIN, SHORT_PIN),
        between: &[
            (A, Step::CloseSession(WRITES), OK),
            (B, InitToken(0, SO_PIN, NAME), OK),
            (A, OPEN, Told::Session(WRITES + 1)),
        ],
        both: SetPin(WRITES + 1, USER_PIN, SHORT_PIN),
    },
    Case {
        first: PinLength,
        second: PinLocked,
        store: Store::Locked,
        before: &[OPENED],
        alone: SetPin(WRITES, USER_PIN, NEW_PIN),
        between: &[],
        both: SetPin(WRITES, USER_PIN, SHORT_PIN),
    },
    Case {
        first: NoSlot,
        second: NotSerial,
        store: Store::Set,
        before: &[],
        alone: OpenSession(0, 2),
        between: &[],
        both: OpenSession(1, 2),
    },
    Case {
        first: NotSerial,
        second: UnknownFlag,
        store: Store::Set,
        before: &[],
        alone: OpenSession(0, 5),
        between: &[],
        both: OpenSession(0, 1),
    },
    Case {
        first: UnknownFlag,
        second: SoLoggedIn,
        store: Store::Set,
        before: &[OPENED, SO_LOGGED_IN],
        alone: OPEN_READ_ONLY,
        between: &[],
        both: OpenSession(0, 5),
    },
    Case {
        first: SoLoggedIn,
        second: SessionLimit,
        store: Store::Set,
        before: &[OPENED, SO_LOGGED_IN],
        alone: OPEN,
        between: &[],
        both: OPEN_READ_ONLY,
    },
    Case {
        first: NoSession,
        second: UnknownUserType,
        store: Store::Set,
        before: &[OPENED],
        alone: Login(WRITES, CONTEXT, USER_PIN),
        between: &[],
        both: Login(NOWHERE, CONTEXT, USER_PIN),
    },
    Case {
        first: UnknownUserType,
        second: SameUserLoggedIn,
        store: Store::Set,
        before: &[OPENED, LOGGED_IN],
        alone: LOGIN,
        between: &[],
        both: Login(WRITES, CONTEXT, USER_PIN),
    },
    Case {
        first: OtherUserLoggedIn,
        second: ReadOnlySessionOpen,
        store: Store::Set,
        before: &[OPENED, OPENED_TO_READ],
        alone: LOGIN_SO,
        between: &[LOGGED_IN],
        both: LOGIN_SO,
    },
    Case {
        first: ReadOnlySessionOpen,
        second: PinNotSet,
        store: Store::New,
        before: &[OPENED],
        alone: LOGIN_SO,
        between: &[OPENED_TO_READ],
        both: LOGIN_SO,
    },
    Case {
        first: ReadOnlySessionOpen,
        second: PinLocked,
        store: Store::Locked,
        before: &[OPENED],
        alone: LOGIN_SO,
        between: &[OPENED_TO_READ],
        both: LOGIN_SO,
    },
    Case {
        first: NoSession,
        second: NobodyLoggedIn,
        store: Store::Set,
        before: &[OPENED],
        alone: Logout(WRITES),
        between: &[],
        both: Logout(NOWHERE),
    },
];

/// The neighbours that can't both hold.
pub(super) const LEFT_OUT: &[LeftOut] = &[
    // The length of a new PIN is tested where the token isn't initialised, the tries where it is.
    (Function::InitToken, PinLength, PinLocked),
    // Of a session that isn't there nothing else is known.
    (Function::SetPin, NoSession, SessionReadOnly),
    // Two aren't logged in at once.
    (Function::Login, SameUserLoggedIn, OtherUserLoggedIn),
    // A PIN that isn't set has no tries.
    (Function::Login, PinNotSet, PinLocked),
];
