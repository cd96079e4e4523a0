//! What the scripts of several chapters speak of: applications, PINs, labels, steps and codes.

use ck_types::{AttrType, Rv};
use test_scripts::given::*;
use test_scripts::{Given, Step, Told};

/// A third application, and one that only calls C_GetTokenInfo.
pub(super) const C: u64 = 3;

pub(super) const ASKER: u64 = 99;

/// The user types of the SO and of the user, and one that this token hasn't.
pub(super) const SO: u64 = 0;

pub(super) const USER: u64 = 1;

pub(super) const CONTEXT: u64 = 2;

pub(super) const SO_PIN: &[u8] = b"so-pin";

pub(super) const USER_PIN: &[u8] = b"user-pin";

pub(super) const WRONG_PIN: &[u8] = b"wrong-pin";

pub(super) const NEW_PIN: &[u8] = b"new-pin";

/// New PINs that are too short and too long, and the shortest and the longest.
pub(super) const SHORT_PIN: &[u8] = b"pin";

pub(super) const LONG_PIN: &[u8] =
    b"12345678901234567890123456789012345678901234567890123456789012345";

pub(super) const SHORTEST_PIN: &[u8] = b"pin.";

pub(super) const LONGEST_PIN: &[u8] =
    b"1234567890123456789012345678901234567890123456789012345678901234";

/// The label of a new store, that of the tokens of `stored`, and a label of 31 bytes.
pub(super) const BLANK: &[u8] = b"                                ";

pub(super) const NAME: &[u8] = b"the token of the tests          ";

pub(super) const NEW_NAME: &[u8] = b"the same token under a new label";

pub(super) const SHORT_NAME: &[u8] = b"the token of the tests         ";

pub(super) const TOKEN_INFO: Step = Step::GetTokenInfo(0);

pub(super) const LOGIN: Step = Step::Login(1, USER, USER_PIN);

pub(super) const WRONG_LOGIN: Step = Step::Login(1, USER, WRONG_PIN);

pub(super) const LOGIN_SO: Step = Step::Login(1, SO, SO_PIN);

pub(super) const WRONG_LOGIN_SO: Step = Step::Login(1, SO, WRONG_PIN);

pub(super) const LOGOUT: Step = Step::Logout(1);

pub(super) const PRIVATE_TOKEN_DATA: Given = &[
    (AttrType::Class, DATA),
    (AttrType::Token, YES),
    (AttrType::Private, YES),
];

/// A private AES key of a session.
pub(super) const PRIVATE_KEY: Given = &[
    (AttrType::Class, SECRET_KEY),
    (AttrType::KeyType, AES),
    (AttrType::Value, KEY_BYTES),
    (AttrType::Private, YES),
    (AttrType::Token, NO),
];

pub(super) const BAD_ARGUMENTS: Told = Told::Code(Rv::ArgumentsBad);

pub(super) const WRONG: Told = Told::Code(Rv::PinIncorrect);

pub(super) const PIN_LENGTH: Told = Told::Code(Rv::PinLenRange);

pub(super) const LOCKED: Told = Told::Code(Rv::PinLocked);

pub(super) const PIN_NOT_SET: Told = Told::Code(Rv::UserPinNotInitialized);

pub(super) const SESSION_EXISTS: Told = Told::Code(Rv::SessionExists);
