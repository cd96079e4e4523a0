//! Objects of the token: what is returned of them, what is refused, and what one application makes of another's.

use super::keys::*;
use crate::given::*;
use crate::steps::Step::{
    CloseSession, CopyObject, CreateObject, DestroyObject, Encrypt, EncryptInit, FindObjects,
    FindObjectsFinal, FindObjectsInit, Finish, GetAttributeValue, GetObjectSize, GetSessionInfo,
    SetAttributeValue,
};
use crate::steps::{Asked, Given, Row, Told, Values};
use ck_types::{AttrType, Rv};

const ASKED: Asked = &[
    (LABEL, Some(64)),
    (VALUE, Some(64)),
    (0x9999_9999, Some(64)),
];

const HIDDEN: Values = &[
    (2, Some(b"k1")),
    (0xffff_ffff_ffff_ffff, None),
    (0xffff_ffff_ffff_ffff, None),
];

/// What one searches for by values.
const OF_KEY: Given = &[(AttrType::Value, KEY_BYTES)];

const OF_TEXT: Given = &[(AttrType::Value, TEXT)];

const OTHER_LABEL: Given = &[(AttrType::Label, b"k2")];

const HIDDEN_VALUES: &[Row] = &[
    (A, OPEN, Told::Session(1)),
    (A, CreateObject(1, LABELLED), Told::Object(1)),
    (A, CreateObject(1, EXTRACTABLE), Told::Object(2)),
    (
        A,
        GetAttributeValue(1, 1, ASKED),
        Told::AttributeValues(Rv::AttributeSensitive, HIDDEN),
    ),
    (A, FindObjectsInit(1, OF_KEY), OK),
    (A, FindObjects(1, 9), Told::Objects(&[])),
    (A, FindObjectsFinal(1), OK),
    (A, FindObjectsInit(1, OF_TEXT), OK),
    (A, FindObjects(1, 9), Told::Objects(&[2])),
    (A, FindObjectsFinal(1), OK),
    (A, SetAttributeValue(1, 1, OTHER_LABEL), OK),
    (
        A,
        GetAttributeValue(1, 1, &[(LABEL, Some(64))]),
        Told::AttributeValues(Rv::Ok, &[(2, Some(b"k2"))]),
    ),
];

/// What makes no object, each of the token.
const EXTRACTED: Given = &[(AttrType::Extractable, YES)];

const SHOWN: Given = &[(AttrType::Sensitive, NO)];

const NO_VALUE: Given = &[
    (AttrType::Class, SECRET_KEY),
    (AttrType::KeyType, AES),
    (AttrType::Token, YES),
    (AttrType::Private, NO),
];

const WITH_LENGTH: Given = &[
    (AttrType::Class, SECRET_KEY),
    (AttrType::KeyType, AES),
    (AttrType::Token, YES),
    (AttrType::Private, NO),
    (AttrType::Value, KEY_BYTES),
    (AttrType::ValueLen, b"\x00\x00\x00\x00\x00\x00\x00\x10"),
];

const OF_17_BYTES: Given = &[
    (AttrType::Class, SECRET_KEY),
    (AttrType::KeyType, AES),
    (AttrType::Token, YES),
    (AttrType::Private, NO),
    (AttrType::Value, &[7; 17]),
];

const PRIVATE_KEY: Given = &[
    (AttrType::Class, SECRET_KEY),
    (AttrType::KeyType, AES),
    (AttrType::Token, YES),
    (AttrType::Private, YES),
    (AttrType::Value, KEY_BYTES),
];

const READ_ONLY_ATTRIBUTE: Told = Told::Code(Rv::AttributeReadOnly);

const REFUSED_OBJECTS: &[Row] = &[
    (A, OPEN, Told::Session(1)),
    (A, OPEN_READ_ONLY, Told::Session(2)),
    (A, CreateObject(1, LABELLED), Told::Object(1)),
    (A, CopyObject(1, 1, EXTRACTED), READ_ONLY_ATTRIBUTE),
    (A, SetAttributeValue(1, 1, SHOWN), READ_ONLY_ATTRIBUTE),
    (
        A,
        CreateObject(1, NO_VALUE),
        Told::Code(Rv::TemplateIncomplete),
    ),
    (
        A,
        CreateObject(1, WITH_LENGTH),
        Told::Code(Rv::TemplateInconsistent),
    ),
    (
        A,
        CreateObject(1, OF_17_BYTES),
        Told::Code(Rv::AttributeValueInvalid),
    ),
    (A, CreateObject(1, PRIVATE_KEY), NOT_LOGGED_IN),
    (A, CreateObject(2, TOKEN_DATA), READ_ONLY_SESSION),
    (
        A,
        GetAttributeValue(1, 1, ASKED),
        Told::AttributeValues(Rv::AttributeSensitive, HIDDEN),
    ),
    (A, FindObjectsInit(1, NOTHING), OK),
    (A, FindObjects(1, 9), Told::Objects(&[1])),
];

const OUTLIVED_KEY: &[Row] = &[
    (A, OPEN, Told::Session(1)),
    (B, OPEN, Told::Session(1)),
    (A, CreateObject(1, TOKEN_KEY), Told::Object(1)),
    (A, EncryptInit(1, ECB, 1), OK),
    (B, FindObjectsInit(1, NOTHING), OK),
    (B, FindObjects(1, 9), Told::Objects(&[1])),
    (B, DestroyObject(1, 1), OK),
    (A, Encrypt(1, TEXT, Some(16)), Told::Nothing),
    (A, Finish, CIPHERTEXT),
    (A, GetObjectSize(1, 1), NO_OBJECT),
];

const CLOSED_SESSION: &[Row] = &[
    (A, OPEN, Told::Session(1)),
    (A, CloseSession(1), OK),
    (A, OPEN, Told::Session(2)),
    (A, GetSessionInfo(1), NO_SESSION),
    (A, CreateObject(1, TOKEN_DATA), NO_SESSION),
    (A, CreateObject(2, TOKEN_DATA), Told::Object(1)),
];

/// The value of a sensitive key, read and searched for.
pub(super) fn hidden_values() -> &'static [Row] {
    HIDDEN_VALUES
}

/// Objects that are refused, copied, changed and made.
pub(super) fn refused_objects() -> &'static [Row] {
    REFUSED_OBJECTS
}

/// An operation whose key another application destroys. Its job has a row of its own.
pub(super) fn outlived_key() -> &'static [Row] {
    OUTLIVED_KEY
}

/// A session that is closed, and the next one.
pub(super) fn closed_session() -> &'static [Row] {
    CLOSED_SESSION
}
