//! Keys that only a trusted key wraps (PKCS #11 v3.1, 4.10): the SO alone makes a key trusted, and nobody removes the restriction.

use super::given::*;
use super::stored::{play_and_run, record_with};
use ck_types::{AttrType, Rv};
use std::test::*;
use test_scripts::Step::{CreateObject, SetAttributeValue, WrapKey};
use test_scripts::given::*;
use test_scripts::{Given, Row, Told};

const KEY_FOR_TRUSTED_KEYS: Given = &[
    (AttrType::Class, SECRET_KEY),
    (AttrType::KeyType, AES),
    (AttrType::Value, TEXT),
    (AttrType::Private, NO),
    (AttrType::Extractable, YES),
    (AttrType::WrapWithTrusted, YES),
];

/// A secret of 20 bytes, which no mechanism wraps, since that is no multiple of 8.
const SECRET_FOR_TRUSTED_KEYS: Given = &[
    (AttrType::Class, SECRET_KEY),
    (AttrType::KeyType, GENERIC_SECRET),
    (AttrType::Value, b"a secret of 20 bytes"),
    (AttrType::Private, NO),
    (AttrType::Extractable, YES),
    (AttrType::WrapWithTrusted, YES),
];

const TRUSTED: Given = &[(AttrType::Trusted, YES)];

const FOR_ALL_KEYS: Given = &[(AttrType::WrapWithTrusted, NO)];

const READ_ONLY_ATTRIBUTE: Told = Told::Code(Rv::AttributeReadOnly);

#[test]
fn a_trusted_key_wraps_what_no_other_does(rt: HostRuntime) -> Result<(), Fail> {
    const ROWS: &[Row] = &[
        (A, OPEN, Told::Session(1)),
        (A, CreateObject(1, WRAPPING_KEY), Told::Object(1)),
        (A, CreateObject(1, KEY_FOR_TRUSTED_KEYS), Told::Object(2)),
        (A, LOGIN, OK),
        (
            A,
            WrapKey(1, AES_KEY_WRAP, 1, 2, Some(24)),
            Told::Code(Rv::KeyNotWrappable),
        ),
        (A, SetAttributeValue(1, 1, TRUSTED), READ_ONLY_ATTRIBUTE),
        (
            A,
            SetAttributeValue(1, 2, FOR_ALL_KEYS),
            READ_ONLY_ATTRIBUTE,
        ),
        (A, LOGOUT, OK),
        (A, LOGIN_SO, OK),
        (A, SetAttributeValue(1, 1, TRUSTED), OK),
        (
            A,
            SetAttributeValue(1, 2, FOR_ALL_KEYS),
            READ_ONLY_ATTRIBUTE,
        ),
        (A, LOGOUT, OK),
        (A, LOGIN, OK),
        (
            A,
            WrapKey(1, AES_KEY_WRAP, 1, 2, Some(24)),
            Told::Data(WRAPPED),
        ),
    ];
    play_and_run(rt.alloc(), record_with(0, 0)?, ROWS)
}

#[test]
fn a_key_that_is_not_trusted_is_refused_before_a_length(rt: HostRuntime) -> Result<(), Fail> {
    const ROWS: &[Row] = &[
        (A, OPEN, Told::Session(1)),
        (A, CreateObject(1, WRAPPING_KEY), Told::Object(1)),
        (A, CreateObject(1, SECRET_FOR_TRUSTED_KEYS), Told::Object(2)),
        (A, LOGIN, OK),
        (
            A,
            WrapKey(1, AES_KEY_WRAP, 1, 2, Some(32)),
            Told::Code(Rv::KeyNotWrappable),
        ),
        (A, LOGOUT, OK),
        (A, LOGIN_SO, OK),
        (A, SetAttributeValue(1, 1, TRUSTED), OK),
        (
            A,
            WrapKey(1, AES_KEY_WRAP, 1, 2, Some(32)),
            Told::Code(Rv::KeySizeRange),
        ),
    ];
    play_and_run(rt.alloc(), record_with(0, 0)?, ROWS)
}
