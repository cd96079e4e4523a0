//! Keys that are wrapped and unwrapped (PKCS #11 v3.1, 5.18): the vector of RFC 3394, 4.1, what may be wrapped, and what is read of
//! an unwrapped key.

use super::given::*;
use ck_types::{AttrType, Rv};
use std::process::Abort;
use std::test::*;
use test_scripts::Step::{
    CreateObject, FindObjects, FindObjectsFinal, FindObjectsInit, GetAttributeValue, UnwrapKey,
    WrapKey,
};
use test_scripts::given::*;
use test_scripts::{Asked, Given, Row, Told, play_and_run};

/// Keys that are not wrapped, or not by each key.
const UNEXTRACTABLE_KEY: Given = &[
    (AttrType::Class, SECRET_KEY),
    (AttrType::KeyType, AES),
    (AttrType::Value, TEXT),
    (AttrType::Private, NO),
    (AttrType::WrapWithTrusted, YES),
];

const KEY_FOR_TRUSTED_KEYS: Given = &[
    (AttrType::Class, SECRET_KEY),
    (AttrType::KeyType, AES),
    (AttrType::Value, TEXT),
    (AttrType::Private, NO),
    (AttrType::Extractable, YES),
    (AttrType::WrapWithTrusted, YES),
];

const SHORT_SECRET: Given = &[
    (AttrType::Class, SECRET_KEY),
    (AttrType::KeyType, GENERIC_SECRET),
    (AttrType::Value, b"a short one"),
    (AttrType::Private, NO),
    (AttrType::Extractable, YES),
];

const BEFORE: &[Row] = &[
    (A, OPEN, Told::Session(1)),
    (A, CreateObject(1, WRAPPING_KEY), Told::Object(1)),
    (A, CreateObject(1, EXTRACTABLE_KEY), Told::Object(2)),
    (A, CreateObject(1, UNEXTRACTABLE_KEY), Told::Object(3)),
    (A, CreateObject(1, KEY_FOR_TRUSTED_KEYS), Told::Object(4)),
    (A, CreateObject(1, SHORT_SECRET), Told::Object(5)),
];

/// The wrapping of the vector with its last bit flipped, and without its last byte.
const OTHER: &[u8] =
    b"\x1f\xa6\x8b\x0a\x81\x12\xb4\x47\xae\xf3\x4b\xd8\xfb\x5a\x7b\x82\x9d\x3e\x86\x23\x71\xd2\xcf\xe4";

const SHORTER: &[u8] =
    b"\x1f\xa6\x8b\x0a\x81\x12\xb4\x47\xae\xf3\x4b\xd8\xfb\x5a\x7b\x82\x9d\x3e\x86\x23\x71\xd2\xcf";

#[test]
fn a_key_is_wrapped_where_it_may_be(rt: HostRuntime) -> Result<(), Fail> {
    const ROWS: &[Row] = &[
        (A, WrapKey(1, AES_KEY_WRAP, 1, 2, None), Told::Length(24)),
        (
            A,
            WrapKey(1, AES_KEY_WRAP, 1, 2, Some(23)),
            Told::BufferTooSmall(24),
        ),
        (
            A,
            WrapKey(1, AES_KEY_WRAP, 1, 2, Some(24)),
            Told::Data(WRAPPED),
        ),
        (
            A,
            WrapKey(1, (0x1081, b""), 1, 2, Some(24)),
            Told::Code(Rv::MechanismInvalid),
        ),
        (
            A,
            WrapKey(1, (0x2109, b"x"), 1, 2, Some(24)),
            Told::Code(Rv::MechanismParamInvalid),
        ),
        (
            A,
            WrapKey(1, AES_KEY_WRAP, 9, 9, Some(24)),
            Told::Code(Rv::WrappingKeyHandleInvalid),
        ),
        (A, WrapKey(1, AES_KEY_WRAP, 5, 9, Some(24)), NO_KEY),
        (
            A,
            WrapKey(1, AES_KEY_WRAP, 5, 2, Some(24)),
            Told::Code(Rv::WrappingKeyTypeInconsistent),
        ),
        (
            A,
            WrapKey(1, AES_KEY_WRAP, 2, 3, Some(24)),
            Told::Code(Rv::KeyFunctionNotPermitted),
        ),
        (
            A,
            WrapKey(1, AES_KEY_WRAP, 1, 3, None),
            Told::Code(Rv::KeyUnextractable),
        ),
        (
            A,
            WrapKey(1, AES_KEY_WRAP, 1, 4, None),
            Told::Code(Rv::KeyNotWrappable),
        ),
        (
            A,
            WrapKey(1, AES_KEY_WRAP, 1, 5, None),
            Told::Code(Rv::KeySizeRange),
        ),
    ];
    play_and_run(rt.alloc(), BEFORE, ROWS)
}

/// Templates of unwrapped keys: one that hides its value, one that shows it, one that gives its length, and another length.
const HIDDEN: Given = &[(AttrType::KeyType, AES), (AttrType::Private, NO)];

const SHOWN: Given = &[
    (AttrType::KeyType, AES),
    (AttrType::Private, NO),
    (AttrType::Sensitive, NO),
    (AttrType::Token, YES),
];

const SIXTEEN: Given = &[
    (AttrType::KeyType, AES),
    (AttrType::Private, NO),
    (AttrType::ValueLen, b"\x00\x00\x00\x00\x00\x00\x00\x10"),
];

const TWENTY_FOUR: Given = &[
    (AttrType::KeyType, AES),
    (AttrType::Private, NO),
    (AttrType::ValueLen, b"\x00\x00\x00\x00\x00\x00\x00\x18"),
];

const PRIVATE_KEY: Given = &[(AttrType::KeyType, AES)];

const NOTHING_SAID: Given = &[];

/// What is read of an unwrapped key: its value and the value's length.
const ASKED: Asked = &[(VALUE, Some(64)), (VALUE_LEN, Some(8))];

#[test]
fn an_unwrapped_key_tells_no_more_than_its_template_lets_it(rt: HostRuntime) -> Result<(), Fail> {
    const LEN: &[u8] = b"\x00\x00\x00\x00\x00\x00\x00\x10";
    const ROWS: &[Row] = &[
        (
            A,
            UnwrapKey(1, AES_KEY_WRAP, 1, WRAPPED, HIDDEN),
            Told::Object(6),
        ),
        (
            A,
            GetAttributeValue(1, 6, ASKED),
            Told::AttributeValues(
                Rv::AttributeSensitive,
                &[(0xffff_ffff_ffff_ffff, None), (8, Some(LEN))],
            ),
        ),
        (
            A,
            UnwrapKey(1, AES_KEY_WRAP, 1, WRAPPED, SHOWN),
            Told::Object(7),
        ),
        (
            A,
            GetAttributeValue(1, 7, ASKED),
            Told::AttributeValues(Rv::Ok, &[(16, Some(TEXT)), (8, Some(LEN))]),
        ),
        (
            A,
            UnwrapKey(1, AES_KEY_WRAP, 1, WRAPPED, SIXTEEN),
            Told::Object(8),
        ),
    ];
    play_and_run(rt.alloc(), BEFORE, ROWS)
}

#[test]
fn what_is_no_key_is_not_unwrapped(rt: HostRuntime) -> Result<(), Fail> {
    const LENGTH: Told = Told::Code(Rv::WrappedKeyLenRange);
    const ROWS: &[Row] = &[
        (
            A,
            UnwrapKey(1, (0x1081, b""), 1, WRAPPED, HIDDEN),
            Told::Code(Rv::MechanismInvalid),
        ),
        (
            A,
            UnwrapKey(1, (0x2109, b"x"), 1, WRAPPED, HIDDEN),
            Told::Code(Rv::MechanismParamInvalid),
        ),
        (
            A,
            UnwrapKey(1, AES_KEY_WRAP, 9, WRAPPED, HIDDEN),
            Told::Code(Rv::UnwrappingKeyHandleInvalid),
        ),
        (
            A,
            UnwrapKey(1, AES_KEY_WRAP, 5, WRAPPED, HIDDEN),
            Told::Code(Rv::UnwrappingKeyTypeInconsistent),
        ),
        (
            A,
            UnwrapKey(1, AES_KEY_WRAP, 2, SHORTER, HIDDEN),
            Told::Code(Rv::KeyFunctionNotPermitted),
        ),
        (
            A,
            UnwrapKey(1, AES_KEY_WRAP, 1, SHORTER, NOTHING_SAID),
            LENGTH,
        ),
        (
            A,
            UnwrapKey(1, AES_KEY_WRAP, 1, WRAPPED, NOTHING_SAID),
            Told::Code(Rv::TemplateIncomplete),
        ),
        (
            A,
            UnwrapKey(1, AES_KEY_WRAP, 1, WRAPPED, TWENTY_FOUR),
            Told::Code(Rv::TemplateInconsistent),
        ),
        (
            A,
            UnwrapKey(1, AES_KEY_WRAP, 1, WRAPPED, PRIVATE_KEY),
            NOT_LOGGED_IN,
        ),
        (
            A,
            UnwrapKey(1, AES_KEY_WRAP, 1, OTHER, HIDDEN),
            Told::Code(Rv::WrappedKeyInvalid),
        ),
        (A, FindObjectsInit(1, NOTHING_SAID), OK),
        (A, FindObjects(1, 16), Told::Objects(&[1, 2, 3, 4, 5])),
        (A, FindObjectsFinal(1), OK),
    ];
    play_and_run(rt.alloc(), BEFORE, ROWS)
}
