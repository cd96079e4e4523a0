//! Objects: C_CreateObject, C_CopyObject, C_DestroyObject, C_GetObjectSize, C_GetAttributeValue and
//! C_SetAttributeValue.

use ck_types::{AttrType, Rv};
use std::test::*;
use test_scripts::given::*;
use test_scripts::{Bench, Given, Row, Step, Told, play};

/// A value of 17 bytes, which no AES key has.
const LONG_KEY: &[u8] = b"\x00\x01\x02\x03\x04\x05\x06\x07\x08\x09\x0a\x0b\x0c\x0d\x0e\x0f\x10";

/// The number 16, as CKA_VALUE_LEN has it.
const SIXTEEN: &[u8] = b"\x00\x00\x00\x00\x00\x00\x00\x10";

const KEY_TYPE: u64 = 0x100;

const UNKNOWN: u64 = 0x9999_9999;

/// What is returned of an attribute that is not there, that is masked or whose buffer is too short.
const UNAVAILABLE: (u64, Option<&'static [u8]>) = (0xffff_ffff_ffff_ffff, None);

const AES_KEY: Given = &[
    (AttrType::Class, SECRET_KEY),
    (AttrType::KeyType, AES),
    (AttrType::Value, KEY_BYTES),
    (AttrType::Private, NO),
];

const PRIVATE_KEY: Given = &[
    (AttrType::Class, SECRET_KEY),
    (AttrType::KeyType, AES),
    (AttrType::Value, KEY_BYTES),
];

const KEY_WITHOUT_VALUE: Given = &[
    (AttrType::Class, SECRET_KEY),
    (AttrType::KeyType, AES),
    (AttrType::Private, NO),
];

const KEY_WITH_LENGTH: Given = &[
    (AttrType::Class, SECRET_KEY),
    (AttrType::KeyType, AES),
    (AttrType::Value, KEY_BYTES),
    (AttrType::ValueLen, SIXTEEN),
];

const KEY_OF_17_BYTES: Given = &[
    (AttrType::Class, SECRET_KEY),
    (AttrType::KeyType, AES),
    (AttrType::Value, LONG_KEY),
];

const LABELLED_KEY: Given = &[
    (AttrType::Class, SECRET_KEY),
    (AttrType::KeyType, AES),
    (AttrType::Private, NO),
    (AttrType::Value, KEY_BYTES),
    (AttrType::Label, b"k1"),
];

const UNEXTRACTABLE_KEY: Given = &[
    (AttrType::Class, SECRET_KEY),
    (AttrType::KeyType, AES),
    (AttrType::Private, NO),
    (AttrType::Value, KEY_BYTES),
    (AttrType::Sensitive, NO),
];

const OPEN_KEY: Given = &[
    (AttrType::Class, SECRET_KEY),
    (AttrType::KeyType, AES),
    (AttrType::Private, NO),
    (AttrType::Value, KEY_BYTES),
    (AttrType::Sensitive, NO),
    (AttrType::Extractable, YES),
];

/// Data objects that are public as nothing else is given.
const PLAIN_DATA: Given = &[(AttrType::Class, DATA)];

const PLAIN_TOKEN_DATA: Given = &[(AttrType::Class, DATA), (AttrType::Token, YES)];

const FIXED_DATA: Given = &[
    (AttrType::Class, DATA),
    (AttrType::Copyable, NO),
    (AttrType::Modifiable, NO),
];

/// Data with a key's attribute, with two labels, and with one label twice.
const DATA_WITH_KEY_TYPE: Given = &[(AttrType::Class, DATA), (AttrType::KeyType, AES)];

const DATA_WITH_TWO_LABELS: Given = &[
    (AttrType::Class, DATA),
    (AttrType::Label, b"a"),
    (AttrType::Label, b"b"),
];

const DATA_WITH_A_LABEL_TWICE: Given = &[
    (AttrType::Class, DATA),
    (AttrType::Label, b"a"),
    (AttrType::Label, b"a"),
];

const UNTRUSTED_DATA: Given = &[(AttrType::Class, DATA), (AttrType::Trusted, NO)];

const PRIVATE: Given = &[(AttrType::Private, YES)];

const EXTRACTABLE: Given = &[(AttrType::Extractable, YES)];

const NOT_SENSITIVE: Given = &[(AttrType::Sensitive, NO)];

const TRUSTED: Given = &[(AttrType::Trusted, YES)];

const COPYABLE: Given = &[(AttrType::Copyable, YES)];

const NOT_COPYABLE: Given = &[(AttrType::Copyable, NO)];

const NOT_MODIFIABLE: Given = &[(AttrType::Modifiable, NO)];

const READ_ONLY_ATTRIBUTE: Told = Told::Code(Rv::AttributeReadOnly);

const INCONSISTENT: Told = Told::Code(Rv::TemplateInconsistent);

const INCOMPLETE: Told = Told::Code(Rv::TemplateIncomplete);

const INVALID: Told = Told::Code(Rv::AttributeValueInvalid);

#[test]
fn a_template_that_makes_nothing_has_its_code(rt: HostRuntime) -> Result<(), Fail> {
    const ROWS: &[Row] = &[
        (A, OPEN, Told::Session(1)),
        (A, Step::CreateObject(1, KEY_WITHOUT_VALUE), INCOMPLETE),
        (A, Step::CreateObject(1, KEY_WITH_LENGTH), INCONSISTENT),
        (A, Step::CreateObject(1, KEY_OF_17_BYTES), INVALID),
        (A, Step::CreateObject(1, PRIVATE_KEY), NOT_LOGGED_IN),
        (A, Step::CreateObject(1, UNTRUSTED_DATA), INCONSISTENT),
        (A, Step::CreateObject(1, DATA_WITH_KEY_TYPE), INCONSISTENT),
        (A, Step::CreateObject(1, DATA_WITH_TWO_LABELS), INCONSISTENT),
        (A, Step::CreateObject(1, AES_KEY), Told::Object(1)),
        (A, Step::CopyObject(1, 1, EXTRACTABLE), READ_ONLY_ATTRIBUTE),
        (
            A,
            Step::SetAttributeValue(1, 1, NOT_SENSITIVE),
            READ_ONLY_ATTRIBUTE,
        ),
        (
            A,
            Step::SetAttributeValue(1, 1, TRUSTED),
            READ_ONLY_ATTRIBUTE,
        ),
        (
            A,
            Step::SetAttributeValue(1, 1, ON_TOKEN),
            READ_ONLY_ATTRIBUTE,
        ),
        (A, Step::CopyObject(1, 1, PRIVATE), NOT_LOGGED_IN),
        (
            A,
            Step::CreateObject(1, DATA_WITH_A_LABEL_TWICE),
            Told::Object(2),
        ),
    ];
    play(rt.alloc(), ROWS)
}

#[test]
fn a_copy_is_an_object_of_its_own(rt: HostRuntime) -> Result<(), Fail> {
    const ROWS: &[Row] = &[
        (A, OPEN, Told::Session(1)),
        (A, OPEN_READ_ONLY, Told::Session(2)),
        (A, Step::CreateObject(1, AES_KEY), Told::Object(1)),
        (A, Step::CopyObject(1, 1, ON_TOKEN), Told::Object(2)),
        (A, Step::CopyObject(2, 2, ON_TOKEN), READ_ONLY_SESSION),
        (A, Step::CopyObject(2, 1, NEW_LABEL), Told::Object(3)),
        (A, Step::DestroyObject(1, 1), OK),
        (A, Step::CopyObject(1, 1, NOTHING), NO_OBJECT),
        (A, Step::SetAttributeValue(1, 2, NEW_LABEL), OK),
        (A, Step::SetAttributeValue(1, 3, NEW_LABEL), OK),
        (A, Step::CloseSession(2), OK),
        (A, Step::SetAttributeValue(1, 3, NEW_LABEL), NO_OBJECT),
        (A, Step::SetAttributeValue(1, 2, NEW_LABEL), OK),
    ];
    play(rt.alloc(), ROWS)
}

#[test]
fn a_changed_object_stays_under_its_handle(rt: HostRuntime) -> Result<(), Fail> {
    const ROWS: &[Row] = &[
        (A, OPEN, Told::Session(1)),
        (A, OPEN_READ_ONLY, Told::Session(2)),
        (A, Step::CreateObject(1, PLAIN_TOKEN_DATA), Told::Object(1)),
        (A, Step::CreateObject(1, PLAIN_DATA), Told::Object(2)),
        (A, Step::CreateObject(1, PLAIN_TOKEN_DATA), Told::Object(3)),
        (
            A,
            Step::SetAttributeValue(2, 1, NOT_COPYABLE),
            READ_ONLY_SESSION,
        ),
        (A, Step::CopyObject(2, 1, NOTHING), READ_ONLY_SESSION),
        (A, Step::SetAttributeValue(1, 1, NOT_COPYABLE), OK),
        (A, Step::CopyObject(1, 1, NOTHING), PROHIBITED),
        (A, Step::CopyObject(2, 1, NOTHING), PROHIBITED),
        (
            A,
            Step::SetAttributeValue(1, 1, COPYABLE),
            READ_ONLY_ATTRIBUTE,
        ),
        (A, Step::SetAttributeValue(2, 2, NOT_COPYABLE), OK),
        (A, Step::CopyObject(1, 2, NOTHING), PROHIBITED),
        (A, Step::CopyObject(1, 3, NOTHING), Told::Object(4)),
        (A, Step::SetAttributeValue(1, 9, NOT_COPYABLE), NO_OBJECT),
        (B, OPEN, Told::Session(1)),
        (B, Step::SetAttributeValue(1, 1, NEW_LABEL), NO_OBJECT),
        (B, Step::CopyObject(1, 1, NOTHING), NO_OBJECT),
        (A, Step::DestroyObject(1, 1), OK),
        (A, Step::SetAttributeValue(1, 1, NEW_LABEL), NO_OBJECT),
    ];
    play(rt.alloc(), ROWS)
}

#[test]
fn an_object_forbids_what_it_says(rt: HostRuntime) -> Result<(), Fail> {
    const ROWS: &[Row] = &[
        (A, OPEN, Told::Session(1)),
        (A, Step::CreateObject(1, FIXED_DATA), Told::Object(1)),
        (A, Step::CopyObject(1, 1, NOTHING), PROHIBITED),
        (A, Step::SetAttributeValue(1, 1, NEW_LABEL), PROHIBITED),
        (A, Step::CreateObject(1, PLAIN_DATA), Told::Object(2)),
        (A, Step::CopyObject(1, 2, NOT_MODIFIABLE), Told::Object(3)),
        (A, Step::SetAttributeValue(1, 3, NEW_LABEL), PROHIBITED),
        (A, Step::SetAttributeValue(1, 2, NEW_LABEL), OK),
    ];
    play(rt.alloc(), ROWS)
}

#[test]
fn an_application_has_at_most_256_session_objects(rt: HostRuntime) -> Result<(), Fail> {
    const CREATE: Step = Step::CreateObject(1, SESSION_DATA);
    const AFTER: &[Row] = &[(A, CREATE, OBJECT_LIMIT), (A, CREATE, OBJECT_LIMIT)];
    let mut bench = Bench::new(rt.alloc())?;
    bench.expect(0, (A, OPEN_READ_ONLY, Told::Session(1)))?;
    bench.fill((A, CREATE), 1, 256)?;
    bench.play(AFTER)
}

#[test]
fn the_size_of_an_object_is_the_length_of_its_stored_form(rt: HostRuntime) -> Result<(), Fail> {
    const ROWS: &[Row] = &[
        (A, OPEN, Told::Session(1)),
        (A, Step::CreateObject(1, PLAIN_DATA), Told::Object(1)),
        (A, Step::GetObjectSize(1, 1), Told::ObjectSize(128)),
        (A, Step::CreateObject(1, LABELLED_DATA), Told::Object(2)),
        (A, Step::GetObjectSize(1, 2), Told::ObjectSize(135)),
        (A, Step::CreateObject(1, AES_KEY), Told::Object(3)),
        (A, Step::GetObjectSize(1, 3), Told::ObjectSize(309)),
        (A, Step::CreateObject(1, LABELLED_KEY), Told::Object(4)),
        (A, Step::GetObjectSize(1, 4), Told::ObjectSize(311)),
    ];
    play(rt.alloc(), ROWS)
}

/// The objects that are read, and what is returned of each wanted attribute.
const ASKED: &[Row] = &[
    (A, OPEN, Told::Session(1)),
    (A, Step::CreateObject(1, LABELLED_KEY), Told::Object(1)),
    (A, Step::CreateObject(1, UNEXTRACTABLE_KEY), Told::Object(2)),
    (A, Step::CreateObject(1, OPEN_KEY), Told::Object(3)),
    (A, Step::CreateObject(1, LABELLED_DATA), Told::Object(4)),
    (
        A,
        Step::GetAttributeValue(
            1,
            1,
            &[(LABEL, Some(64)), (VALUE, Some(64)), (UNKNOWN, Some(64))],
        ),
        Told::AttributeValues(
            Rv::AttributeSensitive,
            &[(2, Some(b"k1")), UNAVAILABLE, UNAVAILABLE],
        ),
    ),
    (
        A,
        Step::GetAttributeValue(1, 1, &[(UNKNOWN, None), (LABEL, Some(1)), (LABEL, None)]),
        Told::AttributeValues(
            Rv::AttributeTypeInvalid,
            &[UNAVAILABLE, UNAVAILABLE, (2, None)],
        ),
    ),
    (
        A,
        Step::GetAttributeValue(
            1,
            1,
            &[(LABEL, Some(1)), (LABEL, Some(2)), (VALUE_LEN, Some(7))],
        ),
        Told::AttributeValues(
            Rv::BufferTooSmall,
            &[UNAVAILABLE, (2, Some(b"k1")), UNAVAILABLE],
        ),
    ),
    (
        A,
        Step::GetAttributeValue(1, 1, &[(VALUE_LEN, Some(8)), (LABEL, None)]),
        Told::AttributeValues(Rv::Ok, &[(8, Some(SIXTEEN)), (2, None)]),
    ),
    (
        A,
        Step::GetAttributeValue(1, 1, &[]),
        Told::AttributeValues(Rv::Ok, &[]),
    ),
    (
        A,
        Step::GetAttributeValue(1, 2, &[(LABEL, Some(0)), (VALUE, None)]),
        Told::AttributeValues(Rv::AttributeSensitive, &[(0, Some(b"")), UNAVAILABLE]),
    ),
    (
        A,
        Step::GetAttributeValue(1, 3, &[(VALUE, Some(16))]),
        Told::AttributeValues(Rv::Ok, &[(16, Some(KEY_BYTES))]),
    ),
    (
        A,
        Step::GetAttributeValue(
            1,
            4,
            &[(VALUE, Some(5)), (VALUE, Some(4)), (KEY_TYPE, Some(8))],
        ),
        Told::AttributeValues(
            Rv::AttributeTypeInvalid,
            &[(5, Some(b"bytes")), UNAVAILABLE, UNAVAILABLE],
        ),
    ),
    (
        A,
        Step::GetAttributeValue(1, 4, &[(UNIQUE_ID, Some(32))]),
        Told::AttributeValues(Rv::Ok, &[(32, Some(b"76b8e0ada0f13d90405d6ae55386bd28"))]),
    ),
];

#[test]
fn each_attribute_that_is_asked_for_is_answered(rt: HostRuntime) -> Result<(), Fail> {
    play(rt.alloc(), ASKED)
}
