//! The keys of the token that the chapters speak of.

use crate::given::*;
use crate::steps::{Given, Told};
use ck_types::{AttrType, Rv};

/// The keys of SP 800-38A and SP 800-38B, and of FIPS 197, C.3.
pub(crate) const KEY: Given = &[
    (AttrType::Class, SECRET_KEY),
    (AttrType::KeyType, AES),
    (
        AttrType::Value,
        b"\x2b\x7e\x15\x16\x28\xae\xd2\xa6\xab\xf7\x15\x88\x09\xcf\x4f\x3c",
    ),
    (AttrType::Private, NO),
    (AttrType::Token, YES),
];

pub(crate) const KEY_256: Given = &[
    (AttrType::Class, SECRET_KEY),
    (AttrType::KeyType, AES),
    (
        AttrType::Value,
        b"\x00\x01\x02\x03\x04\x05\x06\x07\x08\x09\x0a\x0b\x0c\x0d\x0e\x0f\
\x10\x11\x12\x13\x14\x15\x16\x17\x18\x19\x1a\x1b\x1c\x1d\x1e\x1f",
    ),
    (AttrType::Private, NO),
    (AttrType::Token, YES),
];

/// The key of RFC 4231, 4.2.
pub(crate) const SECRET: Given = &[
    (AttrType::Class, SECRET_KEY),
    (AttrType::KeyType, GENERIC_SECRET),
    (
        AttrType::Value,
        b"\x0b\x0b\x0b\x0b\x0b\x0b\x0b\x0b\x0b\x0b\x0b\x0b\x0b\x0b\x0b\x0b\x0b\x0b\x0b\x0b",
    ),
    (AttrType::Private, NO),
    (AttrType::Token, YES),
];

/// The keys of RFC 3394, 4.1: one that wraps and unwraps, and one that it wraps; and one that can't be extracted.
pub(crate) const WRAPPING: Given = &[
    (AttrType::Class, SECRET_KEY),
    (AttrType::KeyType, AES),
    (AttrType::Value, KEY_BYTES),
    (AttrType::Private, NO),
    (AttrType::Token, YES),
    (AttrType::Wrap, YES),
    (AttrType::Unwrap, YES),
];

pub(crate) const EXTRACTABLE: Given = &[
    (AttrType::Class, SECRET_KEY),
    (AttrType::KeyType, AES),
    (AttrType::Value, TEXT),
    (AttrType::Private, NO),
    (AttrType::Token, YES),
    (AttrType::Sensitive, NO),
    (AttrType::Extractable, YES),
];

/// Sensitive and unextractable, with a label.
pub(crate) const LABELLED: Given = &[
    (AttrType::Class, SECRET_KEY),
    (AttrType::KeyType, AES),
    (AttrType::Value, KEY_BYTES),
    (AttrType::Private, NO),
    (AttrType::Token, YES),
    (AttrType::Label, b"k1"),
];

pub(crate) const UNWRAPPED: Given = &[
    (AttrType::KeyType, AES),
    (AttrType::Private, NO),
    (AttrType::Token, YES),
];

pub(crate) const WRONG_LENGTH: Told = Told::Code(Rv::DataLenRange);
