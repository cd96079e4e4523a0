//! What the scripts have beside what all have: keys, texts, mechanisms and codes; and how each is played.

use ck_types::{AttrType, Rv};
use std::alloc::Global;
use std::test::*;
use test_scripts::given::*;
use test_scripts::{Given, GivenMechanism, Row, Step, Told};

/// The keys that each script begins with: those of SP 800-38A, appendix F, and of FIPS 197, C.3; a secret that is no AES key; one
/// that doesn't decrypt, and one that doesn't encrypt.
pub(super) const KEY: u64 = 1;

pub(super) const KEY_256: u64 = 2;

pub(super) const SECRET: u64 = 3;

pub(super) const NO_DECRYPTION: u64 = 4;

pub(super) const NO_ENCRYPTION: u64 = 5;

const MAKES_KEY: Given = &[
    (AttrType::Class, SECRET_KEY),
    (AttrType::KeyType, AES),
    (
        AttrType::Value,
        b"\x2b\x7e\x15\x16\x28\xae\xd2\xa6\xab\xf7\x15\x88\x09\xcf\x4f\x3c",
    ),
    (AttrType::Private, NO),
];

const MAKES_KEY_256: Given = &[
    (AttrType::Class, SECRET_KEY),
    (AttrType::KeyType, AES),
    (
        AttrType::Value,
        b"\x00\x01\x02\x03\x04\x05\x06\x07\x08\x09\x0a\x0b\x0c\x0d\x0e\x0f\
\x10\x11\x12\x13\x14\x15\x16\x17\x18\x19\x1a\x1b\x1c\x1d\x1e\x1f",
    ),
    (AttrType::Private, NO),
];

const MAKES_SECRET: Given = &[
    (AttrType::Class, SECRET_KEY),
    (AttrType::KeyType, GENERIC_SECRET),
    (AttrType::Value, KEY_BYTES),
    (AttrType::Private, NO),
];

const MAKES_NO_DECRYPTION: Given = &[
    (AttrType::Class, SECRET_KEY),
    (AttrType::KeyType, AES),
    (AttrType::Value, KEY_BYTES),
    (AttrType::Private, NO),
    (AttrType::Decrypt, NO),
];

const MAKES_NO_ENCRYPTION: Given = &[
    (AttrType::Class, SECRET_KEY),
    (AttrType::KeyType, AES),
    (AttrType::Value, KEY_BYTES),
    (AttrType::Private, NO),
    (AttrType::Encrypt, NO),
];

/// What each script begins with.
pub(super) const BEFORE: &[Row] = &[
    (A, OPEN, Told::Session(1)),
    (A, Step::CreateObject(1, MAKES_KEY), Told::Object(KEY)),
    (
        A,
        Step::CreateObject(1, MAKES_KEY_256),
        Told::Object(KEY_256),
    ),
    (A, Step::CreateObject(1, MAKES_SECRET), Told::Object(SECRET)),
    (
        A,
        Step::CreateObject(1, MAKES_NO_DECRYPTION),
        Told::Object(NO_DECRYPTION),
    ),
    (
        A,
        Step::CreateObject(1, MAKES_NO_ENCRYPTION),
        Told::Object(NO_ENCRYPTION),
    ),
];

/// `BLOCK`, the first of the text of SP 800-38A, appendix F, by CBC and by CTR with 128 bits (F.2.1 and F.5.1).
pub(super) const CHAINED: &[u8] =
    b"\x76\x49\xab\xac\x81\x19\xb2\x46\xce\xe9\x8e\x9b\x12\xe9\x19\x7d";

pub(super) const COUNTED: &[u8] =
    b"\x87\x4d\x61\x91\xb6\x20\xe3\x26\x1b\xef\x68\x64\x99\x0d\xb6\xce";

/// That block, by CBC with padding.
pub(super) const PADDED_BLOCK: &[u8] =
    b"\x76\x49\xab\xac\x81\x19\xb2\x46\xce\xe9\x8e\x9b\x12\xe9\x19\x7d\
\x89\x64\xe0\xb1\x49\xc1\x0b\x7b\x68\x2e\x6e\x39\xaa\xeb\x73\x1c";

/// With 128 counter bits and the first counter of F.5.1.
pub(super) const CTR: Option<GivenMechanism> = Some((
    CTR_NUMBER,
    b"\x00\x00\x00\x00\x00\x00\x00\x80\xf0\xf1\xf2\xf3\xf4\xf5\xf6\xf7\xf8\xf9\xfa\xfb\xfc\xfd\xfe\xff",
));

pub(super) const WRONG_LENGTH: Told = Told::Code(Rv::DataLenRange);

pub(super) const WRONG_ENCRYPTED_LENGTH: Told = Told::Code(Rv::EncryptedDataLenRange);

/// Sees that a token with the keys goes as the rows are written, which leave no call pending: by calls one after the other, and
/// in one list of events.
pub(super) fn play_and_run(alloc: Global, rows: &[Row]) -> Result<(), Fail> {
    test_scripts::play_and_run(alloc, BEFORE, rows)
}

/// The same for rows some of which leave a call pending until its own row.
pub(super) fn play_and_run_questions(alloc: Global, rows: &[Row]) -> Result<(), Fail> {
    test_scripts::play_and_run_questions(alloc, BEFORE, rows)
}
