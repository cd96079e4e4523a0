//! What the cases speak of: sessions, objects, templates and mechanisms.

use ck_types::AttrType;
use precede::Condition as Fault;
use test_scripts::Step::{
    CreateObject, DecryptInit, DecryptUpdate, EncryptInit, EncryptUpdate, SignInit, SignUpdate,
    VerifyInit, VerifyUpdate,
};
use test_scripts::given::*;
use test_scripts::{Given, GivenMechanism, Row, Step, Told};

/// Two faults of a call, the call with the second alone, and the call with both.
pub(super) type Case = (Fault, Fault, Step, Step);

/// The sessions: one that may write, one that may not, and none.
pub(super) const WRITES: u64 = 1;

pub(super) const READS: u64 = 2;

pub(super) const NOWHERE: u64 = 99;

/// Sessions that encrypt and decrypt at once: by CKM_AES_ECB without data and with fifteen bytes taken, which also sign and
/// verify so by CKM_AES_CMAC; by CKM_AES_CTR with
/// two counter bits without data and with a byte taken, and by CKM_AES_CBC_PAD without data; and one that decrypts by it,
/// with a block taken.
pub(super) const BEGUN: u64 = 3;

pub(super) const TAKEN: u64 = 4;

pub(super) const COUNTS: u64 = 5;

pub(super) const COUNTED: u64 = 6;

pub(super) const PADS: u64 = 7;

pub(super) const PADDED: u64 = 8;

/// The objects: an AES key; another that may do nothing; a key of another type that may do nothing; data that may be neither
/// copied, changed nor destroyed; data without such restrictions; and none.
pub(super) const KEY: u64 = 1;

pub(super) const IDLE_KEY: u64 = 2;

pub(super) const GENERIC_KEY: u64 = 3;

pub(super) const BARRED: u64 = 4;

pub(super) const FREE: u64 = 5;

pub(super) const MISSING: u64 = 99;

/// More keys: one that wraps and unwraps; one that may be wrapped; one that only a trusted key wraps; one that none wraps; and
/// secrets that are too short, which every key may wrap and which a trusted one may.
pub(super) const WRAPS: u64 = 6;

pub(super) const OPEN_KEY: u64 = 7;

pub(super) const KEY_FOR_TRUSTED: u64 = 8;

pub(super) const CLOSED_KEY_FOR_TRUSTED: u64 = 9;

pub(super) const SHORT_KEY: u64 = 10;

pub(super) const SHORT_KEY_FOR_TRUSTED: u64 = 11;

const MAKES_IDLE_KEY: Given = &[
    (AttrType::Class, SECRET_KEY),
    (AttrType::KeyType, AES),
    (AttrType::Value, KEY_BYTES),
    (AttrType::Private, NO),
    (AttrType::Token, YES),
    (AttrType::Encrypt, NO),
    (AttrType::Decrypt, NO),
    (AttrType::Sign, NO),
    (AttrType::Verify, NO),
];

const MAKES_GENERIC_KEY: Given = &[
    (AttrType::Class, SECRET_KEY),
    (AttrType::KeyType, GENERIC_SECRET),
    (AttrType::Value, KEY_BYTES),
    (AttrType::Private, NO),
    (AttrType::Token, YES),
    (AttrType::Encrypt, NO),
    (AttrType::Decrypt, NO),
    (AttrType::Sign, NO),
    (AttrType::Verify, NO),
];

const MAKES_WRAPS: Given = &[
    (AttrType::Class, SECRET_KEY),
    (AttrType::KeyType, AES),
    (AttrType::Value, KEY_BYTES),
    (AttrType::Private, NO),
    (AttrType::Token, YES),
    (AttrType::Wrap, YES),
    (AttrType::Unwrap, YES),
];

const MAKES_OPEN_KEY: Given = &[
    (AttrType::Class, SECRET_KEY),
    (AttrType::KeyType, AES),
    (AttrType::Value, TEXT),
    (AttrType::Private, NO),
    (AttrType::Token, YES),
    (AttrType::Extractable, YES),
];

const MAKES_KEY_FOR_TRUSTED: Given = &[
    (AttrType::Class, SECRET_KEY),
    (AttrType::KeyType, AES),
    (AttrType::Value, TEXT),
    (AttrType::Private, NO),
    (AttrType::Token, YES),
    (AttrType::Extractable, YES),
    (AttrType::WrapWithTrusted, YES),
];

const MAKES_CLOSED_KEY_FOR_TRUSTED: Given = &[
    (AttrType::Class, SECRET_KEY),
    (AttrType::KeyType, AES),
    (AttrType::Value, TEXT),
    (AttrType::Private, NO),
    (AttrType::Token, YES),
    (AttrType::WrapWithTrusted, YES),
];

const MAKES_SHORT_KEY: Given = &[
    (AttrType::Class, SECRET_KEY),
    (AttrType::KeyType, GENERIC_SECRET),
    (AttrType::Value, b"a short one"),
    (AttrType::Private, NO),
    (AttrType::Token, YES),
    (AttrType::Extractable, YES),
];

const MAKES_SHORT_KEY_FOR_TRUSTED: Given = &[
    (AttrType::Class, SECRET_KEY),
    (AttrType::KeyType, GENERIC_SECRET),
    (AttrType::Value, b"a short one"),
    (AttrType::Private, NO),
    (AttrType::Token, YES),
    (AttrType::Extractable, YES),
    (AttrType::WrapWithTrusted, YES),
];

const MAKES_BARRED: Given = &[
    (AttrType::Class, DATA),
    (AttrType::Token, YES),
    (AttrType::Private, NO),
    (AttrType::Copyable, NO),
    (AttrType::Modifiable, NO),
    (AttrType::Destroyable, NO),
];

pub(super) const PRIVATE_TOKEN_DATA: Given = &[
    (AttrType::Class, DATA),
    (AttrType::Token, YES),
    (AttrType::Private, YES),
];

pub(super) const OFF_TOKEN: Given = &[(AttrType::Token, NO)];

pub(super) const PRIVATE_OFF_TOKEN: Given = &[(AttrType::Token, NO), (AttrType::Private, YES)];

pub(super) const PRIVATE_ON_TOKEN: Given = &[(AttrType::Token, YES), (AttrType::Private, YES)];

/// Templates with a flag of no byte, which no flag has.
pub(super) const REFUSED: Given = &[(AttrType::Copyable, b"")];

pub(super) const REFUSED_ON_TOKEN: Given = &[(AttrType::Token, YES), (AttrType::Copyable, b"")];

pub(super) const REFUSED_TOKEN_DATA: Given = &[
    (AttrType::Class, DATA),
    (AttrType::Token, YES),
    (AttrType::Copyable, b""),
];

/// CKM_AES_ECB with a parameter, which it hasn't.
pub(super) const ECB_WITH_PARAMETER: Option<GivenMechanism> = Some((ECB_NUMBER, TEXT));

/// CKM_AES_KEY_GEN, which encrypts nothing.
pub(super) const KEY_GENERATION: Option<GivenMechanism> = Some((0x1080, b""));

pub(super) const KEY_GENERATION_WITH_PARAMETER: Option<GivenMechanism> = Some((0x1080, TEXT));

/// The same, to generate keys by, and CKM_AES_ECB, by which no key is made or wrapped.
pub(super) const AES_KEY_GEN_WITH_PARAMETER: GivenMechanism = (0x1080, TEXT);

pub(super) const CIPHER_WITH_PARAMETER: GivenMechanism = (ECB_NUMBER, TEXT);

pub(super) const CIPHER: GivenMechanism = (ECB_NUMBER, b"");

/// CKM_AES_CMAC and CKM_AES_KEY_WRAP with parameters, which they haven't.
pub(super) const CMAC_WITH_PARAMETER: Option<GivenMechanism> = Some((0x108a, TEXT));

pub(super) const KEY_WRAP_WITH_PARAMETER: GivenMechanism = (0x2109, TEXT);

/// The number of no mechanism.
pub(super) const UNKNOWN_MECHANISM: u64 = 0x250;

/// More random bytes than are given at once.
pub(super) const MANY_BYTES: u64 = 32_769;

/// The number 16, as CKA_VALUE_LEN has it.
const SIXTEEN: &[u8] = b"\x00\x00\x00\x00\x00\x00\x00\x10";

/// Keys that are generated: of the session and of the token, public and private, and with a flag of no byte.
pub(super) const KEY_HERE: Given = &[(AttrType::ValueLen, SIXTEEN), (AttrType::Private, NO)];

pub(super) const PRIVATE_KEY_HERE: Given = &[
    (AttrType::ValueLen, SIXTEEN),
    (AttrType::Private, YES),
];

pub(super) const KEY_ON_TOKEN: Given = &[
    (AttrType::ValueLen, SIXTEEN),
    (AttrType::Private, NO),
    (AttrType::Token, YES),
];

pub(super) const PRIVATE_KEY_ON_TOKEN: Given = &[
    (AttrType::ValueLen, SIXTEEN),
    (AttrType::Private, YES),
    (AttrType::Token, YES),
];

pub(super) const REFUSED_KEY_ON_TOKEN: Given = &[
    (AttrType::ValueLen, SIXTEEN),
    (AttrType::Private, NO),
    (AttrType::Token, YES),
    (AttrType::Copyable, b""),
];

/// Keys that are unwrapped, and what is no wrapping of an AES key, but of a longer one.
pub(super) const UNWRAPPED: Given = &[(AttrType::KeyType, AES), (AttrType::Private, NO)];

pub(super) const PRIVATE_UNWRAPPED: Given = &[(AttrType::KeyType, AES), (AttrType::Private, YES)];

pub(super) const UNWRAPPED_ON_TOKEN: Given = &[
    (AttrType::KeyType, AES),
    (AttrType::Private, NO),
    (AttrType::Token, YES),
];

pub(super) const PRIVATE_UNWRAPPED_ON_TOKEN: Given = &[
    (AttrType::KeyType, AES),
    (AttrType::Private, YES),
    (AttrType::Token, YES),
];

pub(super) const REFUSED_UNWRAPPED_ON_TOKEN: Given = &[
    (AttrType::KeyType, AES),
    (AttrType::Private, NO),
    (AttrType::Token, YES),
    (AttrType::Copyable, b""),
];

pub(super) const LONG_WRAPPED: &[u8] = &[0; 48];

/// A text that is longer than the keystream of `TWO_BITS`.
pub(super) const LONG_TEXT: &[u8] = &[0; 49];

/// CKM_AES_CBC_PAD.
pub(super) const PADDING: Option<GivenMechanism> = Some((CBC_PAD_NUMBER, TEXT));

/// A text that is no whole number of blocks.
pub(super) const ODD_TEXT: &[u8] = b"fifteen bytes..";

/// What each case begins with.
pub(super) const BEFORE: &[Row] = &[
    (A, OPEN, Told::Session(WRITES)),
    (A, OPEN_READ_ONLY, Told::Session(READS)),
    (A, OPEN, Told::Session(BEGUN)),
    (A, OPEN, Told::Session(TAKEN)),
    (A, OPEN, Told::Session(COUNTS)),
    (A, OPEN, Told::Session(COUNTED)),
    (A, OPEN, Told::Session(PADS)),
    (A, OPEN, Told::Session(PADDED)),
    (A, CreateObject(WRITES, TOKEN_KEY), Told::Object(KEY)),
    (
        A,
        CreateObject(WRITES, MAKES_IDLE_KEY),
        Told::Object(IDLE_KEY),
    ),
    (
        A,
        CreateObject(WRITES, MAKES_GENERIC_KEY),
        Told::Object(GENERIC_KEY),
    ),
    (A, CreateObject(WRITES, MAKES_BARRED), Told::Object(BARRED)),
    (A, CreateObject(WRITES, TOKEN_DATA), Told::Object(FREE)),
    (A, CreateObject(WRITES, MAKES_WRAPS), Told::Object(WRAPS)),
    (
        A,
        CreateObject(WRITES, MAKES_OPEN_KEY),
        Told::Object(OPEN_KEY),
    ),
    (
        A,
        CreateObject(WRITES, MAKES_KEY_FOR_TRUSTED),
        Told::Object(KEY_FOR_TRUSTED),
    ),
    (
        A,
        CreateObject(WRITES, MAKES_CLOSED_KEY_FOR_TRUSTED),
        Told::Object(CLOSED_KEY_FOR_TRUSTED),
    ),
    (
        A,
        CreateObject(WRITES, MAKES_SHORT_KEY),
        Told::Object(SHORT_KEY),
    ),
    (
        A,
        CreateObject(WRITES, MAKES_SHORT_KEY_FOR_TRUSTED),
        Told::Object(SHORT_KEY_FOR_TRUSTED),
    ),
    (A, EncryptInit(BEGUN, ECB, KEY), OK),
    (A, DecryptInit(BEGUN, ECB, KEY), OK),
    (A, EncryptInit(TAKEN, ECB, KEY), OK),
    (A, EncryptUpdate(TAKEN, ODD_TEXT, Some(0)), Told::Data(b"")),
    (A, DecryptInit(TAKEN, ECB, KEY), OK),
    (A, DecryptUpdate(TAKEN, ODD_TEXT, Some(0)), Told::Data(b"")),
    (A, SignInit(BEGUN, AES_CMAC, KEY), OK),
    (A, VerifyInit(BEGUN, AES_CMAC, KEY), OK),
    (A, SignInit(TAKEN, AES_CMAC, KEY), OK),
    (A, SignUpdate(TAKEN, ODD_TEXT), OK),
    (A, VerifyInit(TAKEN, AES_CMAC, KEY), OK),
    (A, VerifyUpdate(TAKEN, ODD_TEXT), OK),
    (A, EncryptInit(COUNTS, TWO_BITS, KEY), OK),
    (A, DecryptInit(COUNTS, TWO_BITS, KEY), OK),
    (A, EncryptInit(COUNTED, TWO_BITS, KEY), OK),
    (
        A,
        EncryptUpdate(COUNTED, b"\x00", Some(1)),
        Told::Data(b"\x73"),
    ),
    (A, DecryptInit(COUNTED, TWO_BITS, KEY), OK),
    (
        A,
        DecryptUpdate(COUNTED, b"\x00", Some(1)),
        Told::Data(b"\x73"),
    ),
    (A, EncryptInit(PADS, PADDING, KEY), OK),
    (A, DecryptInit(PADS, PADDING, KEY), OK),
    (A, DecryptInit(PADDED, PADDING, KEY), OK),
    (A, DecryptUpdate(PADDED, TEXT, Some(0)), Told::Data(b"")),
];
