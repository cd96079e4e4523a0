//! How operations begin and end: C_EncryptInit and C_DecryptInit.

use super::given::*;
use ck_types::Rv;
use std::test::*;
use test_scripts::Step::{
    CloseSession, CreateObject, Decrypt, DecryptInit, DestroyObject, Encrypt, EncryptInit,
    EncryptUpdate,
};
use test_scripts::given::*;
use test_scripts::{GivenMechanism, Row, Told};

#[test]
fn an_init_without_a_mechanism_ends_its_own_operation(rt: HostRuntime) -> Result<(), Fail> {
    const ROWS: &[Row] = &[
        (A, EncryptInit(1, None, 0), OK),
        (A, EncryptInit(1, None, 0), OK),
        (A, Encrypt(1, BLOCK, Some(16)), NO_OPERATION),
        (A, DecryptInit(1, None, 0), OK),
        (A, DecryptInit(1, None, 0), OK),
        (A, Decrypt(1, BLOCK, Some(16)), NO_OPERATION),
        (A, EncryptInit(1, CBC, KEY), OK),
        (A, DecryptInit(1, CBC, KEY), OK),
        (A, EncryptUpdate(1, BLOCK, Some(16)), Told::Data(CHAINED)),
        (A, EncryptInit(1, None, KEY), OK),
        (A, Encrypt(1, BLOCK, Some(16)), NO_OPERATION),
        (A, EncryptInit(1, CTR, KEY), OK),
        (A, DecryptInit(1, CTR, KEY), OPERATION_ACTIVE),
        (A, DecryptInit(1, None, SECRET), OK),
        (A, Decrypt(1, BLOCK, Some(16)), NO_OPERATION),
        (A, Encrypt(1, BLOCK, Some(16)), Told::Data(COUNTED)),
    ];
    play_and_run(rt.alloc(), ROWS)
}

/// CKM_AES_KEY_WRAP and CKM_AES_CMAC, which encrypt no texts.
const KEY_WRAP: Option<GivenMechanism> = Some((0x2109, b""));

const CMAC: Option<GivenMechanism> = Some((0x108a, b""));

/// Parameters that are none of the mechanism's: too long, too short, and counters of no bit, of 129 bits, of more than fit into 64
/// bits, and without a block.
const LONG_ECB: Option<GivenMechanism> = Some((ECB_NUMBER, b"\x00"));

const SHORT_CBC: Option<GivenMechanism> = Some((CBC_NUMBER, &[0; 15]));

const LONG_CBC_PAD: Option<GivenMechanism> = Some((CBC_PAD_NUMBER, &[0; 17]));

const NO_BITS: Option<GivenMechanism> = Some((CTR_NUMBER, &[0; 24]));

const BITS_129: Option<GivenMechanism> = Some((
    CTR_NUMBER,
    b"\x00\x00\x00\x00\x00\x00\x00\x81\x00\x00\x00\x00\x00\x00\x00\x00\x00\x00\x00\x00\x00\x00\x00\x00",
));

const MANY_BITS: Option<GivenMechanism> = Some((CTR_NUMBER, &[255; 24]));

const SHORT_CTR: Option<GivenMechanism> = Some((CTR_NUMBER, b"\x00\x00\x00\x00\x00\x00\x00\x80"));

const NO_MECHANISM: Told = Told::Code(Rv::MechanismInvalid);

const WRONG_PARAMETER: Told = Told::Code(Rv::MechanismParamInvalid);

const WRONG_KEY_TYPE: Told = Told::Code(Rv::KeyTypeInconsistent);

const NOT_PERMITTED: Told = Told::Code(Rv::KeyFunctionNotPermitted);

#[test]
fn an_encryption_that_may_not_begin_has_its_code(rt: HostRuntime) -> Result<(), Fail> {
    const ROWS: &[Row] = &[
        (A, EncryptInit(1, KEY_WRAP, KEY), NO_MECHANISM),
        (A, EncryptInit(1, CMAC, KEY), NO_MECHANISM),
        (A, EncryptInit(1, LONG_ECB, KEY), WRONG_PARAMETER),
        (A, EncryptInit(1, SHORT_CBC, KEY), WRONG_PARAMETER),
        (A, EncryptInit(1, LONG_CBC_PAD, KEY), WRONG_PARAMETER),
        (A, EncryptInit(1, NO_BITS, KEY), WRONG_PARAMETER),
        (A, EncryptInit(1, BITS_129, KEY), WRONG_PARAMETER),
        (A, EncryptInit(1, MANY_BITS, KEY), WRONG_PARAMETER),
        (A, EncryptInit(1, SHORT_CTR, KEY), WRONG_PARAMETER),
        (A, EncryptInit(1, CTR, 9), NO_KEY),
        (A, EncryptInit(1, CBC, SECRET), WRONG_KEY_TYPE),
        (A, EncryptInit(1, CBC_PAD, NO_ENCRYPTION), NOT_PERMITTED),
        (A, Encrypt(1, BLOCK, Some(16)), NO_OPERATION),
        (A, EncryptInit(1, CBC_PAD, NO_DECRYPTION), OK),
        (A, EncryptInit(1, CBC_PAD, NO_DECRYPTION), OPERATION_ACTIVE),
    ];
    play_and_run(rt.alloc(), ROWS)
}

#[test]
fn a_decryption_that_may_not_begin_has_its_code(rt: HostRuntime) -> Result<(), Fail> {
    const ROWS: &[Row] = &[
        (A, DecryptInit(1, KEY_WRAP, KEY), NO_MECHANISM),
        (A, DecryptInit(1, CMAC, KEY), NO_MECHANISM),
        (A, DecryptInit(1, LONG_ECB, KEY), WRONG_PARAMETER),
        (A, DecryptInit(1, SHORT_CBC, KEY), WRONG_PARAMETER),
        (A, DecryptInit(1, LONG_CBC_PAD, KEY), WRONG_PARAMETER),
        (A, DecryptInit(1, NO_BITS, KEY), WRONG_PARAMETER),
        (A, DecryptInit(1, BITS_129, KEY), WRONG_PARAMETER),
        (A, DecryptInit(1, MANY_BITS, KEY), WRONG_PARAMETER),
        (A, DecryptInit(1, SHORT_CTR, KEY), WRONG_PARAMETER),
        (A, DecryptInit(1, CTR, 9), NO_KEY),
        (A, DecryptInit(1, CBC, SECRET), WRONG_KEY_TYPE),
        (A, DecryptInit(1, CBC_PAD, NO_DECRYPTION), NOT_PERMITTED),
        (A, Decrypt(1, BLOCK, Some(16)), NO_OPERATION),
        (A, DecryptInit(1, CBC_PAD, NO_ENCRYPTION), OK),
        (A, DecryptInit(1, CBC_PAD, NO_ENCRYPTION), OPERATION_ACTIVE),
    ];
    play_and_run(rt.alloc(), ROWS)
}

#[test]
fn an_operation_runs_on_after_its_key_was_destroyed(rt: HostRuntime) -> Result<(), Fail> {
    const ROWS: &[Row] = &[
        (A, Encrypt(1, BLOCK, None), NO_OPERATION),
        (A, EncryptInit(1, CBC, KEY), OK),
        (A, EncryptInit(1, CBC, KEY), OPERATION_ACTIVE),
        (A, DecryptInit(1, CTR, KEY), OK),
        (A, DestroyObject(1, KEY), OK),
        (A, Encrypt(1, BLOCK, Some(15)), Told::BufferTooSmall(16)),
        (A, Encrypt(1, BLOCK, None), Told::Length(16)),
        (A, Encrypt(1, BLOCK, Some(16)), Told::Data(CHAINED)),
        (A, Encrypt(1, BLOCK, Some(16)), NO_OPERATION),
        (A, EncryptInit(1, CBC, KEY), NO_KEY),
        (A, Decrypt(1, COUNTED, Some(16)), Told::Data(BLOCK)),
        (A, DecryptInit(1, CTR, KEY), NO_KEY),
        (A, CreateObject(1, TOKEN_KEY), Told::Object(6)),
        (A, EncryptInit(1, ECB, 6), OK),
        (A, DestroyObject(1, 6), OK),
        (A, Encrypt(1, TEXT, Some(16)), CIPHERTEXT),
        (A, EncryptInit(1, ECB, 6), NO_KEY),
    ];
    play_and_run(rt.alloc(), ROWS)
}

#[test]
fn an_operation_ends_with_its_session(rt: HostRuntime) -> Result<(), Fail> {
    const ROWS: &[Row] = &[
        (A, OPEN_READ_ONLY, Told::Session(2)),
        (A, EncryptInit(2, CBC, KEY), OK),
        (A, Encrypt(1, BLOCK, Some(16)), NO_OPERATION),
        (A, Decrypt(2, CHAINED, Some(16)), NO_OPERATION),
        (A, CloseSession(2), OK),
        (A, Encrypt(2, BLOCK, Some(16)), NO_SESSION),
        (A, OPEN_READ_ONLY, Told::Session(3)),
        (A, Encrypt(3, BLOCK, Some(16)), NO_OPERATION),
    ];
    play_and_run(rt.alloc(), ROWS)
}
