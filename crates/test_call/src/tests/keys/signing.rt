//! How operations that sign begin, go on and end (PKCS #11 v3.1, 5.2 and 5.13).

use super::given::*;
use ck_types::Rv;
use std::process::Abort;
use std::test::*;
use test_scripts::Step::{DestroyObject, Sign, SignFinal, SignInit, SignUpdate, VerifyInit};
use test_scripts::given::*;
use test_scripts::{Row, Told, play_and_run};

#[test]
fn an_operation_begins_under_a_key_of_its_mechanism(rt: HostRuntime) -> Result<(), Fail> {
    const ROWS: &[Row] = &[
        (A, SignInit(1, None, 0), OK),
        (A, SignInit(1, None, 0), OK),
        (A, Sign(1, BLOCK, Some(16)), NO_OPERATION),
        (
            A,
            SignInit(1, SHA256_HMAC, AES_KEY),
            Told::Code(Rv::KeyTypeInconsistent),
        ),
        (
            A,
            SignInit(1, AES_CMAC, SECRET),
            Told::Code(Rv::KeyTypeInconsistent),
        ),
        (
            A,
            SignInit(1, ECB, AES_KEY),
            Told::Code(Rv::MechanismInvalid),
        ),
        (
            A,
            SignInit(1, Some((0x251, b"x")), SECRET),
            Told::Code(Rv::MechanismParamInvalid),
        ),
        (A, SignInit(1, AES_CMAC, 9), NO_KEY),
        (A, SignInit(1, AES_CMAC, AES_KEY), OK),
        (A, SignInit(1, ECB, AES_KEY), OPERATION_ACTIVE),
        (A, VerifyInit(1, AES_CMAC, AES_KEY), OK),
        (A, SignInit(1, None, 0), OK),
        (A, SignUpdate(1, BLOCK), NO_OPERATION),
    ];
    play_and_run(rt.alloc(), KEYS, ROWS)
}

#[test]
fn an_operation_keeps_its_own_copy_of_the_key(rt: HostRuntime) -> Result<(), Fail> {
    const ROWS: &[Row] = &[
        (A, SignInit(1, AES_CMAC, AES_KEY), OK),
        (A, DestroyObject(1, AES_KEY), OK),
        (A, Sign(1, BLOCK, Some(16)), Told::Data(CODE_OF_BLOCK)),
        (A, SignInit(1, AES_CMAC, AES_KEY), NO_KEY),
    ];
    play_and_run(rt.alloc(), KEYS, ROWS)
}

#[test]
fn a_length_is_told_and_the_operation_goes_on(rt: HostRuntime) -> Result<(), Fail> {
    const ROWS: &[Row] = &[
        (A, SignInit(1, SHA256_HMAC, SECRET), OK),
        (A, Sign(1, HI_THERE, None), Told::Length(32)),
        (A, Sign(1, HI_THERE, Some(31)), Told::BufferTooSmall(32)),
        (A, Sign(1, HI_THERE, Some(32)), Told::Data(SHA256_CODE)),
        (A, Sign(1, HI_THERE, Some(32)), NO_OPERATION),
        (A, SignInit(1, SHA256_HMAC, SECRET), OK),
        (A, SignUpdate(1, HI_THERE), OK),
        (A, SignFinal(1, None), Told::Length(32)),
        (A, SignFinal(1, Some(31)), Told::BufferTooSmall(32)),
        (A, SignFinal(1, Some(32)), Told::Data(SHA256_CODE)),
    ];
    play_and_run(rt.alloc(), KEYS, ROWS)
}

#[test]
fn all_data_at_once_is_the_only_data(rt: HostRuntime) -> Result<(), Fail> {
    const ROWS: &[Row] = &[
        (A, SignInit(1, AES_CMAC, AES_KEY), OK),
        (A, SignUpdate(1, b""), OK),
        (A, Sign(1, BLOCK, Some(16)), Told::Data(CODE_OF_BLOCK)),
        (A, SignInit(1, AES_CMAC, AES_KEY), OK),
        (A, SignUpdate(1, b"x"), OK),
        (A, Sign(1, BLOCK, Some(16)), OPERATION_ACTIVE),
        (A, SignFinal(1, Some(16)), NO_OPERATION),
    ];
    play_and_run(rt.alloc(), KEYS, ROWS)
}
