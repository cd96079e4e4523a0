//! How signatures are verified (PKCS #11 v3.1, 5.2 and 5.15): all of their bytes count, and every end ends the operation.

use super::given::*;
use std::process::Abort;
use std::test::*;
use test_scripts::Step::{Verify, VerifyFinal, VerifyInit, VerifyUpdate};
use test_scripts::given::*;
use test_scripts::{Row, play_and_run};

#[test]
fn a_signature_is_right_as_a_whole(rt: HostRuntime) -> Result<(), Fail> {
    const ROWS: &[Row] = &[
        (A, VerifyInit(1, SHA256_HMAC, SECRET), OK),
        (A, Verify(1, HI_THERE, SHA256_CODE), OK),
        (A, Verify(1, HI_THERE, SHA256_CODE), NO_OPERATION),
        (A, VerifyInit(1, SHA256_HMAC, SECRET), OK),
        (A, Verify(1, HI_THERE, SHORTER_CODE), SIGNATURE_LENGTH),
        (A, Verify(1, HI_THERE, SHA256_CODE), NO_OPERATION),
        (A, VerifyInit(1, SHA256_HMAC, SECRET), OK),
        (A, Verify(1, HI_THERE, OTHER_CODE), WRONG_SIGNATURE),
        (A, Verify(1, HI_THERE, SHA256_CODE), NO_OPERATION),
        (A, VerifyInit(1, SHA256_HMAC, SECRET), OK),
        (A, Verify(1, b"hi There", SHA256_CODE), WRONG_SIGNATURE),
    ];
    play_and_run(rt.alloc(), KEYS, ROWS)
}

#[test]
fn pieces_are_verified_as_the_whole(rt: HostRuntime) -> Result<(), Fail> {
    const ROWS: &[Row] = &[
        (A, VerifyUpdate(1, HI_THERE), NO_OPERATION),
        (A, VerifyInit(1, SHA256_HMAC, SECRET), OK),
        (A, VerifyUpdate(1, b"Hi "), OK),
        (A, VerifyUpdate(1, b"There"), OK),
        (A, VerifyFinal(1, SHA256_CODE), OK),
        (A, VerifyInit(1, SHA256_HMAC, SECRET), OK),
        (A, VerifyUpdate(1, b"Hi "), OK),
        (A, Verify(1, b"There", SHA256_CODE), OPERATION_ACTIVE),
        (A, VerifyFinal(1, SHA256_CODE), NO_OPERATION),
        (A, VerifyInit(1, SHA256_HMAC, SECRET), OK),
        (A, VerifyUpdate(1, HI_THERE), OK),
        (A, VerifyFinal(1, SHORTER_CODE), SIGNATURE_LENGTH),
        (A, VerifyFinal(1, SHA256_CODE), NO_OPERATION),
        (A, VerifyInit(1, SHA256_HMAC, SECRET), OK),
        (A, VerifyFinal(1, SHA256_CODE), WRONG_SIGNATURE),
    ];
    play_and_run(rt.alloc(), KEYS, ROWS)
}
