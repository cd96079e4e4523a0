//! The MACs are those of their standards' vectors (SP 800-38B, D.1; RFC 4231, 4.2), whole and in parts.

use super::given::*;
use std::process::Abort;
use std::test::*;
use test_scripts::Step::{Sign, SignFinal, SignInit, SignUpdate, Verify, VerifyInit};
use test_scripts::given::*;
use test_scripts::{Row, Told, play_and_run};

#[test]
fn codes_are_those_of_the_vectors(rt: HostRuntime) -> Result<(), Fail> {
    const ROWS: &[Row] = &[
        (A, SignInit(1, AES_CMAC, AES_KEY), OK),
        (A, Sign(1, b"", Some(16)), Told::Data(CODE_OF_NOTHING)),
        (A, SignInit(1, AES_CMAC, AES_KEY), OK),
        (A, Sign(1, BLOCK, Some(16)), Told::Data(CODE_OF_BLOCK)),
        (A, SignInit(1, SHA256_HMAC, SECRET), OK),
        (A, Sign(1, HI_THERE, Some(32)), Told::Data(SHA256_CODE)),
        (A, SignInit(1, SHA224_HMAC, SECRET), OK),
        (A, Sign(1, HI_THERE, Some(28)), Told::Data(SHA224_CODE)),
        (A, SignInit(1, SHA384_HMAC, SECRET), OK),
        (A, Sign(1, HI_THERE, Some(48)), Told::Data(SHA384_CODE)),
        (A, SignInit(1, SHA512_HMAC, SECRET), OK),
        (A, Sign(1, HI_THERE, Some(64)), Told::Data(SHA512_CODE)),
        (A, VerifyInit(1, AES_CMAC, AES_KEY), OK),
        (A, Verify(1, BLOCK, CODE_OF_BLOCK), OK),
        (A, VerifyInit(1, SHA512_HMAC, SECRET), OK),
        (A, Verify(1, HI_THERE, SHA512_CODE), OK),
    ];
    play_and_run(rt.alloc(), KEYS, ROWS)
}

#[test]
fn pieces_have_the_code_of_the_whole(rt: HostRuntime) -> Result<(), Fail> {
    const ROWS: &[Row] = &[
        (A, SignInit(1, SHA256_HMAC, SECRET), OK),
        (A, SignUpdate(1, b"Hi "), OK),
        (A, SignUpdate(1, b""), OK),
        (A, SignUpdate(1, b"There"), OK),
        (A, SignFinal(1, Some(32)), Told::Data(SHA256_CODE)),
        (A, SignInit(1, AES_CMAC, AES_KEY), OK),
        (A, SignFinal(1, Some(16)), Told::Data(CODE_OF_NOTHING)),
        (A, SignFinal(1, Some(16)), NO_OPERATION),
    ];
    play_and_run(rt.alloc(), KEYS, ROWS)
}
