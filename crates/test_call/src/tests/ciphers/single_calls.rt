//! Texts in single calls: C_Encrypt and C_Decrypt.

use super::given::*;
use std::test::*;
use test_scripts::Step::{Decrypt, DecryptInit, Encrypt, EncryptInit};
use test_scripts::given::*;
use test_scripts::{GivenMechanism, Row, Told};

#[test]
fn each_mechanism_gives_its_known_answer_both_ways(rt: HostRuntime) -> Result<(), Fail> {
    const ENCRYPTED_256: &[u8] =
        b"\x8e\xa2\xb7\xca\x51\x67\x45\xbf\xea\xfc\x49\x90\x4b\x49\x60\x89";
    const ROWS: &[Row] = &[
        (A, DecryptInit(1, ECB, KEY_256), OK),
        (A, Decrypt(1, ENCRYPTED_256, Some(16)), Told::Data(TEXT)),
        (A, EncryptInit(1, ECB, KEY_256), OK),
        (A, Encrypt(1, TEXT, Some(16)), Told::Data(ENCRYPTED_256)),
        (A, EncryptInit(1, CBC, KEY), OK),
        (A, Encrypt(1, BLOCK, Some(16)), Told::Data(CHAINED)),
        (A, DecryptInit(1, CBC, KEY), OK),
        (A, Decrypt(1, CHAINED, Some(16)), Told::Data(BLOCK)),
        (A, EncryptInit(1, CBC_PAD, KEY), OK),
        (A, Encrypt(1, b"", Some(16)), Told::Data(PADDED_NOTHING)),
        (A, DecryptInit(1, CBC_PAD, KEY), OK),
        (A, Decrypt(1, PADDED_NOTHING, Some(16)), NO_BYTES),
        (A, EncryptInit(1, CBC_PAD, KEY), OK),
        (A, Encrypt(1, BLOCK, Some(32)), Told::Data(PADDED_BLOCK)),
        (A, DecryptInit(1, CBC_PAD, KEY), OK),
        (A, Decrypt(1, PADDED_BLOCK, Some(32)), Told::Data(BLOCK)),
        (A, EncryptInit(1, CTR, KEY), OK),
        (A, Encrypt(1, BLOCK, Some(16)), Told::Data(COUNTED)),
        (A, DecryptInit(1, CTR, KEY), OK),
        (A, Decrypt(1, COUNTED, Some(16)), Told::Data(BLOCK)),
    ];
    play_and_run(rt.alloc(), ROWS)
}

#[test]
fn what_is_no_padding_ends_a_decryption(rt: HostRuntime) -> Result<(), Fail> {
    const ROWS: &[Row] = &[
        (A, DecryptInit(1, PAD_OF_0, KEY), OK),
        (A, Decrypt(1, PADDED_NOTHING, Some(16)), WRONG_PADDING),
        (A, Decrypt(1, PADDED_NOTHING, Some(16)), NO_OPERATION),
        (A, DecryptInit(1, PAD_OF_17, KEY), OK),
        (A, Decrypt(1, PADDED_NOTHING, Some(16)), WRONG_PADDING),
        (A, DecryptInit(1, UNEQUAL_PAD, KEY), OK),
        (A, Decrypt(1, PADDED_NOTHING, None), Told::Length(16)),
        (A, Decrypt(1, PADDED_NOTHING, Some(16)), WRONG_PADDING),
        (A, Decrypt(1, PADDED_NOTHING, Some(16)), NO_OPERATION),
        (A, DecryptInit(1, PAD_OF_1, KEY), OK),
        (
            A,
            Decrypt(1, PADDED_NOTHING, Some(16)),
            Told::Data(&[16; 15]),
        ),
    ];
    play_and_run(rt.alloc(), ROWS)
}

#[test]
fn a_length_that_is_refused_ends_an_operation(rt: HostRuntime) -> Result<(), Fail> {
    const ROWS: &[Row] = &[
        (A, EncryptInit(1, ECB, KEY), OK),
        (A, Encrypt(1, &[0; 15], Some(15)), WRONG_LENGTH),
        (A, Encrypt(1, BLOCK, Some(16)), NO_OPERATION),
        (A, EncryptInit(1, CBC, KEY), OK),
        (A, Encrypt(1, &[0; 17], None), WRONG_LENGTH),
        (A, Encrypt(1, BLOCK, Some(16)), NO_OPERATION),
        (A, DecryptInit(1, ECB, KEY), OK),
        (A, Decrypt(1, &[0; 17], Some(0)), WRONG_ENCRYPTED_LENGTH),
        (A, Decrypt(1, BLOCK, Some(16)), NO_OPERATION),
        (A, DecryptInit(1, CBC, KEY), OK),
        (A, Decrypt(1, &[0; 15], Some(16)), WRONG_ENCRYPTED_LENGTH),
        (A, Decrypt(1, BLOCK, Some(16)), NO_OPERATION),
        (A, DecryptInit(1, CBC_PAD, KEY), OK),
        (A, Decrypt(1, b"", Some(16)), WRONG_ENCRYPTED_LENGTH),
        (A, Decrypt(1, PADDED_NOTHING, Some(16)), NO_OPERATION),
        (A, DecryptInit(1, CBC_PAD, KEY), OK),
        (A, Decrypt(1, &[0; 31], None), WRONG_ENCRYPTED_LENGTH),
        (A, Decrypt(1, PADDED_NOTHING, Some(16)), NO_OPERATION),
    ];
    play_and_run(rt.alloc(), ROWS)
}

#[test]
fn texts_of_no_byte_have_no_blocks(rt: HostRuntime) -> Result<(), Fail> {
    const ROWS: &[Row] = &[
        (A, EncryptInit(1, ECB, KEY), OK),
        (A, Encrypt(1, b"", None), Told::Length(0)),
        (A, Encrypt(1, b"", Some(0)), NO_BYTES),
        (A, DecryptInit(1, CBC, KEY), OK),
        (A, Decrypt(1, b"", Some(0)), NO_BYTES),
        (A, DecryptInit(1, CTR, KEY), OK),
        (A, Decrypt(1, b"", Some(0)), NO_BYTES),
        (A, Decrypt(1, b"", Some(0)), NO_OPERATION),
    ];
    play_and_run(rt.alloc(), ROWS)
}

/// The keystream of the three blocks that two bits count from 1 on.
const KEYSTREAM: &[u8] = b"\x57\x12\x7d\x40\x34\xb1\xbe\xbf\xae\xf4\x66\xb9\xc7\x72\x6f\xc6\
\x97\x3f\x2e\xf3\x48\x79\xe2\x02\x7f\x17\x34\x30\x3f\xf2\x1f\x89\
\x46\x9c\x7f\xcb\x75\xd5\xd9\xa1\xb4\x18\xcb\x99\x7b\x09\xa1\x85";

/// CKM_AES_CTR with 128 bits that are all ones, which count one block.
const LAST_COUNTER: Option<GivenMechanism> = Some((
    CTR_NUMBER,
    b"\x00\x00\x00\x00\x00\x00\x00\x80\xff\xff\xff\xff\xff\xff\xff\xff\xff\xff\xff\xff\xff\xff\xff\xff",
));

#[test]
fn the_end_of_a_counter_ends_an_operation_both_ways(rt: HostRuntime) -> Result<(), Fail> {
    const ROWS: &[Row] = &[
        (A, EncryptInit(1, TWO_BITS, KEY), OK),
        (A, Encrypt(1, &[0; 48], Some(48)), Told::Data(KEYSTREAM)),
        (A, EncryptInit(1, TWO_BITS, KEY), OK),
        (A, Encrypt(1, &[0; 49], Some(49)), WRONG_LENGTH),
        (A, Encrypt(1, BLOCK, Some(16)), NO_OPERATION),
        (A, DecryptInit(1, TWO_BITS, KEY), OK),
        (A, Decrypt(1, KEYSTREAM, Some(48)), Told::Data(&[0; 48])),
        (A, DecryptInit(1, TWO_BITS, KEY), OK),
        (A, Decrypt(1, &[0; 49], None), WRONG_LENGTH),
        (A, Decrypt(1, BLOCK, Some(16)), NO_OPERATION),
        (A, EncryptInit(1, LAST_COUNTER, KEY), OK),
        (A, Encrypt(1, BLOCK, None), Told::Length(16)),
        (A, Encrypt(1, &[0; 17], Some(3)), WRONG_LENGTH),
        (A, Encrypt(1, BLOCK, Some(16)), NO_OPERATION),
    ];
    play_and_run(rt.alloc(), ROWS)
}

#[test]
fn a_buffer_that_is_absent_or_small_ends_nothing(rt: HostRuntime) -> Result<(), Fail> {
    const ENCRYPTED: Told = Told::Data(
        b"\x3a\xd7\x7b\xb4\x0d\x7a\x36\x60\xa8\x9e\xca\xf3\x24\x66\xef\x97",
    );
    const ROWS: &[Row] = &[
        (A, EncryptInit(1, ECB, KEY), OK),
        (A, Encrypt(1, BLOCK, Some(15)), Told::BufferTooSmall(16)),
        (A, Encrypt(1, BLOCK, None), Told::Length(16)),
        (A, Encrypt(1, BLOCK, Some(16)), ENCRYPTED),
        (A, Encrypt(1, BLOCK, Some(16)), NO_OPERATION),
        (A, EncryptInit(1, CBC_PAD, KEY), OK),
        (A, Encrypt(1, BLOCK, None), Told::Length(32)),
        (A, Encrypt(1, BLOCK, Some(31)), Told::BufferTooSmall(32)),
        (A, Encrypt(1, BLOCK, Some(99)), Told::Data(PADDED_BLOCK)),
        (A, DecryptInit(1, CBC_PAD, KEY), OK),
        (A, Decrypt(1, PADDED_BLOCK, None), Told::Length(32)),
        (
            A,
            Decrypt(1, PADDED_BLOCK, Some(31)),
            Told::BufferTooSmall(32),
        ),
        (A, Decrypt(1, PADDED_BLOCK, Some(32)), Told::Data(BLOCK)),
        (A, DecryptInit(1, CTR, KEY), OK),
        (A, Decrypt(1, COUNTED, Some(0)), Told::BufferTooSmall(16)),
        (A, Decrypt(1, COUNTED, Some(16)), Told::Data(BLOCK)),
        (A, Decrypt(1, COUNTED, None), NO_OPERATION),
    ];
    play_and_run(rt.alloc(), ROWS)
}
