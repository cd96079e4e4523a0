//! Ciphers over texts in parts: C_EncryptUpdate and C_DecryptUpdate, C_EncryptFinal and C_DecryptFinal.

use super::given::*;
use std::test::*;
use test_scripts::Step::{
    CloseSession, CreateObject, Decrypt, DecryptFinal, DecryptInit, DecryptUpdate, DestroyObject,
    Encrypt, EncryptFinal, EncryptInit, EncryptUpdate, Finish, Goes,
};
use test_scripts::given::*;
use test_scripts::{Row, Told};

/// The block of SP 800-38A in two parts, and the first bytes of what CTR makes of it.
const FIRST_14: &[u8] = b"\x6b\xc1\xbe\xe2\x2e\x40\x9f\x96\xe9\x3d\x7e\x11\x73\x93";

const FIRST_5: &[u8] = b"\x6b\xc1\xbe\xe2\x2e";

const COUNTED_5: Told = Told::Data(b"\x87\x4d\x61\x91\xb6");

/// The second block of CBC with padding, in parts.
const SECOND_1: &[u8] = b"\x89";

const SECOND_15: &[u8] = b"\x64\xe0\xb1\x49\xc1\x0b\x7b\x68\x2e\x6e\x39\xaa\xeb\x73\x1c";

#[test]
fn a_block_comes_once_all_of_its_bytes_were_given(rt: HostRuntime) -> Result<(), Fail> {
    const ROWS: &[Row] = &[
        (A, EncryptInit(1, CBC, KEY), OK),
        (A, EncryptUpdate(1, b"\x6b", Some(0)), NO_BYTES),
        (
            A,
            EncryptUpdate(
                1,
                b"\xc1\xbe\xe2\x2e\x40\x9f\x96\xe9\x3d\x7e\x11\x73\x93\x17",
                Some(0),
            ),
            NO_BYTES,
        ),
        (A, EncryptUpdate(1, b"", None), Told::Length(0)),
        (A, EncryptUpdate(1, b"\x2a", Some(16)), Told::Data(CHAINED)),
        (A, EncryptFinal(1, Some(0)), NO_BYTES),
        (A, EncryptFinal(1, Some(0)), NO_OPERATION),
        (A, DecryptInit(1, CBC_PAD, KEY), OK),
        (A, DecryptUpdate(1, CHAINED, Some(16)), NO_BYTES),
        (A, DecryptUpdate(1, SECOND_1, Some(16)), Told::Data(BLOCK)),
        (A, DecryptUpdate(1, SECOND_15, Some(16)), NO_BYTES),
        (A, DecryptFinal(1, None), Told::Length(16)),
        (A, DecryptFinal(1, Some(15)), Told::BufferTooSmall(16)),
        (A, DecryptFinal(1, Some(16)), NO_BYTES),
        (A, DecryptFinal(1, Some(16)), NO_OPERATION),
        (A, EncryptInit(1, CBC_PAD, KEY), OK),
        (A, EncryptUpdate(1, FIRST_14, Some(0)), NO_BYTES),
        (
            A,
            EncryptUpdate(1, b"\x17\x2a", Some(16)),
            Told::Data(CHAINED),
        ),
        (
            A,
            EncryptFinal(1, Some(16)),
            Told::Data(b"\x89\x64\xe0\xb1\x49\xc1\x0b\x7b\x68\x2e\x6e\x39\xaa\xeb\x73\x1c"),
        ),
    ];
    play_and_run(rt.alloc(), ROWS)
}

#[test]
fn a_text_that_ends_within_a_block_is_refused_and_ends(rt: HostRuntime) -> Result<(), Fail> {
    const ROWS: &[Row] = &[
        (A, EncryptInit(1, CBC, KEY), OK),
        (A, EncryptUpdate(1, &[0; 15], Some(0)), NO_BYTES),
        (A, EncryptFinal(1, Some(16)), WRONG_LENGTH),
        (A, EncryptFinal(1, Some(16)), NO_OPERATION),
        (A, EncryptInit(1, ECB, KEY), OK),
        (A, EncryptUpdate(1, &[0; 1], Some(0)), NO_BYTES),
        (A, EncryptFinal(1, None), WRONG_LENGTH),
        (A, EncryptUpdate(1, BLOCK, Some(16)), NO_OPERATION),
        (A, DecryptInit(1, CBC, KEY), OK),
        (A, DecryptUpdate(1, &[0; 15], Some(0)), NO_BYTES),
        (A, DecryptFinal(1, None), WRONG_ENCRYPTED_LENGTH),
        (A, DecryptFinal(1, Some(16)), NO_OPERATION),
        (A, DecryptInit(1, CBC_PAD, KEY), OK),
        (A, DecryptFinal(1, Some(0)), WRONG_ENCRYPTED_LENGTH),
        (A, DecryptFinal(1, Some(16)), NO_OPERATION),
        (A, DecryptInit(1, CBC_PAD, KEY), OK),
        (A, DecryptUpdate(1, CHAINED, Some(0)), NO_BYTES),
        (A, DecryptUpdate(1, SECOND_1, Some(16)), Told::Data(BLOCK)),
        (A, DecryptFinal(1, Some(16)), WRONG_ENCRYPTED_LENGTH),
        (A, DecryptUpdate(1, SECOND_15, Some(16)), NO_OPERATION),
    ];
    play_and_run(rt.alloc(), ROWS)
}

#[test]
fn what_is_no_padding_ends_at_the_last_call(rt: HostRuntime) -> Result<(), Fail> {
    const ROWS: &[Row] = &[
        (A, DecryptInit(1, CBC_PAD, KEY), OK),
        (A, DecryptUpdate(1, CHAINED, Some(0)), NO_BYTES),
        (A, DecryptFinal(1, None), Told::Length(16)),
        (A, DecryptFinal(1, Some(16)), WRONG_PADDING),
        (A, DecryptFinal(1, Some(16)), NO_OPERATION),
        (A, DecryptUpdate(1, CHAINED, Some(16)), NO_OPERATION),
    ];
    play_and_run(rt.alloc(), ROWS)
}

#[test]
fn a_buffer_that_is_absent_or_small_takes_nothing(rt: HostRuntime) -> Result<(), Fail> {
    const TWENTY: &[u8] =
        b"\x6b\xc1\xbe\xe2\x2e\x40\x9f\x96\xe9\x3d\x7e\x11\x73\x93\x17\x2a\x6b\xc1\xbe\xe2";
    const ENCRYPTED: Told = Told::Data(
        b"\x3a\xd7\x7b\xb4\x0d\x7a\x36\x60\xa8\x9e\xca\xf3\x24\x66\xef\x97",
    );
    const ROWS: &[Row] = &[
        (A, EncryptInit(1, ECB, KEY), OK),
        (
            A,
            EncryptUpdate(1, TWENTY, Some(15)),
            Told::BufferTooSmall(16),
        ),
        (A, EncryptUpdate(1, TWENTY, None), Told::Length(16)),
        (A, EncryptUpdate(1, TWENTY, Some(16)), ENCRYPTED),
        (A, EncryptFinal(1, None), WRONG_LENGTH),
        (A, EncryptInit(1, CBC_PAD, KEY), OK),
        (A, EncryptFinal(1, None), Told::Length(16)),
        (A, EncryptFinal(1, Some(15)), Told::BufferTooSmall(16)),
        (A, EncryptFinal(1, Some(16)), Told::Data(PADDED_NOTHING)),
        (A, DecryptInit(1, CTR, KEY), OK),
        (A, DecryptUpdate(1, COUNTED, None), Told::Length(16)),
        (
            A,
            DecryptUpdate(1, COUNTED, Some(15)),
            Told::BufferTooSmall(16),
        ),
        (A, Decrypt(1, COUNTED, Some(15)), Told::BufferTooSmall(16)),
        (A, DecryptUpdate(1, COUNTED, Some(16)), Told::Data(BLOCK)),
        (A, DecryptFinal(1, None), Told::Length(0)),
        (A, DecryptFinal(1, Some(0)), NO_BYTES),
        (A, DecryptFinal(1, None), NO_OPERATION),
    ];
    play_and_run(rt.alloc(), ROWS)
}

#[test]
fn a_single_call_after_data_was_taken_is_refused_and_ends(rt: HostRuntime) -> Result<(), Fail> {
    const ROWS: &[Row] = &[
        (A, EncryptInit(1, CTR, KEY), OK),
        (A, EncryptUpdate(1, FIRST_5, Some(5)), COUNTED_5),
        (A, Encrypt(1, b"\x40", Some(1)), OPERATION_ACTIVE),
        (A, EncryptUpdate(1, b"\x40", Some(1)), NO_OPERATION),
        (A, DecryptInit(1, CBC, KEY), OK),
        (A, DecryptUpdate(1, SECOND_1, Some(0)), NO_BYTES),
        (A, Decrypt(1, SECOND_15, None), OPERATION_ACTIVE),
        (A, DecryptUpdate(1, SECOND_15, Some(16)), NO_OPERATION),
        (A, EncryptInit(1, CBC, KEY), OK),
        (A, EncryptUpdate(1, b"", Some(0)), NO_BYTES),
        (A, Encrypt(1, BLOCK, Some(16)), Told::Data(CHAINED)),
        (A, DecryptInit(1, CTR, KEY), OK),
        (A, DecryptUpdate(1, b"", Some(0)), NO_BYTES),
        (A, Decrypt(1, COUNTED, Some(16)), Told::Data(BLOCK)),
        (A, Decrypt(1, COUNTED, Some(16)), NO_OPERATION),
    ];
    play_and_run(rt.alloc(), ROWS)
}

#[test]
fn the_end_of_a_counter_ends_an_operation_in_pieces(rt: HostRuntime) -> Result<(), Fail> {
    const KEYSTREAM_8: Told = Told::Data(b"\x57\x12\x7d\x40\x34\xb1\xbe\xbf");
    const ROWS: &[Row] = &[
        (A, EncryptInit(1, TWO_BITS, KEY), OK),
        (A, EncryptUpdate(1, &[0; 8], Some(8)), KEYSTREAM_8),
        (A, EncryptUpdate(1, &[0; 40], None), Told::Length(40)),
        (A, EncryptUpdate(1, &[0; 41], Some(41)), WRONG_LENGTH),
        (A, EncryptUpdate(1, b"", Some(0)), NO_OPERATION),
        (A, DecryptInit(1, TWO_BITS, KEY), OK),
        (A, DecryptUpdate(1, &[0; 8], Some(8)), KEYSTREAM_8),
        (A, DecryptUpdate(1, &[0; 41], None), WRONG_LENGTH),
        (A, DecryptFinal(1, Some(0)), NO_OPERATION),
        (A, EncryptInit(1, TWO_BITS, KEY), OK),
        (A, EncryptUpdate(1, &[0; 49], Some(0)), WRONG_LENGTH),
        (A, EncryptFinal(1, Some(0)), NO_OPERATION),
    ];
    play_and_run(rt.alloc(), ROWS)
}

#[test]
fn an_encryption_and_a_decryption_of_a_session_go_on_apart(rt: HostRuntime) -> Result<(), Fail> {
    const ROWS: &[Row] = &[
        (A, DecryptInit(1, CBC_PAD, KEY), OK),
        (A, EncryptUpdate(1, BLOCK, Some(16)), NO_OPERATION),
        (A, EncryptInit(1, CTR, KEY), OK),
        (A, EncryptUpdate(1, FIRST_5, Some(5)), COUNTED_5),
        (A, DecryptUpdate(1, CHAINED, Some(0)), NO_BYTES),
        (
            A,
            EncryptUpdate(1, b"\x40\x9f\x96", Some(3)),
            Told::Data(b"\x20\xe3\x26"),
        ),
        (A, DecryptUpdate(1, SECOND_1, Some(16)), Told::Data(BLOCK)),
        (A, Encrypt(1, FIRST_5, Some(5)), OPERATION_ACTIVE),
        (A, DecryptUpdate(1, SECOND_15, Some(0)), NO_BYTES),
        (A, EncryptFinal(1, Some(0)), NO_OPERATION),
        (A, EncryptInit(1, CBC, KEY), OK),
        (A, DecryptFinal(1, Some(16)), NO_BYTES),
        (A, DecryptFinal(1, Some(16)), NO_OPERATION),
        (A, Encrypt(1, BLOCK, Some(16)), Told::Data(CHAINED)),
    ];
    play_and_run(rt.alloc(), ROWS)
}

#[test]
fn operations_of_two_sessions_go_on_apart(rt: HostRuntime) -> Result<(), Fail> {
    const ROWS: &[Row] = &[
        (A, OPEN_READ_ONLY, Told::Session(2)),
        (A, EncryptInit(1, CBC, KEY), OK),
        (A, EncryptInit(2, CTR, KEY), OK),
        (A, EncryptUpdate(1, FIRST_14, Some(0)), NO_BYTES),
        (A, EncryptUpdate(2, FIRST_5, Some(5)), COUNTED_5),
        (
            A,
            EncryptUpdate(1, b"\x17\x2a", Some(16)),
            Told::Data(CHAINED),
        ),
        (A, CloseSession(1), OK),
        (A, EncryptFinal(1, Some(0)), NO_SESSION),
        (
            A,
            EncryptUpdate(2, b"\x40\x9f\x96", Some(3)),
            Told::Data(b"\x20\xe3\x26"),
        ),
        (A, EncryptFinal(2, Some(0)), NO_BYTES),
    ];
    play_and_run(rt.alloc(), ROWS)
}

#[test]
fn an_operation_runs_on_though_its_key_goes_between_updates(rt: HostRuntime) -> Result<(), Fail> {
    const ROWS: &[Row] = &[
        (A, EncryptInit(1, CBC_PAD, KEY), OK),
        (A, DecryptInit(1, CBC_PAD, KEY), OK),
        (A, EncryptUpdate(1, FIRST_14, Some(0)), NO_BYTES),
        (A, DecryptUpdate(1, CHAINED, Some(0)), NO_BYTES),
        (A, DestroyObject(1, KEY), OK),
        (
            A,
            EncryptUpdate(1, b"\x17\x2a", Some(16)),
            Told::Data(CHAINED),
        ),
        (A, DecryptUpdate(1, SECOND_1, Some(16)), Told::Data(BLOCK)),
        (
            A,
            EncryptFinal(1, Some(16)),
            Told::Data(b"\x89\x64\xe0\xb1\x49\xc1\x0b\x7b\x68\x2e\x6e\x39\xaa\xeb\x73\x1c"),
        ),
        (A, DecryptUpdate(1, SECOND_15, Some(0)), NO_BYTES),
        (A, DecryptFinal(1, Some(16)), NO_BYTES),
        (A, DecryptInit(1, CBC_PAD, KEY), NO_KEY),
    ];
    play_and_run(rt.alloc(), ROWS)
}

#[test]
fn a_pending_update_holds_its_operation_for_others_to_wait(rt: HostRuntime) -> Result<(), Fail> {
    const ROWS: &[Row] = &[
        (B, OPEN, Told::Session(1)),
        (B, CreateObject(1, TOKEN_KEY), Told::Object(1)),
        (B, EncryptInit(1, ECB, 1), OK),
        (A, EncryptInit(1, CBC, KEY), OK),
        (A, DecryptInit(1, CTR, KEY), OK),
        (A, EncryptUpdate(1, FIRST_14, Some(0)), Told::Nothing),
        (A, EncryptUpdate(1, b"\x17\x2a", Some(16)), FAILED),
        (A, EncryptFinal(1, Some(0)), FAILED),
        (A, EncryptInit(1, None, KEY), FAILED),
        (A, DecryptUpdate(1, COUNTED, Some(16)), FAILED),
        (B, Encrypt(1, TEXT, Some(16)), Told::Nothing),
        (A, Finish, NO_BYTES),
        (A, EncryptUpdate(1, b"\x17\x2a", Some(16)), Told::Nothing),
        (B, Finish, CIPHERTEXT),
        (B, Encrypt(1, TEXT, Some(16)), NO_OPERATION),
        (A, Finish, Told::Data(CHAINED)),
        (A, DecryptUpdate(1, COUNTED, Some(16)), Told::Nothing),
        (A, Finish, Told::Data(BLOCK)),
        (A, EncryptFinal(1, Some(0)), Told::Nothing),
        (A, Goes, Told::Nothing),
        (A, Finish, Told::Nothing),
        (A, EncryptFinal(1, Some(0)), NO_SESSION),
    ];
    play_and_run_questions(rt.alloc(), ROWS)
}
