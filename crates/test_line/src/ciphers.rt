//! Ciphers through a line: the payloads of calls and of their replies, in hexadecimal.

use crate::tests::served;
use std::alloc::Global;
use std::process::Abort;
use std::test::*;
use wire::FrameReader;

/// The payload of a call and that of its reply, in parts.
pub(crate) type Row = (&'static [&'static str], &'static [&'static str]);

const ENCRYPT_INIT: &str = "0016";

const ENCRYPT: &str = "0017";

const ENCRYPT_UPDATE: &str = "0018";

const ENCRYPT_FINAL: &str = "0019";

const DECRYPT_INIT: &str = "001a";

const DECRYPT: &str = "001b";

const DECRYPT_UPDATE: &str = "001c";

const DECRYPT_FINAL: &str = "001d";

/// The one session.
const SESSION: &str = "0000000000000001";

/// The keys of SP 800-38A, appendix F, and of FIPS 197, C.3.
const KEY: &str = "0000000000000001";

const KEY_256: &str = "0000000000000002";

/// Makes a public AES key, whose value comes next.
const CREATE_KEY: &str =
    "000d 0000000000000001 00000004 0000000000000000 00000008 0000000000000004 \
0000000000000100 00000008 000000000000001f 0000000000000002 00000001 00 0000000000000011";

/// What each script begins with: a session, and the two keys.
const BEFORE: &[Row] = &[
    (
        &["0007 0000000000000000 0000000000000006"],
        &[OK, "0000000000000001"],
    ),
    (
        &[CREATE_KEY, "00000010 2b7e151628aed2a6abf7158809cf4f3c"],
        &[OK, KEY],
    ),
    (
        &[
            CREATE_KEY,
            "00000020 000102030405060708090a0b0c0d0e0f101112131415161718191a1b1c1d1e1f",
        ],
        &[OK, KEY_256],
    ),
];

/// Mechanisms with their parameters, and none.
const NO_MECHANISM: &str = "00";

const ECB: &str = "01 0000000000001081 00000000";

const CBC: &str = "01 0000000000001082 00000010 000102030405060708090a0b0c0d0e0f";

const CBC_PAD: &str = "01 0000000000001085 00000010 000102030405060708090a0b0c0d0e0f";

const CTR: &str = "01 0000000000001086 00000018 0000000000000080 f0f1f2f3f4f5f6f7f8f9fafbfcfdfeff";

/// Two bits that count from one on.
const TWO_BITS: &str =
    "01 0000000000001086 00000018 0000000000000002 00000000000000000000000000000001";

/// No buffer, and buffers of so many bytes.
const NO_BUFFER: &str = "00";

const ROOM_0: &str = "01 0000000000000000";

const ROOM_15: &str = "01 000000000000000f";

const ROOM_16: &str = "01 0000000000000010";

const ROOM_64: &str = "01 0000000000000040";

/// Codes.
const OK: &str = "0000000000000000";

const DATA_LEN_RANGE: &str = "0000000000000021";

const ENCRYPTED_DATA_INVALID: &str = "0000000000000040";

const ENCRYPTED_DATA_LEN_RANGE: &str = "0000000000000041";

const MECHANISM_PARAM_INVALID: &str = "0000000000000071";

const OPERATION_ACTIVE: &str = "0000000000000090";

const OPERATION_NOT_INITIALIZED: &str = "0000000000000091";

const BUFFER_TOO_SMALL: &str = "0000000000000150";

/// Outputs: data that come next, no data, and lengths.
const DATA: &str = "01";

const NO_DATA: &str = "01 00000000";

const LENGTH_0: &str = "00 0000000000000000";

const LENGTH_16: &str = "00 0000000000000010";

/// Texts, each with its length: none, the block of FIPS 197, C.3, the first block of SP 800-38A, appendix F, and its parts.
const NO_TEXT: &str = "00000000";

const FIPS_BLOCK: &str = "00000010 00112233445566778899aabbccddeeff";

const FIPS_ENCRYPTED: &str = "00000010 8ea2b7ca516745bfeafc49904b496089";

const BLOCK: &str = "00000010 6bc1bee22e409f96e93d7e117393172a";

const BYTE_1: &str = "00000001 6b";

const BYTES_2_TO_15: &str = "0000000e c1bee22e409f96e93d7e11739317";

const BYTE_16: &str = "00000001 2a";

const BYTES_1_TO_5: &str = "00000005 6bc1bee22e";

/// What CBC and CTR make of that block, and CBC with padding of no text.
const CHAINED: &str = "00000010 7649abac8119b246cee98e9b12e9197d";

const COUNTED: &str = "00000010 874d6191b620e3261bef6864990db6ce";

const COUNTED_5: &str = "00000005 874d6191b6";

const PADDED: &str = "00000010 c84af0b613435d5d9182801a9bd9320b";

/// The second block of CBC with padding of that block, in parts.
const PAD_BYTE: &str = "00000001 89";

const PAD_REST: &str = "0000000f 64e0b149c10b7b682e6e39aaeb731c";

/// The bytes of words in hexadecimal with blanks between them.
fn add_bytes(alloc: Global, bytes: &mut Vec<u8>, words: &str) -> Result<(), Fail> {
    for word in words.split_whitespace() {
        bytes.extend_from_slice(&hex::decode(alloc, word)?)?;
    }
    Ok(())
}

fn bytes_of(alloc: Global, parts: &[&str]) -> Result<Vec<u8>, Fail> {
    let mut bytes = Vec::new(alloc);
    for part in parts {
        add_bytes(alloc, &mut bytes, part)?;
    }
    Ok(bytes)
}

/// The frames of the calls.
fn frames_of(alloc: Global, rows: &[Row]) -> Result<Vec<u8>, Fail> {
    let mut frames = Vec::new(alloc);
    for (call, _) in rows {
        let payload = bytes_of(alloc, call)?;
        let len = u32::try_from(payload.len())?;
        frames.extend_from_slice(&len.to_be_bytes())?;
        frames.extend_from_slice(&payload)?;
    }
    Ok(frames)
}

/// Sees that each call has its reply, and that there are no others.
fn expect_replies(
    rt: &impl Abort,
    alloc: Global,
    written: &[u8],
    rows: &[Row],
) -> Result<(), Fail> {
    let mut frames = FrameReader::new(alloc);
    frames.feed(written)?;
    for (number, (_, reply)) in rows.iter().enumerate() {
        let payload = frames.next(alloc)?;
        let wanted = Some(bytes_of(alloc, reply)?);
        assert!(rt;
            payload == wanted,
            "row {number}: wanted {wanted:?}, got {payload:?}"
        );
    }
    assert!(rt; frames.is_empty(), "replies that no row tells");
    Ok(())
}

/// Sees that a line for a new token goes as the rows are written.
pub(crate) fn expect_line(rt: &impl Abort, alloc: Global, rows: &[Row]) -> Result<(), Fail> {
    let (ended, written, _) = served(alloc, &frames_of(alloc, rows)?)?;
    assert_eq!(rt; ended, Ok(rows.len() as u64));
    expect_replies(rt, alloc, &written, rows)
}

/// And one for a token with the keys.
fn expect_rows(rt: &impl Abort, alloc: Global, rows: &[Row]) -> Result<(), Fail> {
    let mut all = Vec::from_slice(alloc, BEFORE)?;
    all.extend_from_slice(rows)?;
    expect_line(rt, alloc, &all)
}

#[test]
fn each_mechanism_gives_its_known_answer_both_ways(rt: HostRuntime) -> Result<(), Fail> {
    const ROWS: &[Row] = &[
        (&[DECRYPT_INIT, SESSION, ECB, KEY_256], &[OK]),
        (
            &[DECRYPT, SESSION, FIPS_ENCRYPTED, ROOM_16],
            &[OK, DATA, FIPS_BLOCK],
        ),
        (&[ENCRYPT_INIT, SESSION, ECB, KEY_256], &[OK]),
        (
            &[ENCRYPT, SESSION, FIPS_BLOCK, ROOM_16],
            &[OK, DATA, FIPS_ENCRYPTED],
        ),
        (&[ENCRYPT_INIT, SESSION, CBC, KEY], &[OK]),
        (&[ENCRYPT, SESSION, BLOCK, ROOM_16], &[OK, DATA, CHAINED]),
        (&[DECRYPT_INIT, SESSION, CBC, KEY], &[OK]),
        (&[DECRYPT, SESSION, CHAINED, ROOM_16], &[OK, DATA, BLOCK]),
        (&[ENCRYPT_INIT, SESSION, CBC_PAD, KEY], &[OK]),
        (&[ENCRYPT, SESSION, NO_TEXT, ROOM_16], &[OK, DATA, PADDED]),
        (&[DECRYPT_INIT, SESSION, CBC_PAD, KEY], &[OK]),
        (&[DECRYPT, SESSION, PADDED, ROOM_16], &[OK, NO_DATA]),
        (&[ENCRYPT_INIT, SESSION, CTR, KEY], &[OK]),
        (&[ENCRYPT, SESSION, BLOCK, ROOM_16], &[OK, DATA, COUNTED]),
        (&[DECRYPT_INIT, SESSION, CTR, KEY], &[OK]),
        (&[DECRYPT, SESSION, COUNTED, ROOM_16], &[OK, DATA, BLOCK]),
    ];
    expect_rows(&rt, rt.alloc(), ROWS)
}

#[test]
fn a_text_in_pieces_is_answered_as_they_come(rt: HostRuntime) -> Result<(), Fail> {
    const ROWS: &[Row] = &[
        (&[ENCRYPT_INIT, SESSION, CBC, KEY], &[OK]),
        (&[ENCRYPT_UPDATE, SESSION, BYTE_1, ROOM_0], &[OK, NO_DATA]),
        (
            &[ENCRYPT_UPDATE, SESSION, BYTES_2_TO_15, ROOM_0],
            &[OK, NO_DATA],
        ),
        (
            &[ENCRYPT_UPDATE, SESSION, BYTE_16, ROOM_16],
            &[OK, DATA, CHAINED],
        ),
        (&[ENCRYPT_FINAL, SESSION, ROOM_0], &[OK, NO_DATA]),
        (
            &[ENCRYPT_FINAL, SESSION, ROOM_0],
            &[OPERATION_NOT_INITIALIZED],
        ),
        (&[ENCRYPT_INIT, SESSION, CBC, KEY], &[OK]),
        (
            &[ENCRYPT_UPDATE, SESSION, BYTES_2_TO_15, ROOM_0],
            &[OK, NO_DATA],
        ),
        (&[ENCRYPT_UPDATE, SESSION, BYTE_1, ROOM_0], &[OK, NO_DATA]),
        (&[ENCRYPT_FINAL, SESSION, NO_BUFFER], &[DATA_LEN_RANGE]),
        (
            &[ENCRYPT_FINAL, SESSION, ROOM_0],
            &[OPERATION_NOT_INITIALIZED],
        ),
        (&[DECRYPT_INIT, SESSION, CBC_PAD, KEY], &[OK]),
        (&[DECRYPT_UPDATE, SESSION, CHAINED, ROOM_16], &[OK, NO_DATA]),
        (
            &[DECRYPT_UPDATE, SESSION, PAD_BYTE, ROOM_16],
            &[OK, DATA, BLOCK],
        ),
        (&[DECRYPT_UPDATE, SESSION, PAD_REST, ROOM_0], &[OK, NO_DATA]),
        (&[DECRYPT_FINAL, SESSION, NO_BUFFER], &[OK, LENGTH_16]),
        (
            &[DECRYPT_FINAL, SESSION, ROOM_15],
            &[BUFFER_TOO_SMALL, LENGTH_16],
        ),
        (&[DECRYPT_FINAL, SESSION, ROOM_16], &[OK, NO_DATA]),
        (
            &[DECRYPT_FINAL, SESSION, ROOM_16],
            &[OPERATION_NOT_INITIALIZED],
        ),
        (&[ENCRYPT_INIT, SESSION, CTR, KEY], &[OK]),
        (
            &[ENCRYPT_UPDATE, SESSION, BYTES_1_TO_5, ROOM_16],
            &[OK, DATA, COUNTED_5],
        ),
        (&[ENCRYPT, SESSION, BYTE_1, ROOM_16], &[OPERATION_ACTIVE]),
        (
            &[ENCRYPT_UPDATE, SESSION, BYTE_1, ROOM_16],
            &[OPERATION_NOT_INITIALIZED],
        ),
    ];
    expect_rows(&rt, rt.alloc(), ROWS)
}

#[test]
fn what_is_no_padding_ends_a_decryption(rt: HostRuntime) -> Result<(), Fail> {
    const ROWS: &[Row] = &[
        (
            &[
                DECRYPT_INIT,
                SESSION,
                "01 0000000000001085 00000010 000102030405060708090a0b0c0d0e1f",
                KEY,
            ],
            &[OK],
        ),
        (
            &[DECRYPT, SESSION, PADDED, ROOM_16],
            &[ENCRYPTED_DATA_INVALID],
        ),
        (
            &[DECRYPT, SESSION, PADDED, ROOM_16],
            &[OPERATION_NOT_INITIALIZED],
        ),
        (
            &[
                DECRYPT_INIT,
                SESSION,
                "01 0000000000001085 00000010 000102030405060708090a0b0c0d0e0e",
                KEY,
            ],
            &[OK],
        ),
        (
            &[DECRYPT, SESSION, PADDED, ROOM_16],
            &[ENCRYPTED_DATA_INVALID],
        ),
        (
            &[
                DECRYPT_INIT,
                SESSION,
                "01 0000000000001085 00000010 010102030405060708090a0b0c0d0e0f",
                KEY,
            ],
            &[OK],
        ),
        (&[DECRYPT_UPDATE, SESSION, PADDED, ROOM_0], &[OK, NO_DATA]),
        (
            &[DECRYPT_FINAL, SESSION, ROOM_16],
            &[ENCRYPTED_DATA_INVALID],
        ),
        (
            &[DECRYPT_FINAL, SESSION, ROOM_16],
            &[OPERATION_NOT_INITIALIZED],
        ),
        (
            &[
                DECRYPT_INIT,
                SESSION,
                "01 0000000000001085 00000010 000102030405060708090a0b0c0d0e1e",
                KEY,
            ],
            &[OK],
        ),
        (
            &[DECRYPT, SESSION, PADDED, ROOM_16],
            &[OK, DATA, "0000000f 101010101010101010101010101010"],
        ),
        (&[DECRYPT_INIT, SESSION, CBC_PAD, KEY], &[OK]),
        (
            &[DECRYPT, SESSION, NO_TEXT, ROOM_16],
            &[ENCRYPTED_DATA_LEN_RANGE],
        ),
        (
            &[DECRYPT, SESSION, PADDED, ROOM_16],
            &[OPERATION_NOT_INITIALIZED],
        ),
        (&[DECRYPT_INIT, SESSION, CBC, KEY], &[OK]),
        (
            &[DECRYPT, SESSION, BYTES_2_TO_15, ROOM_16],
            &[ENCRYPTED_DATA_LEN_RANGE],
        ),
        (
            &[DECRYPT, SESSION, CHAINED, ROOM_16],
            &[OPERATION_NOT_INITIALIZED],
        ),
    ];
    expect_rows(&rt, rt.alloc(), ROWS)
}

/// Zeros, more than two bits count for, and what they count for.
const ZEROS_48: &str =
    "00000030 000000000000000000000000000000000000000000000000000000000000000000000000000000000000000000000000";

const ZEROS_49: &str =
    "00000031 00000000000000000000000000000000000000000000000000000000000000000000000000000000000000000000000000";

const KEYSTREAM: &str =
    "00000030 57127d4034b1bebfaef466b9c7726fc6973f2ef34879e2027f1734303ff21f89469c7fcb75d5d9a1b418cb997b09a185";

#[test]
fn the_end_of_a_counter_ends_an_operation(rt: HostRuntime) -> Result<(), Fail> {
    const ROWS: &[Row] = &[
        (&[ENCRYPT_INIT, SESSION, TWO_BITS, KEY], &[OK]),
        (
            &[ENCRYPT, SESSION, ZEROS_48, ROOM_64],
            &[OK, DATA, KEYSTREAM],
        ),
        (&[ENCRYPT_INIT, SESSION, TWO_BITS, KEY], &[OK]),
        (&[ENCRYPT, SESSION, ZEROS_49, ROOM_64], &[DATA_LEN_RANGE]),
        (
            &[ENCRYPT, SESSION, BLOCK, ROOM_16],
            &[OPERATION_NOT_INITIALIZED],
        ),
        (&[DECRYPT_INIT, SESSION, TWO_BITS, KEY], &[OK]),
        (&[DECRYPT, SESSION, ZEROS_49, NO_BUFFER], &[DATA_LEN_RANGE]),
        (
            &[DECRYPT, SESSION, BLOCK, ROOM_16],
            &[OPERATION_NOT_INITIALIZED],
        ),
        (&[DECRYPT_INIT, SESSION, TWO_BITS, KEY], &[OK]),
        (
            &[DECRYPT_UPDATE, SESSION, ZEROS_48, ROOM_64],
            &[OK, DATA, KEYSTREAM],
        ),
        (
            &[DECRYPT_UPDATE, SESSION, BYTE_1, ROOM_16],
            &[DATA_LEN_RANGE],
        ),
        (
            &[DECRYPT_UPDATE, SESSION, BYTE_1, ROOM_16],
            &[OPERATION_NOT_INITIALIZED],
        ),
        (
            &[
                ENCRYPT_INIT,
                SESSION,
                "01 0000000000001086 00000018 0000000000000000 00000000000000000000000000000001",
                KEY,
            ],
            &[MECHANISM_PARAM_INVALID],
        ),
        (
            &[
                ENCRYPT_INIT,
                SESSION,
                "01 0000000000001086 00000018 0000000000000081 00000000000000000000000000000001",
                KEY,
            ],
            &[MECHANISM_PARAM_INVALID],
        ),
        (
            &[
                DECRYPT_INIT,
                SESSION,
                "01 0000000000001086 00000018 0000000000000000 00000000000000000000000000000001",
                KEY,
            ],
            &[MECHANISM_PARAM_INVALID],
        ),
        (
            &[
                DECRYPT_INIT,
                SESSION,
                "01 0000000000001086 00000018 0000000000000081 00000000000000000000000000000001",
                KEY,
            ],
            &[MECHANISM_PARAM_INVALID],
        ),
    ];
    expect_rows(&rt, rt.alloc(), ROWS)
}

#[test]
fn a_buffer_that_is_absent_or_small_ends_and_takes_nothing(rt: HostRuntime) -> Result<(), Fail> {
    const ROWS: &[Row] = &[
        (&[ENCRYPT_INIT, SESSION, ECB, KEY_256], &[OK]),
        (
            &[ENCRYPT, SESSION, FIPS_BLOCK, ROOM_15],
            &[BUFFER_TOO_SMALL, LENGTH_16],
        ),
        (&[ENCRYPT, SESSION, FIPS_BLOCK, NO_BUFFER], &[OK, LENGTH_16]),
        (
            &[ENCRYPT, SESSION, FIPS_BLOCK, ROOM_16],
            &[OK, DATA, FIPS_ENCRYPTED],
        ),
        (
            &[ENCRYPT, SESSION, FIPS_BLOCK, ROOM_16],
            &[OPERATION_NOT_INITIALIZED],
        ),
        (&[ENCRYPT_INIT, SESSION, ECB, KEY], &[OK]),
        (
            &[
                ENCRYPT_UPDATE,
                SESSION,
                "00000014 6bc1bee22e409f96e93d7e117393172a6bc1bee2",
                ROOM_15,
            ],
            &[BUFFER_TOO_SMALL, LENGTH_16],
        ),
        (
            &[
                ENCRYPT_UPDATE,
                SESSION,
                "00000014 6bc1bee22e409f96e93d7e117393172a6bc1bee2",
                ROOM_16,
            ],
            &[OK, DATA, "00000010 3ad77bb40d7a3660a89ecaf32466ef97"],
        ),
        (&[ENCRYPT_FINAL, SESSION, ROOM_16], &[DATA_LEN_RANGE]),
        (&[DECRYPT_INIT, SESSION, CTR, KEY], &[OK]),
        (
            &[DECRYPT_UPDATE, SESSION, COUNTED, NO_BUFFER],
            &[OK, LENGTH_16],
        ),
        (
            &[DECRYPT_UPDATE, SESSION, COUNTED, ROOM_16],
            &[OK, DATA, BLOCK],
        ),
        (&[DECRYPT_FINAL, SESSION, NO_BUFFER], &[OK, LENGTH_0]),
        (&[DECRYPT_FINAL, SESSION, ROOM_0], &[OK, NO_DATA]),
    ];
    expect_rows(&rt, rt.alloc(), ROWS)
}

#[test]
fn an_init_without_a_mechanism_ends_its_own_operation(rt: HostRuntime) -> Result<(), Fail> {
    const ROWS: &[Row] = &[
        (&[ENCRYPT_INIT, SESSION, NO_MECHANISM, KEY], &[OK]),
        (&[ENCRYPT_INIT, SESSION, NO_MECHANISM, KEY], &[OK]),
        (
            &[ENCRYPT, SESSION, BLOCK, ROOM_16],
            &[OPERATION_NOT_INITIALIZED],
        ),
        (&[DECRYPT_INIT, SESSION, NO_MECHANISM, KEY], &[OK]),
        (&[DECRYPT_INIT, SESSION, NO_MECHANISM, KEY], &[OK]),
        (
            &[DECRYPT, SESSION, BLOCK, ROOM_16],
            &[OPERATION_NOT_INITIALIZED],
        ),
        (&[ENCRYPT_INIT, SESSION, CBC, KEY], &[OK]),
        (&[DECRYPT_INIT, SESSION, CTR, KEY], &[OK]),
        (&[ENCRYPT_INIT, SESSION, CBC, KEY], &[OPERATION_ACTIVE]),
        (&[ENCRYPT_INIT, SESSION, NO_MECHANISM, KEY], &[OK]),
        (
            &[ENCRYPT_UPDATE, SESSION, BLOCK, ROOM_16],
            &[OPERATION_NOT_INITIALIZED],
        ),
        (
            &[DECRYPT_UPDATE, SESSION, COUNTED, ROOM_16],
            &[OK, DATA, BLOCK],
        ),
    ];
    expect_rows(&rt, rt.alloc(), ROWS)
}
