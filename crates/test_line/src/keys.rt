//! Mechanisms, keys that are made and random bytes through a line: the payloads of calls and of their replies, in
//! hexadecimal.

use crate::ciphers::{Row, expect_line};
use std::test::*;

const OPENS: Row = (
    &["0007 0000000000000000 0000000000000006"],
    &[OK, "0000000000000001"],
);

const GENERATE_KEY: &str = "0026";

const GENERATE_RANDOM: &str = "0029";

/// The one session.
const SESSION: &str = "0000000000000001";

/// Codes.
const OK: &str = "0000000000000000";

const ARGUMENTS_BAD: &str = "0000000000000007";

const ATTRIBUTE_VALUE_INVALID: &str = "0000000000000013";

const TEMPLATE_INCOMPLETE: &str = "00000000000000d0";

const TEMPLATE_INCONSISTENT: &str = "00000000000000d1";

/// CKM_AES_KEY_GEN.
const AES_KEY_GEN: &str = "0000000000001080 00000000";

/// How many attributes come, and CKA_VALUE_LEN of 16 and of 17, CKA_VALUE, and that the key is public and may be read.
const THREE: &str = "00000003";

const FOUR: &str = "00000004";

const FIVE: &str = "00000005";

const LEN_16: &str = "0000000000000161 00000008 0000000000000010";

const LEN_17: &str = "0000000000000161 00000008 0000000000000011";

const VALUE: &str = "0000000000000011 00000001 00";

const READABLE: &str =
    "0000000000000002 00000001 00 0000000000000103 00000001 00 0000000000000162 00000001 01";

/// Reads CKA_VALUE, CKA_LOCAL and CKA_KEY_GEN_MECHANISM of object 1.
const ASKS: &str = "0011 0000000000000001 0000000000000001 00000003 \
0000000000000011 01 0000000000000010 0000000000000163 01 0000000000000001 0000000000000166 01 0000000000000008";

#[test]
fn a_generated_key_has_the_random_bytes_after_its_identifier(rt: HostRuntime) -> Result<(), Fail> {
    const ROWS: &[Row] = &[
        OPENS,
        (
            &[GENERATE_KEY, SESSION, AES_KEY_GEN, FOUR, LEN_16, READABLE],
            &[OK, "0000000000000001"],
        ),
        (
            &[ASKS],
            &[
                OK,
                "00000003",
                "0000000000000010 01 bdd219b8a08ded1aa836efcc8b770dc7",
                "0000000000000001 01 01",
                "0000000000000008 01 0000000000001080",
            ],
        ),
        (
            &[GENERATE_KEY, SESSION, AES_KEY_GEN, FOUR, LEN_17, READABLE],
            &[ATTRIBUTE_VALUE_INVALID],
        ),
        (
            &[GENERATE_KEY, SESSION, AES_KEY_GEN, THREE, READABLE],
            &[TEMPLATE_INCOMPLETE],
        ),
        (
            &[
                GENERATE_KEY,
                SESSION,
                AES_KEY_GEN,
                FIVE,
                LEN_16,
                VALUE,
                READABLE,
            ],
            &[TEMPLATE_INCONSISTENT],
        ),
    ];
    expect_line(&rt, rt.alloc(), ROWS)
}

#[test]
fn random_bytes_are_those_of_the_application(rt: HostRuntime) -> Result<(), Fail> {
    const ROWS: &[Row] = &[
        OPENS,
        (
            &[GENERATE_RANDOM, SESSION, "0000000000000010"],
            &[OK, "00000010 76b8e0ada0f13d90405d6ae55386bd28"],
        ),
        (
            &[GENERATE_RANDOM, SESSION, "0000000000000005"],
            &[OK, "00000005 bdd219b8a0"],
        ),
        (
            &[GENERATE_RANDOM, SESSION, "0000000000000004"],
            &[OK, "00000004 a836efcc"],
        ),
        (
            &[GENERATE_RANDOM, SESSION, "0000000000008001"],
            &[ARGUMENTS_BAD],
        ),
        (
            &[GENERATE_RANDOM, SESSION, "0000000000000000"],
            &[OK, "00000000"],
        ),
    ];
    expect_line(&rt, rt.alloc(), ROWS)
}

#[test]
fn twelve_mechanisms_are_told(rt: HostRuntime) -> Result<(), Fail> {
    const ROWS: &[Row] = &[
        (
            &["0002 0000000000000000"],
            &[
                OK,
                "0000000c",
                "0000000000000251 0000000000000256 0000000000000261 0000000000000271",
                "0000000000000350 0000000000001080 0000000000001081 0000000000001082",
                "0000000000001085 0000000000001086 000000000000108a 0000000000002109",
            ],
        ),
        (
            &["0003 0000000000000000 0000000000000350"],
            &[OK, "0000000000000008 0000000000001000 0000000000008000"],
        ),
        (
            &["0003 0000000000000000 0000000000002109"],
            &[OK, "0000000000000010 0000000000000020 0000000000060000"],
        ),
        (
            &["0003 0000000000000000 0000000000000250"],
            &["0000000000000070"],
        ),
        (&["0002 0000000000000001"], &["0000000000000003"]),
    ];
    expect_line(&rt, rt.alloc(), ROWS)
}
