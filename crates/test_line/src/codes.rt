//! Calls with several faults through a line, each answered with the code of the one that stands first in the call's table. The
//! payloads of the calls and of their replies are in hexadecimal.

use crate::ciphers::{Row, expect_line};
use std::test::*;

const OK: &str = "0000000000000000";

const SESSION: &str = "0000000000000001";

const READ_ONLY_SESSION: &str = "0000000000000002";

const CREATE_OBJECT: &str = "000d";

const LOGIN: &str = "000b";

const SO_PIN: &str = "00000006 736f2d70696e";

const USER_PIN: &str = "00000008 757365722d70696e";

const NAME: &str = "00000020 74686520746f6b656e206f662074686520746573747320202020202020202020";

/// A public AES key that wraps, and a public one that may not be wrapped.
const WRAPPING_KEY: &str = "00000005 0000000000000000 00000008 0000000000000004 \
0000000000000100 00000008 000000000000001f 0000000000000002 00000001 00 \
0000000000000106 00000001 01 0000000000000011 00000010 000102030405060708090a0b0c0d0e0f";

const UNEXTRACTABLE_KEY: &str = "00000004 0000000000000000 00000008 0000000000000004 \
0000000000000100 00000008 000000000000001f 0000000000000002 00000001 00 \
0000000000000011 00000010 000102030405060708090a0b0c0d0e0f";

/// A token with PINs, a session that may write and one that may not, and the keys.
const BEFORE: &[Row] = &[
    (&["0004 0000000000000000", SO_PIN, NAME], &[OK]),
    (&["0007 0000000000000000 0000000000000006"], &[OK, SESSION]),
    (&[LOGIN, SESSION, "0000000000000000", SO_PIN], &[OK]),
    (&["0005", SESSION, USER_PIN], &[OK]),
    (&["000c", SESSION], &[OK]),
    (
        &["0007 0000000000000000 0000000000000004"],
        &[OK, READ_ONLY_SESSION],
    ),
    (
        &[CREATE_OBJECT, SESSION, WRAPPING_KEY],
        &[OK, "0000000000000001"],
    ),
    (
        &[CREATE_OBJECT, SESSION, UNEXTRACTABLE_KEY],
        &[OK, "0000000000000002"],
    ),
];

const FAULTS: &[Row] = &[
    // C_OpenSession in another slot, without flags.
    (
        &["0007 0000000000000001 0000000000000000"],
        &["0000000000000003"],
    ),
    // C_DestroyObject with neither session nor object.
    (
        &["000f 0000000000000063 0000000000000063"],
        &["00000000000000b3"],
    ),
    // C_EncryptInit by CKM_GENERIC_SECRET_KEY_GEN, with no key.
    (
        &[
            "0016",
            SESSION,
            "01 0000000000000350 00000000 0000000000000000",
        ],
        &["0000000000000070"],
    ),
    // C_CreateObject of an AES key without CKA_VALUE, and with an attribute that isn't known.
    (
        &[
            CREATE_OBJECT,
            SESSION,
            "00000003 0000000000000000 00000008 0000000000000004",
            "0000000000000100 00000008 000000000000001f 0000000099999999 00000000",
        ],
        &["0000000000000012"],
    ),
    // C_CreateObject of a private token object, in a session that may not write, with nobody logged in.
    (
        &[
            CREATE_OBJECT,
            READ_ONLY_SESSION,
            "00000003 0000000000000000 00000008 0000000000000000",
            "0000000000000001 00000001 01 0000000000000002 00000001 01",
        ],
        &["00000000000000b5"],
    ),
    // C_WrapKey of the key that may not be wrapped, without a buffer.
    (
        &[
            "0027",
            SESSION,
            "0000000000002109 00000000 0000000000000001 0000000000000002 00",
        ],
        &["000000000000006a"],
    ),
    // C_Login of another user type, while the user is logged in.
    (&[LOGIN, SESSION, "0000000000000001", USER_PIN], &[OK]),
    (
        &[LOGIN, SESSION, "0000000000000002", USER_PIN],
        &["0000000000000103"],
    ),
];

#[test]
fn of_several_faults_the_first_is_told(rt: HostRuntime) -> Result<(), Fail> {
    let mut rows = Vec::from_slice(rt.alloc(), BEFORE)?;
    rows.extend_from_slice(FAULTS)?;
    expect_line(&rt, rt.alloc(), &rows)
}
