//! Records of tokens in which both PINs are set.

use pin_record::{Record, decode};
use std::test::Fail;

/// The stored form of a record as an older token made it. Its label is "the token of the tests". Its PINs are "so-pin" and
/// "user-pin", each with a verifier of 10,000 rounds. The keys were computed by another program, Python's `hashlib.pbkdf2_hmac`.
const STORED: &[u8; 142] = b"\x02\x01the token of the tests          \
      \x01\x10\x11\x12\x13\x14\x15\x16\x17\x18\x19\x1a\x1b\x1c\x1d\x1e\x1f\x00\x00\x27\x10\
      \xcb\xf4\xf2\xcb\x9e\xea\xc3\x74\x4f\x04\xf6\xca\xc1\x3d\x0a\xe6\
      \x06\xf9\x2c\x17\x2f\x72\x52\xca\xfc\xf1\x57\x4c\x3b\xd4\x2d\xdc\x00\
      \x01\x20\x21\x22\x23\x24\x25\x26\x27\x28\x29\x2a\x2b\x2c\x2d\x2e\x2f\x00\x00\x27\x10\
      \xa8\x88\xeb\x27\x41\x68\x58\x17\x12\x20\x45\xa4\x50\x5d\xc5\x08\
      \xc2\x2f\xb8\x83\x60\xee\x29\x1f\xa5\x4e\x25\xb1\x6b\xd0\x38\xdf\x00";

/// The offsets of the SO's tries and of the user's.
const SO_TRIES: usize = 87;

const USER_TRIES: usize = 141;

/// The record with these tries.
pub fn record_with(so_tries: u8, user_tries: u8) -> Result<Record, Fail> {
    let mut bytes = *STORED;
    bytes[SO_TRIES] = so_tries;
    bytes[USER_TRIES] = user_tries;
    match decode(&bytes) {
        Ok(record) => Ok(record),
        Err(_) => Err("these bytes are no record".into()),
    }
}
