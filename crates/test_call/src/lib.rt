//! The tests of `token`'s calls that encrypt and decrypt, sign and verify, wrap and unwrap keys, and search: scripts of what
//! applications do and get (`test_scripts`), each by calls one after the other and in one list of events.
//!
//! ```text
//! const ROWS: &[Row] = &[
//!     (A, EncryptInit(1, CBC, KEY), OK),
//!     (A, Encrypt(1, BLOCK, Some(16)), Told::Data(CHAINED)),
//! ];
//! play_and_run(rt.alloc(), KEYS, ROWS)
//! ```
#![tactic(auto)]

#[cfg(test)]
mod tests;
