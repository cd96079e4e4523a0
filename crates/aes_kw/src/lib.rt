//! The key wrap of RFC 3394 with AES, under its initial value of eight bytes 0xA6.
//!
//! Proved, for every key and every value:
//!
//! - `wrap` gives what `specs/KeyWrap.antt` writes down from the RFC, in index form.
//! - `unwrap` gives the value whose wrapping the bytes are.
//! - `LenRange` comes exactly where the length is none of a value, or of a wrapping. `BadCheck`
//!   comes only where the bytes are the wrapping of no value. But for these there is only
//!   `Memory`, for a failed allocation.
//!
//! `proofs/Only.antt` proves that no two values have one wrapping.
//!
//! Each call makes one allocation. No read and no branch depends on the key or the value, as in `aes_vector`, but on their
//! lengths and on whether a wrapping is right.
//!
//! Proved, by the names of contracts: key wrap of RFC 3394.
#![tactic(auto)]

mod fault;
mod registers;
mod wrapping;

pub use fault::KwFault;
pub use wrapping::{unwrap, wrap};
