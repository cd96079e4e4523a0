//! The record of a PKCS #11 token: its label, and the PINs of its security officer (SO) and its user,
//! with the tries of each.
//!
//! - `Verifier` is what a PIN is checked against: a salt, a number of rounds, and what PBKDF2 (RFC 8018)
//!   makes of the PIN by them. New ones have 20,000 rounds; those of an older token have 10,000.
//! - `Record` keeps what a record is. The token is initialised where the SO's PIN is set; where it
//!   isn't, the user's isn't either, and the label is blank. A PIN that isn't set has no tries, and
//!   none has more than ten. At ten it is locked.
//! - `begin_check` and `end_check` are a check of a PIN. It begins with a charge, one more try, which is
//!   stored before the PIN is looked at. Where the PIN was right, the tries become the checks of it that
//!   are still in progress; else the charge stays. So the tries are always those in progress and the checks
//!   that failed since the last right one, however checks overlap. No more than ten fail in a row
//!   (`laws::ten_tries`).
//! - `token_flags` is how a token reports on its PINs (PKCS #11 v3.1, 3.2: `CK_TOKEN_INFO`).
//! - `encode` and `decode` are the stored form. Each record has one, and `decode` accepts nothing else. `decode_old`
//!   reads the form that older tokens stored.
//!
//! What applications may learn of a record is a definition, `record_view` of `specs/Records.antt`. No
//! verifier is in it. But for `encode`, nothing here takes memory. Nothing is claimed of the time that
//! a check takes.
//!
//! Proved, by the names of contracts: a `Verifier` accepts a PIN exactly where PBKDF2 makes its key of it (`accepts`). `begin_check`
//! charges a try, and `end_check` of a right PIN leaves those in progress (`charged`, `checked`). The law `ten_tries`: at most ten wrong
//! guesses of a PIN are checked between two successes or resets, however checks overlap or are abandoned.
#![tactic(auto)]

mod checks;
mod fault;
mod flags;
pub mod laws;
mod pin;
mod record;
mod stored;
mod verifier;
mod version;

pub use checks::{begin_check, end_check};
pub use fault::DecodeFault;
pub use flags::{
    CKF_SO_PIN_LOCKED, CKF_TOKEN_INITIALIZED, CKF_USER_PIN_INITIALIZED, CKF_USER_PIN_LOCKED,
    token_flags,
};
pub use pin::TRIES_LIMIT;
pub use record::Record;
pub use stored::{decode, decode_old, encode};
pub use verifier::{OLD_ROUNDS, ROUNDS, Verifier};
