//! The mechanisms of the token, as one table: for what each is, the type of its keys and their sizes (PKCS #11 v3.1, 5.5:
//! C_GetMechanismList and C_GetMechanismInfo).
//!
//! A call that begins an operation, or makes or wraps a key, finds its mechanism here by its number (`find_for`). So
//! what is reported of a mechanism is what it may be used for.
//!
//! Proved, by the names of contracts: the table of mechanisms is the definition's.
#![tactic(auto)]

mod purpose;
mod table;

pub use purpose::Purpose;
pub use table::{LISTED, find, find_for, info_of, key_type_of, purpose_of};
