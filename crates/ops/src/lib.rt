//! A session's operation state (PKCS #11 v3.1, 5.7.7, 5.8, 5.10, 5.13 and 5.15): what it has in progress, each operation at its
//! place, with a copy of its key.
//!
//! Contracts see an operation that encrypts or decrypts as its mechanism with parameter and direction, the data taken, its
//! output so far, and the key. The view of an application leaves the key out (`specs/Operations.antt`). They see
//! one that signs or verifies as its mechanism, the data and the key; and a search as the handles that it didn't return yet.
//!
//! Proved, by the names of contracts: an operation begins, goes on or ends at one place and leaves the others (`placed`).
#![tactic(auto)]

mod place;
mod places;
mod search;

pub use place::{Kind, MacPlace, Place};
pub use places::Places;
pub use search::Search;
