//! The tests of `token`: scripts of what applications do and get (`test_scripts`), and the order of each call's faults
//! (`tests/order.rt`). They stand in a crate of their own, so that neither waits for the other where `token` is proved and its
//! edits are tried.
//!
//! ```text
//! const ROWS: &[Row] = &[
//!     (A, OPEN, Told::Session(1)),
//!     (A, Step::CreateObject(1, TOKEN_KEY), Told::Object(1)),
//! ];
//! play(rt.alloc(), ROWS)
//! ```
#![tactic(auto)]

#[cfg(test)]
mod tests;
