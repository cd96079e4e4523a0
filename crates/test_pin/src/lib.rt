//! The tests of `token`'s calls of PINs, in three parts:
//! - scripts of what applications do and get (`test_scripts`), by chapter, most of them by calls one after the other and as a run;
//! - the order of each of these calls' faults (`tests/order.rt`);
//! - the tries of a PIN where its checks overlap (`tests/tries.rt`).
//!
//! ```text
//! const ROWS: &[Row] = &[
//!     (A, OPEN, Told::Session(1)),
//!     (A, LOGIN, OK),
//!     (A, LOGIN, Told::Code(Rv::UserAlreadyLoggedIn)),
//! ];
//! play_and_run(rt.alloc(), record_with(0, 0)?, ROWS)
//! ```
#![tactic(auto)]

#[cfg(test)]
mod tests;
