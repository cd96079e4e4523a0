//! An end that is read or written (`door`), with a count of which of its calls failed, so that who reads or writes knows why it ended.
//!
//! `specs/Noting.antt` is what is counted of one call, and of many.
//!
//! Proved, by the names of contracts: a failure is counted just where a call returns an error that is no interruption, or a write takes
//! nothing (`Notes`). It also has the bytes that were taken and not flushed yet (`HoldsBack`, `LetsOut`).
#![tactic(auto)]

mod watched;

pub use watched::{Watched, is_interrupted};
