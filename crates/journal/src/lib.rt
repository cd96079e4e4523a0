//! What a daemon logs: a line a record on standard error, with the priority that a journal reads (sd-daemon(3)).
//!
//! - `Journal` is a log of the records up to a level.
//! - `note` writes the same line on an output of this thread's own.
//!
//! Proved, by the names of contracts: the priority is that of the level (`priority_of`), and the level is the one that is given (`level`).
//! No clause speaks of what is written.
#![tactic(auto)]

mod journal;

pub use journal::{Journal, note};
