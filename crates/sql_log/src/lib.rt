//! What the log beside a database file contains, before the files are opened. So no store is taken for a new one, and no
//! damaged log for one that a power cut left.
//!
//! - `bytes_of` reads a file whole, and `put_back` writes its bytes again.
//! - `is_begun` is whether a log is the one of a first opening, and `is_unwritten` whether it has no header at all.
//! - `round_of` is how often the log was begun anew, and `next_round` the number behind one.
//! - `has_commits_behind` is whether commits stand behind a frame or a header that is damaged.
//!
//! The bytes are those of SQLite's fileformat2.html, section 4.
//!
//! Proved, by the names of contracts: commits that `has_commits_behind` finds behind damage are there (`IsDamaged`). It finds each run of
//! two behind the first frame that fails (`IsPlainlyDamaged`). So it does each commit behind a header that is damaged in its salts or
//! fourth byte alone. `put_back` leaves the file with just these bytes; a crash before that leaves what it had begun with alike
//! (`KeepsBeginning`).
#![tactic(auto)]

mod damage;
mod first;
mod format;
mod frames;
mod reading;
mod round;

pub use damage::has_commits_behind;
pub use first::{is_begun, is_unwritten};
pub use reading::{bytes_of, put_back};
pub use round::{next_round, round_of};
