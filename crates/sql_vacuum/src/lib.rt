//! A store's rows in a new database file, as SQLite's VACUUM INTO writes them. What else the old file contains stays behind, as values
//! that were removed or replaced: nothing but rows is passed on.
//!
//! - `vacuumed` is the new file's bytes. It needs no log beside it, and its pages have sums.
//! - `emptied` is what comes before a store's log is emptied: all of it is copied into the file.
//! - `vacuum_then_open` is a law: what an opening of such a file finds is what the store held.
//! - `error_of` is an error of a store of trees as one of sqlite.
//!
//! Proved, by the names of contracts: the new file, with no log, holds a database with just the store's rows, as long as the store's disk
//! was faithful (`IsFileOf`). A keeper opened over it holds the same contents, and a crash leaves them alone (`vacuum_then_open`). No
//! clause says that nothing else is in the bytes: `tests/destroyed.py` searches.
#![tactic(auto)]

mod copying;
mod faults;
mod filling;
mod image;
mod laws;
mod log_copying;

pub use faults::error_of;
pub use image::vacuumed;
pub use laws::vacuum_then_open;
pub use log_copying::emptied;
