//! Whether a daemon serves on a Unix socket, as `tokend status` prints it.
//!
//! `print_standing` asks within a second, prints a line, and returns the exit status: 0 where a daemon serves, 4 where nobody listens or no
//! socket is there, 8 where no answer comes, and 9 where it can't be asked for want of permission. `write_address` is the address of a
//! socket, as the system reads it.
//!
//! What the system does is tested, and no clause speaks of it (`test_program`, `tests/door.py`).
//!
//! Proved, by the names of contracts: the exit status of `tokend status` is that of what it found, one of 0, 4, 8 and 9 (`standing_status`).
#![tactic(auto)]

mod address;
mod asking;
mod groups;
mod standing;

pub use address::write_address;
pub use asking::print_standing;
