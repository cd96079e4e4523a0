//! The program `tokend`, all but the process's own arguments and streams.
//!
//! `tokend_with` runs a command line over an input, an output and an output for errors, and returns the exit status (`commands`).
//!
//! The daemon is four seats (`hall_sockets::SocketSeat`) before one token. `Reported` is a keeper that logs what becomes of its store, and
//! a thread (`Monitor`) looks after the daemon once a second.
//!
//! This crate is safe and tested. What it states is that it holds the seats as `hall_sockets::hold_sockets` asks, with the seed
//! of the command line or of the file.
//!
//! Proved, by the names of contracts: the seats are four new ones, with the seed of the settings and 64 places at most (`ready_seats`,
//! `settings_of`). Of the seed file itself no clause speaks, nor of what `Reported` logs.
#![tactic(auto)]

mod health;
mod monitor;
mod reported;
mod run;
mod serve;

pub use health::Health;
pub use reported::Reported;
pub use run::tokend_with;
