//! The command line of `tokend`, the commands that need no daemon of this process, and what its daemon asks of the system as it starts.
//!
//! `parse` reads a command line. `run` does what it asks for, `status` asks a daemon how it stands, and `programs` has the daemon. A
//! `Fault` is a `Failure` with its `Cause`. Exit statuses:
//! - 0 where it ended as asked;
//! - 2 for a command line that is refused;
//! - 3 where the store can't be opened or copied;
//! - 4 where the socket can't be used;
//! - 5 for a bad seed or line of a script;
//! - 6 where an allocation failed;
//! - 7 where the line ended badly;
//! - 8 where a daemon that is asked for its status doesn't answer, and 9 where it can't be asked for want of permission.
//!
//! A failure is a line on the output for errors, and its cause the next one. `refuse_args` returns the status where the process's
//! own arguments can't be read. A daemon's start takes `daemon_sockets`, `daemon_seed`, `leave_cores_empty` and the service's `Manager`.
//!
//! Proved, by the names of contracts: the exit status is one of the README's (`IsStatus`), and that of the failure (`status_of`). The
//! seed is the next 32 bytes of its reader (`seed_of`: `Consumes`), or what the digits spell, or zeros (`trial_seed`). Modes and levels
//! are those that their texts spell (`mode_in`, `level_in`). Of files, sockets and the service manager no clause speaks.
#![tactic(auto)]

mod args;
mod cause;
mod command;
mod cores;
mod each_command;
mod environment;
mod failure;
mod listening;
mod notify;
mod options;
mod p11call;
mod parsing;
mod seed;
mod status_of_daemon;
mod stdio;
mod upkeep;

pub use args::refuse_args;
pub use cause::Cause;
pub use command::{MAX_CONNECTIONS, VERSION};
pub use cores::leave_cores_empty;
pub use each_command::run;
pub use failure::{Failure, Fault};
pub use listening::{daemon_sockets, socket_names};
pub use notify::Manager;
pub use options::{level_in, mode_in};
pub use p11call::ask;
pub use parsing::parse;
pub use seed::{Seed, daemon_seed};
pub use status_of_daemon::status;
