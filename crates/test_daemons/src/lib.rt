//! What tests of the program share:
//! - `run` and its like run a command line over strings of bytes;
//! - `start` and its like run a daemon in a thread, and `expect` and its like ask it;
//! - `clients.rt` has connections that stay, of a daemon with options of its own.
#![tactic(auto)]

mod clients;
mod running;
mod serving;

pub use clients::{
    Found, Options, SESSION_TWO, ask, ask_all, encrypt_all, expect_over, hear, join, join_all,
    look, pass_by, start_seeded, start_with,
};
pub use running::{
    Ended, OPEN_SESSION, SESSION_ONE, args_of, expect_refusal, expect_run, has_ended_so, run,
};
pub use serving::{
    NEW_OBJECT, NEW_OBJECT_REPLIES, SEARCH, SEARCH_REPLIES, clear, connect, expect, expect_end,
    expect_ended, expect_refused, serve, start, start_for,
};
