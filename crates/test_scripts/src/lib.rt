//! Scripts for tests of the token: tables of rows, each with what an application does and what it gets, and what plays them. A
//! row that goes wrong ends the test, which prints the row's number, what was wanted, what was returned, and the step.
//!
//! - `given` names what many scripts speak of: applications, keys, texts, templates and codes.
//! - `script_at` and `questions_at` return scripts of ciphers, objects and PINs, for tests that play them over several keepers
//!   and by seats.
//! - `EVERY_CALL` has rows of all calls, each answered with CKR_OK; `FIRST_RUN` and `FIRST_REPLIES` are a first run in frames.
//! - `Row`, `Step` and `Told` are the vocabulary; `call_of` and `reply_of` make a call and a reply of them, and `random_for`
//!   gives a call its random bytes.
//! - `Bench` is a token that takes steps one after the other. `play` plays rows on a new one, and `play_over` on one over a keeper
//!   that it returns. `run` gives them to a new token as one list of events, and `play_and_run` does both. Each does so over a
//!   list and over a list behind a cache. `BenchOver` and `run_over` take a keeper, as one that has a record of `record_with`.
//! - `expect_neighbours` sees that the cases of a test have all neighbours of the tables of faults.
//! - `Token`, `Event`, `Out` and `Job` are those of `token`, and `token_over` makes a token, for tests that use one without a
//!   bench: `told_at_once`, `told_code` and `opened_session` make a call of it.
//! - `expect_long_chain` and `expect_each_mechanism` give long texts to a `Server` at once and in parts, there and back.
//!
//! ```text
//! const ROWS: &[Row] = &[
//!     (A, OPEN, Told::Session(1)),
//!     (A, Step::CreateObject(1, TOKEN_KEY), Told::Object(1)),
//! ];
//! play(rt.alloc(), ROWS)
//! ```
#![tactic(auto)]

mod bench;
mod calls;
mod chapters;
mod every_call;
mod first_run;
pub mod given;
mod keepers;
mod order;
mod random;
mod replies;
mod runs;
mod steps;
mod stored;
mod texts;
mod tokens;

pub use bench::{Bench, BenchOver, expect_row, expect_told, play, play_over};
pub use calls::call_of;
pub use chapters::{Script, questions_at, record_at, script_at};
pub use every_call::EVERY_CALL;
pub use first_run::{FIRST_REPLIES, FIRST_RUN};
pub use keepers::{cached, cached_list};
pub use order::{LeftOut, Pair, expect_neighbours};
pub use random::random_for;
pub use replies::reply_of;
pub use runs::{
    play_and_run, play_and_run_questions, replies_to, run, run_over, run_script, with_finishes,
};
pub use steps::{Asked, Given, GivenMechanism, Row, Step, Told, Values};
pub use stored::record_with;
pub use texts::{NewToken, Server, add_output, expect_each_mechanism, expect_long_chain};
pub use tokens::{opened_session, token_over, told_at_once, told_code};
