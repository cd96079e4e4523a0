//! Four seats in threads of their own that play the rows of a script, each row in its turn.
//!
//! The rows of application a are played by seat a modulo 4. A call is put once the rows before it are over. Its job, if it has one,
//! passes the `Gate` once the row of its `Finish` is next. No turn is waited for longer than 10,000 milliseconds.

mod gate;
mod play;
mod seat;
mod turns;

pub(super) use play::{hold_over_lists, hold_rows};
