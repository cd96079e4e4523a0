//! A line: one connection that a token answers, until its reader ends. `tokend stdio` has one over standard input and output.
//!
//! - `serve_one` answers the calls of one connection by a token, until the reader ends or the connection fails. Proved: it writes the
//!   frames of the replies to what it read, in order (`Serves`): all where the line ends well, all before a cut frame or one that is too
//!   long, and a beginning where the writer fails. Where an allocation failed the last may lack. While the disk is faithful they are those
//!   of a run (`IsLine`), and each CKR_DEVICE_ERROR has a counted failure (`accounts`). `Read` comes only where the reader noted a failure
//!   (`ReadsBy`), `Write` only where the writer did, or after 2^64 - 1 calls (`WritesBy`).
#![tactic(auto)]

mod fault;
mod serve;

pub use fault::LineFault;
pub use serve::serve_one;
