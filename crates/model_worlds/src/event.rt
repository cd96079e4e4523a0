//! What happens to a token.

use ck_calls::Call;

/// What happens to a token.
#[derive(Drop)]
pub enum Event {
    /// An application calls, with the random bytes that the call takes.
    Call {
        app: u64,
        call: Call,
        words: Vec<u8>,
    },
    /// The job of an application's pending call is run, and the call ends.
    Finish {
        app: u64,
    },
    /// An application disconnects.
    Gone {
        app: u64,
    },
}
