//! The steps of a connection.

use crate::ending::Ending;
use ck_calls::{AppCall, Reply};
use std::io::Error;

/// What the frame at the front of what is held comes to.
#[derive(Drop)]
pub(crate) enum Asked {
    Call(AppCall),
    /// A payload that is no call, and its reply.
    Refused(Reply),
    /// There is no whole frame.
    Lacking,
    TooLong,
    Memory,
}

/// What a read comes to.
#[derive(Clone, Copy)]
pub(crate) enum Piece {
    /// Perhaps there is more.
    More,
    /// It would block.
    Nothing,
    Ended(Ending),
}

/// What writes come to.
#[derive(Clone, Copy)]
pub(crate) enum Wrote {
    All,
    /// One would block.
    Later,
    Failed(Error),
}

/// How many bytes were not written, and why not.
#[derive(Clone, Copy)]
pub(crate) struct Put {
    pub(crate) lacking: usize,
    pub(crate) wrote: Wrote,
}
