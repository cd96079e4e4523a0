//! Why seats were not held.

use thiserror::Error;

/// Why seats were not held.
#[derive(Clone, Copy, Debug, PartialEq, Eq, Error)]
pub enum HallFault {
    /// An allocation failed.
    #[error("out of memory")]
    Memory = 1,
    /// A thread was not started, or a channel ended early.
    #[error("cannot start a thread")]
    Thread = 2,
}
