//! Why a connection ended.

use std::io::Error as IoError;
use thiserror::Error;

/// Why a connection ended.
#[derive(Clone, Copy, Debug, Error)]
pub enum Ending {
    /// The reader ended, between two frames.
    #[error("its peer closed it")]
    Closed,
    /// The reader ended within a frame.
    #[error("it ended within a frame")]
    Cut,
    /// The length of a frame is above the limit.
    #[error("a frame is too long")]
    TooLong,
    /// The reader failed.
    #[error("it cannot be read: {0}")]
    Read(IoError),
    /// The writer failed.
    #[error("it cannot be written: {0}")]
    Write(IoError),
    /// An allocation failed, or 2^64 - 1 payloads or reads made no call.
    #[error("out of memory")]
    Memory,
}
