//! Why a line ended badly.

ghost use Rattle.std.specs.Prelude.{◌≡◌};
ghost use Rattle.stdio_line.specs.declared.fault.LineFault.TheVariants.{Memory};

use std::alloc::{AllocError, AllocFailed};
use thiserror::Error;

#[derive(Clone, Copy, Debug, PartialEq, Eq, Error)]
pub enum LineFault {
    /// The reader failed.
    #[error("cannot read")]
    Read = 1,
    /// The writer failed.
    #[error("cannot write")]
    Write = 2,
    /// The length of a frame is above the limit.
    #[error("a frame is too long")]
    TooLong = 3,
    /// The input ended within a frame.
    #[error("the input ends within a frame")]
    Cut = 4,
    #[error("out of memory")]
    Memory = 5,
}

impl From<AllocError> for LineFault {
    ghost from_gives = { λ _ fault. fault ≡ Memory };

    fn from(_error: AllocError) -> LineFault {
        LineFault::Memory
    }
}

impl<T: Drop> From<AllocFailed<T>> for LineFault {
    ghost from_gives = { λ _ fault. fault ≡ Memory };

    fn from(_failed: AllocFailed<T>) -> LineFault {
        LineFault::Memory
    }
}
