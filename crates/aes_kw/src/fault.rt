//! Why a value is not wrapped or unwrapped.

ghost use Rattle.std.specs.Prelude.{◌≡◌};
ghost use Rattle.aes_kw.specs.declared.fault.KwFault.TheVariants.{Memory};

use std::alloc::AllocError;
use thiserror::Error;

#[derive(Clone, Copy, Debug, PartialEq, Eq, Error)]
pub enum KwFault {
    /// Not the length of a value, or of a wrapping.
    #[error("not a length of whole halves of a block")]
    LenRange = 1,
    /// The bytes are the wrapping of no value.
    #[error("the check value is wrong")]
    BadCheck = 2,
    #[error("out of memory")]
    Memory = 3,
}

impl From<AllocError> for KwFault {
    ghost from_gives = { λ _ fault. fault ≡ Memory };

    fn from(_error: AllocError) -> KwFault {
        KwFault::Memory
    }
}
