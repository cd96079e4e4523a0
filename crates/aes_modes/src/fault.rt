//! Why a text is not encrypted or decrypted.

ghost use Rattle.std.specs.Prelude.{◌≡◌};
ghost use Rattle.aes_modes.specs.declared.fault.ModeFault.TheVariants.{Memory};

use std::alloc::AllocError;
use thiserror::Error;

#[derive(Clone, Copy, Debug, PartialEq, Eq, Error)]
pub enum ModeFault {
    /// The mode takes texts of whole blocks, and the text is none.
    #[error("not a length that the mode takes")]
    LenRange = 1,
    /// The text decrypted does not end with a padding.
    #[error("no padding at the end")]
    BadPad = 2,
    /// The text has more blocks than there are counters.
    #[error("the counter ends before the text")]
    CounterEnd = 3,
    #[error("out of memory")]
    Memory = 4,
}

impl From<AllocError> for ModeFault {
    ghost from_gives = { λ _ fault. fault ≡ Memory };

    fn from(_error: AllocError) -> ModeFault {
        ModeFault::Memory
    }
}
