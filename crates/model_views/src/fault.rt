//! Resource errors: why an event is refused whatever its answer is.

ghost use Rattle.std.specs.Prelude.{◌≡◌};
ghost use Rattle.model_views.specs.declared.fault.Fault.TheVariants.{Memory};

use std::alloc::AllocError;

/// A resource error, which no answer returns. Nothing has changed then, but that a pending call is over.
#[derive(Clone, Copy, Debug, PartialEq, Eq)]
pub enum Fault {
    /// An allocation failed: CKR_HOST_MEMORY.
    Memory,
    /// The keeper failed: CKR_DEVICE_ERROR.
    Device,
}

impl From<AllocError> for Fault {
    ghost from_gives = { λ error fault. fault ≡ Memory };

    fn from(_error: AllocError) -> Self {
        Fault::Memory
    }
}
