//! Why a call is refused. Nothing has changed then.

ghost use Rattle.std.specs.Prelude.{◌≡◌};
ghost use Rattle.serve_base.specs.declared.refusal.Refusal.TheVariants as refusals;
ghost use Rattle.serve_base.specs.Refusing.{of_fault, of_make_fault, refusal_code, settled};

use crate::out::{Out, Returned};
use ck_calls::Reply;
use ck_types::Rv;
use keep::KeepFault;
use model_views::Fault;
use precede::Condition;
use std::alloc::AllocError;
use templates::MakeFault;

/// Why a call is refused.
#[derive(Clone, Copy, Debug, PartialEq, Eq)]
pub enum Refusal {
    /// A check of the call's table fails.
    Condition(Condition),
    /// A code that no check of a table has: that of a template.
    Code(Rv),
    /// An allocation failed.
    Memory,
    /// The keeper failed.
    Device,
}

impl From<Condition> for Refusal {
    ghost from_gives = { λ row refusal. refusal ≡ refusals.Condition row };

    fn from(row: Condition) -> Self {
        Refusal::Condition(row)
    }
}

impl From<AllocError> for Refusal {
    ghost from_gives = { λ error refusal. refusal ≡ refusals.Memory };

    fn from(_error: AllocError) -> Self {
        Refusal::Memory
    }
}

impl From<KeepFault> for Refusal {
    ghost from_gives = { λ fault refusal. refusal ≡ of_fault fault };

    fn from(fault: KeepFault) -> Self {
        match fault {
            KeepFault::Memory => Refusal::Memory,
            KeepFault::Device | KeepFault::Damaged => Refusal::Device,
        }
    }
}

impl From<MakeFault> for Refusal {
    ghost from_gives = { λ fault refusal. refusal ≡ of_make_fault fault };

    fn from(fault: MakeFault) -> Self {
        match fault {
            MakeFault::Refused(code) => Refusal::Code(code),
            MakeFault::Memory => Refusal::Memory,
        }
    }
}

impl Refusal {
    /// The code that a refused call returns. An allocation failure and a failed keeper are faults, since no answer has their code.
    pub fn code(self) -> Result<Rv, Fault>
        ensures { result ≡ refusal_code self }
    {
        match self {
            Refusal::Condition(row) => Ok(row.code(Rv::Ok)),
            Refusal::Code(code) => Ok(code),
            Refusal::Memory => Err(Fault::Memory),
            Refusal::Device => Err(Fault::Device),
        }
    }
}

/// What a call returns, where its refusals are replies with their codes. `T` is a reply, or of a call that may ask for a job `Out`.
pub fn settle<T: Returned>(outcome: Result<T, Refusal>) -> Result<Out, Fault>
    ensures { result ≡ settled T.as_out outcome }
{
    match outcome {
        Ok(value) => Ok(value.into_out()),
        Err(refusal) => Ok(Out::Reply(Reply::Code(refusal.code()?))),
    }
}
