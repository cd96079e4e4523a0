//! The replies to payloads that are no call.

ghost use Rattle.std.specs.Prelude.{◌≡◌, ◌≢◌, IfErr, IfOk, OnOk};
ghost use Rattle.wire.specs.declared.fault.WireFault.TheVariants as wire_faults;
ghost use Rattle.line.specs.Turns.{refusal_of};

use ck_calls::Reply;
use ck_types::Rv;
use std::alloc::AllocError;
use wire::WireFault;

/// The reply to a payload that is no call, by why it is none: CKR_FUNCTION_NOT_SUPPORTED where its function is unknown,
/// CKR_ARGUMENTS_BAD where it is malformed or too long. An error where it might be a call, but an allocation failed.
pub fn reply_to_fault(fault: WireFault) -> Result<Reply, AllocError>
    ensures reply { IfOk result (λ reply. reply ≡ refusal_of fault) }
    ensures told { OnOk result (fault ≢ wire_faults.Memory) }
    ensures memory { IfErr result (λ _. fault ≡ wire_faults.Memory) }
{
    match fault {
        WireFault::UnknownFunction => Ok(Reply::Code(Rv::FunctionNotSupported)),
        WireFault::Malformed | WireFault::TooLong => Ok(Reply::Code(Rv::ArgumentsBad)),
        WireFault::Memory => Err(AllocError),
    }
}
