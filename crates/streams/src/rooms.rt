//! How long an output buffer calls need, by the bytes that are buffered: at most a block of data without
//! output.

ghost use Rattle.std.specs.Prelude.{◌≡◌, ◌≢◌, ◌⊎◌, [], ◌+◌, ◌-◌, ◌*◌, ◌/◌, ◌%◌, ◌^◌, ◌<◌, ◌≤◌, ◌++◌, ◌↔◌, length, IfOk, IfErr, IsErrOf};
ghost use Rattle.aes_modes.specs.Blocks.{blocks_begun};
ghost use Rattle.aes_modes.specs.Counter.{counter_start};

use crate::ctr_stream::CtrStream;
use aes_modes::ModeFault;
use aes_vector::BLOCK_SIZE;
use std::alloc::Global;

/// The whole blocks of what is buffered and of a part, where so many bytes at least stay buffered.
pub(crate) fn so_far(waiting: usize, held: usize, input: &[u8]) -> usize
    requires { waiting ≤ 16 }
    ensures { result ≡ 16 * ((waiting + length input.now - held) / 16) }
{
    (waiting + input.len()).saturating_sub(held) / BLOCK_SIZE * BLOCK_SIZE
}

/// Whole blocks, or none.
pub(crate) fn whole(waiting: usize, input: &[u8]) -> Result<usize, ModeFault>
    requires { waiting ≤ 16 }
    ensures room { IfOk result (λ room. room ≡ waiting + length input.now) }
    ensures len_range { IsErrOf result ModeFault.LenRange ↔ ((waiting + length input.now) % 16 ≢ 0) }
    ensures faults { IfErr result (λ fault. fault ≡ ModeFault.LenRange) }
{
    let rest = waiting + input.len();
    if rest % BLOCK_SIZE != 0 {
        return Err(ModeFault::LenRange);
    }
    Ok(rest)
}

/// Whole blocks, the last of which has the padding.
pub(crate) fn padded(waiting: usize, input: &[u8]) -> usize
    requires { waiting ≤ 16 }
    ensures { result ≡ 16 * ((waiting + length input.now) / 16 + 1) }
{
    ((waiting + input.len()) / BLOCK_SIZE + 1) * BLOCK_SIZE
}

/// Whole blocks, one at least, from the last of which a padding is taken off.
pub(crate) fn unpadded(waiting: usize, input: &[u8]) -> Result<usize, ModeFault>
    requires { waiting ≤ 16 }
    ensures room { IfOk result (λ room. room ≡ waiting + length input.now) }
    ensures len_range { IsErrOf result ModeFault.LenRange
        ↔ ((waiting + length input.now ≡ 0) ⊎ ((waiting + length input.now) % 16 ≢ 0)) }
    ensures faults { IfErr result (λ fault. fault ≡ ModeFault.LenRange) }
{
    let rest = waiting + input.len();
    if rest == 0 || rest % BLOCK_SIZE != 0 {
        return Err(ModeFault::LenRange);
    }
    Ok(rest)
}

/// As many bytes as there are, where they have counters.
pub(crate) fn counted(stream: &CtrStream, input: &[u8]) -> Result<usize, ModeFault>
    ensures room { IfOk result (λ room. room ≡ length input.now) }
    ensures counter_end { IsErrOf result ModeFault.CounterEnd
        ↔ (2 ^ stream.now.bits < counter_start stream.now.bits stream.now.start + blocks_begun (stream.now.taken ++ input.now)) }
    ensures faults { IfErr result (λ fault. fault ≡ ModeFault.CounterEnd) }
{
    if stream.ends_counters(input) {
        return Err(ModeFault::CounterEnd);
    }
    Ok(input.len())
}

/// No bytes, where none are buffered.
pub(crate) fn nothing_more(alloc: Global, waiting: usize) -> Result<Vec<u8>, ModeFault>
    ensures nothing { IfOk result (λ out. (out.items ≡ []) × (waiting ≡ 0)) }
    ensures len_range { IsErrOf result ModeFault.LenRange ↔ (waiting ≢ 0) }
    ensures faults { IfErr result (λ fault. fault ≡ ModeFault.LenRange) }
{
    if waiting != 0 {
        return Err(ModeFault::LenRange);
    }
    Ok(Vec::new(alloc))
}
