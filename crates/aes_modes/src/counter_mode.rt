//! The counter mode (SP 800-38A, 6.5).

ghost use Rattle.std.specs.Prelude.{◌≡◌, ℕ, ◌⊎◌, ◌+◌, ◌^◌, ◌<◌, ◌≤◌, ◌↔◌, List, length, IfOk, IfErr, IsErrOf};
ghost use Rattle.aes_modes.specs.Blocks.{blocks_begun};
ghost use Rattle.aes_modes.specs.Counter.{counter_start};
ghost use Rattle.aes_modes.specs.Modes.{ctr_encrypted};
ghost use Rattle.aes_modes.specs.Directions.{IsTurned};

use crate::batches::push_counted;
use crate::blocks::{filled_block, is_key, rest_of, xor_number};
use crate::counter::has_counters;
use crate::{CounterBits, Direction, ModeFault};
use aes_vector::{BLOCK_SIZE, Block, Key};
use std::alloc::{AllocError, Global};

/// The text encrypted, where each of its blocks has a counter.
fn encrypted(
    alloc: Global,
    key: &Key,
    bits: CounterBits,
    start: Block,
    text: &[u8],
) -> Result<Vec<u8>, AllocError>
    requires bits { bits ≤ 128 }
    requires counters { counter_start bits start + blocks_begun text.now ≤ 2 ^ bits }
    ensures { IfOk result (λ out. out.items ≡ ctr_encrypted key.now bits start text.now) }
{
    let first = u128::from_be_bytes(start);
    let whole = text.len() / BLOCK_SIZE;
    let mut out = Vec::with_capacity(alloc, text.len())?;
    push_counted(alloc, &mut out, key, first, b"", text, whole)?;
    let rest = rest_of(text);
    if rest.is_empty() {
        return Ok(out);
    }
    let output = key.encrypt_number(first + whole as u128);
    let last = xor_number(filled_block(rest, 0), output).to_be_bytes();
    out.extend_from_slice(&last[..rest.len()])?;
    Ok(out)
}

/// A text of any length under CTR (SP 800-38A, 6.5). The counters begin with `start`, whose `bits`
/// low bits count. The result has the text's length in bytes, and both directions are one.
///
/// `CounterEnd` where a counter would come again: where the number of those bits and the blocks that the text
/// begins come to more than 2 to the `bits`. `Memory` where the allocation of the
/// result fails.
pub fn ctr(
    alloc: Global,
    key: &Key,
    direction: Direction,
    bits: CounterBits,
    start: Block,
    text: &[u8],
) -> Result<Vec<u8>, ModeFault>
    ensures length { IfOk result (λ out. length out.items ≡ length text.now) }
    ensures value { IfOk result (λ out.
        IsTurned direction (ctr_encrypted key.now bits start) text.now out.items) }
    ensures only { IfOk result (λ out. (x : List ℕ)
        → IsTurned direction (ctr_encrypted key.now bits start) text.now x → x ≡ out.items) }
    ensures counter_end { IsErrOf result ModeFault.CounterEnd
        ↔ (2 ^ bits < counter_start bits start + blocks_begun text.now) }
    ensures faults { IfErr result (λ fault. (fault ≡ ModeFault.CounterEnd) ⊎ (fault ≡ ModeFault.Memory)) }
{
    is_key(key);
    if !has_counters(bits, start, text.len().div_ceil(BLOCK_SIZE)) {
        return Err(ModeFault::CounterEnd);
    }
    match direction {
        Direction::Encrypt | Direction::Decrypt => Ok(encrypted(alloc, key, bits, start, text)?),
    }
}
