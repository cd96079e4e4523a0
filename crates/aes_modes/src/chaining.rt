//! The cipher block chaining mode (SP 800-38A, 6.2).

ghost use Rattle.std.specs.Prelude.{◌≡◌, ◌≢◌, ℕ, ◌⊎◌, ◌+◌, ◌*◌, ◌%◌, ◌/◌, ◌↔◌, ◌++◌, List, length, IfOk, IfErr, IsErrOf};
ghost use Rattle.fips_197.specs.Bytes.{AreBytes};
ghost use Rattle.aes_modes.specs.Blocks.{IsWhole};
ghost use Rattle.aes_modes.specs.Modes.{chained, cbc_blocks, cbc_encrypted};
ghost use Rattle.aes_modes.specs.Directions.{IsTurned};

use crate::batches::push_unchained;
use crate::blocks::is_key;
use crate::{Direction, ModeFault};
use aes_vector::{BLOCK_SIZE, Block, Key, are_bytes, block_at, xor_blocks};
use std::alloc::{AllocError, Global};

/// Adds the text's whole blocks, encrypted, to `out`, and gives what the next block is added to.
pub(crate) fn encrypt_blocks(
    out: &mut Vec<u8>,
    key: &Key,
    iv: Block,
    text: &[u8],
) -> Result<Block, AllocError>
    ensures length { IfOk result (λ _.
        length out.new.items ≡ length out.old.items + 16 * (length text.now / 16)) }
    ensures blocks { IfOk result (λ _.
        out.new.items ≡ out.old.items ++ cbc_blocks key.now iv text.now (length text.now / 16)) }
    ensures chained { IfOk result (λ next. next ≡ chained key.now iv text.now (length text.now / 16)) }
{
    let mut before = iv;
    'turns: for i in 0..text.len() / BLOCK_SIZE {
        before = key.encipher(xor_blocks(block_at(text, i), before));
        out.extend_from_slice(&before)?;
    }
    Ok(before)
}

fn encrypted(alloc: Global, key: &Key, iv: Block, text: &[u8]) -> Result<Vec<u8>, AllocError>
    requires { IsWhole text.now }
    ensures length { IfOk result (λ out. length out.items ≡ length text.now) }
    ensures value { IfOk result (λ out. out.items ≡ cbc_encrypted key.now iv text.now) }
{
    let mut out = Vec::with_capacity(alloc, text.len())?;
    encrypt_blocks(&mut out, key, iv, text)?;
    Ok(out)
}

/// The text of whole blocks that is encrypted to `text`.
pub(crate) fn decrypted(
    alloc: Global,
    key: &Key,
    iv: Block,
    text: &[u8],
) -> Result<Vec<u8>, AllocError>
    requires { IsWhole text.now }
    ensures length { IfOk result (λ out. length out.items ≡ length text.now) }
    ensures value { IfOk result (λ out. cbc_encrypted key.now iv out.items ≡ text.now) }
    ensures only { IfOk result (λ out. (x : List ℕ) → AreBytes x → IsWhole x
        → cbc_encrypted key.now iv x ≡ text.now → x ≡ out.items) }
{
    is_key(key);
    are_bytes(&iv);
    are_bytes(text);
    let mut out = Vec::with_capacity(alloc, text.len())?;
    push_unchained(alloc, &mut out, key, iv, b"", text, text.len() / BLOCK_SIZE)?;
    are_bytes(&out);
    Ok(out)
}

/// A text of whole blocks under CBC (SP 800-38A, 6.2), from the initialization vector `iv`. The
/// result has the text's length in bytes.
///
/// `LenRange` where the length is no multiple of 16, and `Memory` where the result gets no memory.
pub fn cbc(
    alloc: Global,
    key: &Key,
    direction: Direction,
    iv: Block,
    text: &[u8],
) -> Result<Vec<u8>, ModeFault>
    ensures length { IfOk result (λ out. length out.items ≡ length text.now) }
    ensures value { IfOk result (λ out. IsTurned direction (cbc_encrypted key.now iv) text.now out.items) }
    ensures only { IfOk result (λ out. (x : List ℕ) → AreBytes x → IsWhole x
        → IsTurned direction (cbc_encrypted key.now iv) text.now x → x ≡ out.items) }
    ensures len_range { IsErrOf result ModeFault.LenRange ↔ (length text.now % 16 ≢ 0) }
    ensures faults { IfErr result (λ fault. (fault ≡ ModeFault.LenRange) ⊎ (fault ≡ ModeFault.Memory)) }
{
    if text.len() % BLOCK_SIZE != 0 {
        return Err(ModeFault::LenRange);
    }
    match direction {
        Direction::Encrypt => Ok(encrypted(alloc, key, iv, text)?),
        Direction::Decrypt => Ok(decrypted(alloc, key, iv, text)?),
    }
}
