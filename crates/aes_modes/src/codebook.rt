//! The electronic codebook mode (SP 800-38A, 6.1).

ghost use Rattle.std.specs.Prelude.{◌≡◌, ◌≢◌, ℕ, ◌⊎◌, ◌%◌, ◌↔◌, List, length, IfOk, IfErr, IsErrOf};
ghost use Rattle.fips_197.specs.Bytes.{AreBytes};
ghost use Rattle.aes_modes.specs.Blocks.{IsWhole};
ghost use Rattle.aes_modes.specs.Modes.{ecb_encrypted};
ghost use Rattle.aes_modes.specs.Directions.{IsTurned};

use crate::batches::{push_decrypted, push_encrypted};
use crate::blocks::is_key;
use crate::{Direction, ModeFault};
use aes_vector::{BLOCK_SIZE, Key, are_bytes};
use std::alloc::{AllocError, Global};

fn encrypted(alloc: Global, key: &Key, text: &[u8]) -> Result<Vec<u8>, AllocError>
    requires { IsWhole text.now }
    ensures length { IfOk result (λ out. length out.items ≡ length text.now) }
    ensures value { IfOk result (λ out. out.items ≡ ecb_encrypted key.now text.now) }
{
    is_key(key);
    are_bytes(text);
    let mut out = Vec::with_capacity(alloc, text.len())?;
    push_encrypted(alloc, &mut out, key, b"", text, text.len() / BLOCK_SIZE)?;
    Ok(out)
}

fn decrypted(alloc: Global, key: &Key, text: &[u8]) -> Result<Vec<u8>, AllocError>
    requires { IsWhole text.now }
    ensures length { IfOk result (λ out. length out.items ≡ length text.now) }
    ensures value { IfOk result (λ out. ecb_encrypted key.now out.items ≡ text.now) }
    ensures only { IfOk result (λ out. (x : List ℕ) → AreBytes x → IsWhole x
        → ecb_encrypted key.now x ≡ text.now → x ≡ out.items) }
{
    is_key(key);
    are_bytes(text);
    let mut out = Vec::with_capacity(alloc, text.len())?;
    push_decrypted(alloc, &mut out, key, b"", text, text.len() / BLOCK_SIZE)?;
    are_bytes(&out);
    Ok(out)
}

/// A text of whole blocks under ECB (SP 800-38A, 6.1). The result has the text's length in bytes.
///
/// `LenRange` where the length is no multiple of 16, and `Memory` where the result gets no memory.
pub fn ecb(
    alloc: Global,
    key: &Key,
    direction: Direction,
    text: &[u8],
) -> Result<Vec<u8>, ModeFault>
    ensures length { IfOk result (λ out. length out.items ≡ length text.now) }
    ensures value { IfOk result (λ out. IsTurned direction (ecb_encrypted key.now) text.now out.items) }
    ensures only { IfOk result (λ out. (x : List ℕ) → AreBytes x → IsWhole x
        → IsTurned direction (ecb_encrypted key.now) text.now x → x ≡ out.items) }
    ensures len_range { IsErrOf result ModeFault.LenRange ↔ (length text.now % 16 ≢ 0) }
    ensures faults { IfErr result (λ fault. (fault ≡ ModeFault.LenRange) ⊎ (fault ≡ ModeFault.Memory)) }
{
    if text.len() % BLOCK_SIZE != 0 {
        return Err(ModeFault::LenRange);
    }
    match direction {
        Direction::Encrypt => Ok(encrypted(alloc, key, text)?),
        Direction::Decrypt => Ok(decrypted(alloc, key, text)?),
    }
}
