//! CBC with the padding of PKCS #7 (SP 800-38A, 6.2; RFC 5652, 6.3).

ghost use Rattle.std.specs.Prelude.{◌≡◌, ◌≢◌, ℕ, ◌⊎◌, ◌%◌, ◌<◌, ◌≤◌, ◌↔◌, List, length, take, IfOk, IfErr, IfSome, IsNone, IsErrOf};
ghost use Rattle.fips_197.specs.Bytes.{AreBytes};
ghost use Rattle.aes_modes.specs.Blocks.{IsWhole};
ghost use Rattle.aes_modes.specs.Modes.{cbc_pad_encrypted};
ghost use Rattle.aes_modes.specs.Padding.{padded};
ghost use Rattle.aes_modes.specs.Directions.{IsTurned};

use crate::blocks::{filled_block, rest_of};
use crate::{Direction, ModeFault, chaining};
use aes_vector::{BLOCK_SIZE, Block, Key, xor_blocks};
use std::alloc::{AllocError, Global};

// How much is wrong with a count of padding bytes: 0 for 1 to 16 (RFC 5652, 6.3).
#[inline(always)]
fn wrong_count(count: u8) -> usize
    ensures within { result ≤ 2 }
    ensures right { result ≡ 0 → (1 ≤ count) × (count ≤ 16) }
    ensures wrong { result ≢ 0 → (count ≡ 0) ⊎ (16 < count) }
{
    (count == 0) as usize + (count as usize > BLOCK_SIZE) as usize
}

// How much is wrong with the byte that has `i` bytes behind it, under a count of padding bytes: 0 or 1.
#[inline(always)]
fn wrong_byte(byte: u8, count: u8, i: usize) -> usize
    ensures within { result ≤ 1 }
    ensures right { result ≡ 0 → i < count → byte ≡ count }
    ensures wrong { result ≢ 0 → (i < count) × (byte ≢ count) }
{
    (i < count as usize) as usize * (byte != count) as usize
}

/// The length of the text that has `text` as its padded text (RFC 5652, 6.3), if one has. `text` is
/// whole blocks, one at least. All bytes of its last block are looked at, so no read and no branch depends on a byte,
/// but for whether there is such a text.
pub fn unpadded_len(text: &[u8]) -> Option<usize>
    requires whole { IsWhole text.now }
    requires some { 0 < length text.now }
    ensures within { IfSome result (λ n. n < length text.now) }
    ensures found { IfSome result (λ n. padded (take n text.now) ≡ text.now) }
    ensures none { IsNone result → (x : List ℕ) → padded x ≢ text.now }
{
    let end = text.len() - 1;
    let count = text[end];
    let mut wrong = wrong_count(count);
    'pad: for i in 0..BLOCK_SIZE {
        wrong += wrong_byte(text[end - i], count, i);
    }
    if wrong != 0 {
        return None;
    }
    Some(text.len() - count as usize)
}

fn encrypted(alloc: Global, key: &Key, iv: Block, text: &[u8]) -> Result<Vec<u8>, AllocError>
    ensures { IfOk result (λ out. out.items ≡ cbc_pad_encrypted key.now iv text.now) }
{
    let rest = rest_of(text);
    let count = BLOCK_SIZE - rest.len();
    let mut out = Vec::with_capacity(alloc, text.len().saturating_add(count))?;
    let before = chaining::encrypt_blocks(&mut out, key, iv, text)?;
    let last = filled_block(rest, count as u8);
    out.extend_from_slice(&key.encipher(xor_blocks(last, before)))?;
    Ok(out)
}

fn decrypted(alloc: Global, key: &Key, iv: Block, text: &[u8]) -> Result<Vec<u8>, ModeFault>
    ensures value { IfOk result (λ out. cbc_pad_encrypted key.now iv out.items ≡ text.now) }
    ensures only { IfOk result (λ out. (x : List ℕ) → AreBytes x
        → cbc_pad_encrypted key.now iv x ≡ text.now → x ≡ out.items) }
    ensures len_range { IsErrOf result ModeFault.LenRange
        ↔ ((length text.now ≡ 0) ⊎ (length text.now % 16 ≢ 0)) }
    ensures bad_pad { IsErrOf result ModeFault.BadPad
        → (x : List ℕ) → AreBytes x → cbc_pad_encrypted key.now iv x ≢ text.now }
    ensures faults { IfErr result (λ fault. fault ≢ ModeFault.CounterEnd) }
{
    if text.is_empty() || text.len() % BLOCK_SIZE != 0 {
        return Err(ModeFault::LenRange);
    }
    let mut out = chaining::decrypted(alloc, key, iv, text)?;
    let Some(len) = unpadded_len(&out) else {
        return Err(ModeFault::BadPad);
    };
    out.truncate(len);
    Ok(out)
}

/// A text of any length under CBC with padding (RFC 5652, 6.3). Encrypting pads it to whole blocks, with 1 to 16
/// bytes, each of which is their number. Decrypting takes the padding off.
///
/// Encrypting fails only with `Memory`, where the allocation of the result fails. Decrypting can fail so
/// too. It also fails with `LenRange` where the length is 0 or no multiple of 16, and with `BadPad` where no
/// text is encrypted to `text`.
pub fn cbc_pad(
    alloc: Global,
    key: &Key,
    direction: Direction,
    iv: Block,
    text: &[u8],
) -> Result<Vec<u8>, ModeFault>
    ensures value { IfOk result (λ out.
        IsTurned direction (cbc_pad_encrypted key.now iv) text.now out.items) }
    ensures only { IfOk result (λ out. (x : List ℕ) → AreBytes x
        → IsTurned direction (cbc_pad_encrypted key.now iv) text.now x → x ≡ out.items) }
    ensures len_range { IsErrOf result ModeFault.LenRange
        ↔ ((direction ≡ Direction.Decrypt) × ((length text.now ≡ 0) ⊎ (length text.now % 16 ≢ 0))) }
    ensures bad_pad_direction { IsErrOf result ModeFault.BadPad → direction ≡ Direction.Decrypt }
    ensures bad_pad { IsErrOf result ModeFault.BadPad
        → (x : List ℕ) → AreBytes x → cbc_pad_encrypted key.now iv x ≢ text.now }
    ensures faults { IfErr result (λ fault. fault ≢ ModeFault.CounterEnd) }
{
    match direction {
        Direction::Encrypt => Ok(encrypted(alloc, key, iv, text)?),
        Direction::Decrypt => decrypted(alloc, key, iv, text),
    }
}
