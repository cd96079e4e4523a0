//! The blocks of a text, eight at once where it is long. A text is given as its first bytes and a piece after them.

ghost use Rattle.std.specs.Prelude.{◌≡◌, ◌+◌, ◌*◌, ◌^◌, ◌≤◌, ◌++◌, length, take, IfOk};
ghost use Rattle.std.specs.Int.{w128, to_be_bytes};
ghost use Rattle.fips_197.specs.Bytes.{xor_bytes};
ghost use Rattle.fips_197.specs.Texts.{block_of};
ghost use Rattle.fips_197.specs.Encrypt.{encrypted_block};
ghost use Rattle.aes_slices.specs.Decrypt.{decrypted_block};
ghost use Rattle.aes_modes.specs.Blocks.{first_blocks};

use aes_slices::{BatchKey, batch_at, numbers, xor_batches};
use aes_vector::{BLOCK_SIZE, Block, Key};
use std::alloc::{AllocError, Global};

// How many blocks a batch has.
const BATCH_BLOCKS: usize = 8;

/// Adds to `out` what the text's first blocks are encrypted to.
pub fn push_encrypted(
    alloc: Global,
    out: &mut Vec<u8>,
    key: &Key,
    front: &[u8],
    piece: &[u8],
    blocks: usize,
) -> Result<(), AllocError>
    requires front { length front.now ≤ 128 }
    requires within { 16 * blocks ≤ length front.now + length piece.now }
    ensures { IfOk result (λ _. out.new.items ≡ out.old.items
        ++ first_blocks (λ i. encrypted_block key.now (block_of (front.now ++ piece.now) i)) blocks) }
{
    let cipher = BatchKey::new(alloc, key, blocks)?;
    'turns: for n in 0..blocks.div_ceil(BATCH_BLOCKS) {
        let left = (blocks - BATCH_BLOCKS * n).min(BATCH_BLOCKS);
        let batch = cipher.encipher(&batch_at(front, piece, n), left);
        out.extend_from_slice(&batch[..BLOCK_SIZE * left])?;
    }
    Ok(())
}

/// Adds to `out` what the text's first blocks are decrypted to.
pub fn push_decrypted(
    alloc: Global,
    out: &mut Vec<u8>,
    key: &Key,
    front: &[u8],
    piece: &[u8],
    blocks: usize,
) -> Result<(), AllocError>
    requires front { length front.now ≤ 128 }
    requires within { 16 * blocks ≤ length front.now + length piece.now }
    ensures { IfOk result (λ _. out.new.items ≡ out.old.items
        ++ first_blocks (λ i. decrypted_block key.now (block_of (front.now ++ piece.now) i)) blocks) }
{
    let cipher = BatchKey::new(alloc, key, blocks)?;
    'turns: for n in 0..blocks.div_ceil(BATCH_BLOCKS) {
        let left = (blocks - BATCH_BLOCKS * n).min(BATCH_BLOCKS);
        let batch = cipher.decipher(&batch_at(front, piece, n), left);
        out.extend_from_slice(&batch[..BLOCK_SIZE * left])?;
    }
    Ok(())
}

// A block, and at most 16 bytes after it.
fn after_block(block: Block, bytes: &[u8]) -> [u8; 32]
    requires { length bytes.now ≤ 16 }
    ensures { take (16 + length bytes.now) result ≡ block ++ bytes.now }
{
    let mut joined = [0; 32];
    joined[..BLOCK_SIZE].copy_from_slice(&block);
    joined[BLOCK_SIZE..BLOCK_SIZE + bytes.len()].copy_from_slice(bytes);
    joined
}

/// Adds to `out` what the text's first blocks are decrypted to, and to each the block before it, first `iv`.
pub fn push_unchained(
    alloc: Global,
    out: &mut Vec<u8>,
    key: &Key,
    iv: Block,
    front: &[u8],
    piece: &[u8],
    blocks: usize,
) -> Result<(), AllocError>
    requires front { length front.now ≤ 16 }
    requires within { 16 * blocks ≤ length front.now + length piece.now }
    ensures { IfOk result (λ _. out.new.items ≡ out.old.items
        ++ first_blocks (λ i. xor_bytes (decrypted_block key.now (block_of (front.now ++ piece.now) i))
        (block_of (iv ++ (front.now ++ piece.now)) i)) blocks) }
{
    let cipher = BatchKey::new(alloc, key, blocks)?;
    let joined = after_block(iv, front);
    let before = &joined[..BLOCK_SIZE + front.len()];
    'turns: for n in 0..blocks.div_ceil(BATCH_BLOCKS) {
        let left = (blocks - BATCH_BLOCKS * n).min(BATCH_BLOCKS);
        let decrypted = cipher.decipher(&batch_at(front, piece, n), left);
        let batch = xor_batches(&decrypted, &batch_at(before, piece, n));
        out.extend_from_slice(&batch[..BLOCK_SIZE * left])?;
    }
    Ok(())
}

/// Adds to `out` the text's first blocks, and to each what a number is encrypted to, from `first` on.
pub fn push_counted(
    alloc: Global,
    out: &mut Vec<u8>,
    key: &Key,
    first: u128,
    front: &[u8],
    piece: &[u8],
    blocks: usize,
) -> Result<(), AllocError>
    requires front { length front.now ≤ 128 }
    requires within { 16 * blocks ≤ length front.now + length piece.now }
    requires counters { first + blocks ≤ 2 ^ 128 }
    ensures { IfOk result (λ _. out.new.items ≡ out.old.items
        ++ first_blocks (λ i. xor_bytes (block_of (front.now ++ piece.now) i)
        (encrypted_block key.now (to_be_bytes w128 (first + i)))) blocks) }
{
    let cipher = BatchKey::new(alloc, key, blocks)?;
    'turns: for n in 0..blocks.div_ceil(BATCH_BLOCKS) {
        let left = (blocks - BATCH_BLOCKS * n).min(BATCH_BLOCKS);
        let counters = numbers(first + (BATCH_BLOCKS * n) as u128, left);
        let batch = xor_batches(
            &batch_at(front, piece, n),
            &cipher.encipher(&counters, left),
        );
        out.extend_from_slice(&batch[..BLOCK_SIZE * left])?;
    }
    Ok(())
}
