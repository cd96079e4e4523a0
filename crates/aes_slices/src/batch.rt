//! Texts by batches of eight blocks.

ghost use Rattle.std.specs.Prelude.{◌≡◌, ℕ, ◌+◌, ◌-◌, ◌*◌, ◌^◌, ◌<◌, ◌≤◌, ◌++◌, length, take, drop};
ghost use Rattle.std.specs.Int.{w64, w128, to_be_bytes};
ghost use Rattle.fips_197.specs.Bytes.{xor_bytes};
ghost use Rattle.fips_197.specs.Texts.{block_of};
ghost use Rattle.aes_planes.specs.Planes.{vector_of};

use crate::eight::{bytes_of, eight_at, store_bytes};
use aes_planes::Eight;
use std::simd::prelude::*;

/// The number of bytes of eight blocks.
pub const BATCH_SIZE: usize = 128;

/// Eight blocks, one after another.
pub type Batch = [u8; BATCH_SIZE];

// Bytes, and zeros after them.
fn filled(bytes: &[u8]) -> Batch
    requires { length bytes.now ≤ 128 }
    ensures { take (length bytes.now) result ≡ bytes.now }
{
    let mut batch = [0; BATCH_SIZE];
    batch[..bytes.len()].copy_from_slice(bytes);
    batch
}

// Bytes, the first bytes of a piece after them, and zeros after those.
fn joined(front: &[u8], piece: &[u8]) -> Batch
    requires { length front.now ≤ 128 }
    ensures { take (length front.now + length piece.now) result ≡ take 128 (front.now ++ piece.now) }
{
    let mut batch = filled(front);
    let len = piece.len().min(BATCH_SIZE - front.len());
    batch[front.len()..front.len() + len].copy_from_slice(&piece[..len]);
    batch
}

/// The blocks from block 8 n on of a text, which is given as its first bytes and a piece after them. What stands after the text's
/// end isn't said.
pub fn batch_at(front: &[u8], piece: &[u8], n: usize) -> Batch
    requires front { length front.now ≤ 128 }
    requires within { 128 * n ≤ length front.now + length piece.now }
    ensures { take (length front.now + length piece.now - 128 * n) result ≡ take 128 (drop (128 * n) (front.now ++ piece.now)) }
{
    let at = BATCH_SIZE * n;
    if at < front.len() {
        return joined(front, piece);
    }
    let rest = &piece[at - front.len()..];
    filled(&rest[..rest.len().min(BATCH_SIZE)])
}

/// The exclusive or of batches, block by block.
pub fn xor_batches(x: &Batch, y: &Batch) -> Batch
    ensures { (i : ℕ) → i < 8 → block_of result i ≡ xor_bytes (block_of x.now i) (block_of y.now i) }
{
    let a = eight_at(x, 0);
    let b = eight_at(y, 0);
    bytes_of(Eight {
        v0: a.v0 ^ b.v0,
        v1: a.v1 ^ b.v1,
        v2: a.v2 ^ b.v2,
        v3: a.v3 ^ b.v3,
        v4: a.v4 ^ b.v4,
        v5: a.v5 ^ b.v5,
        v6: a.v6 ^ b.v6,
        v7: a.v7 ^ b.v7,
    })
}

// The bytes of a number of 64 bits, the highest first. In this form they become one store, where those of `to_be_bytes` are
// stored one by one.
#[inline(always)]
fn half_of(number: u64) -> [u8; 8]
    ensures { result ≡ to_be_bytes w64 number }
{
    number.swap_bytes().to_le_bytes()
}

// A number as a block, its highest byte first.
#[inline(always)]
fn block_of_number(number: u128) -> [u8; 16]
    ensures { result ≡ to_be_bytes w128 number }
{
    let mut block = [0; 16];
    block[..8].copy_from_slice(&half_of((number >> 64) as u64));
    block[8..].copy_from_slice(&half_of((number % (1 << 64)) as u64));
    block
}

/// So many numbers from `first` on, each as a block, its highest byte first. What stands after them isn't said.
pub fn numbers(first: u128, count: usize) -> Batch
    requires few { count ≤ 8 }
    requires fits { first + count ≤ 2 ^ 128 }
    ensures { (i : ℕ) → i < count → block_of result i ≡ to_be_bytes w128 (first + i) }
{
    let mut batch = [0; BATCH_SIZE];
    'turns: for i in 0..count {
        store_bytes(&mut batch, i, block_of_number(first + i as u128));
    }
    batch
}
