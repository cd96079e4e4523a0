//! Eight blocks of a text.

ghost use Rattle.std.specs.Prelude.{◌≡◌, ◌≢◌, ℕ, ◌+◌, ◌*◌, ◌<◌, ◌≤◌, length};
ghost use Rattle.fips_197.specs.Bytes.{IsBlock};
ghost use Rattle.fips_197.specs.Texts.{block_of};
ghost use Rattle.aes_planes.specs.Planes.{vector_of};
ghost use Rattle.aes_slices.specs.Slices.{eight_at};

use crate::batch::{BATCH_SIZE, Batch};
use aes_planes::Eight;
use std::simd::prelude::*;

// Block i of a text.
#[inline(always)]
fn vector_at(text: &[u8], i: usize) -> u8x16
    requires { 16 * i + 16 ≤ length text.now }
    ensures { result ≡ block_of text.now i }
{
    u8x16::from_slice(&text[16 * i..16 * i + 16])
}

/// The blocks from block 8 n of a text on.
#[inline(always)]
pub(crate) fn eight_at(text: &[u8], n: usize) -> Eight
    requires { 128 * n + 128 ≤ length text.now }
    ensures { result ≡ eight_at text.now n }
{
    Eight {
        v0: vector_at(text, 8 * n),
        v1: vector_at(text, 8 * n + 1),
        v2: vector_at(text, 8 * n + 2),
        v3: vector_at(text, 8 * n + 3),
        v4: vector_at(text, 8 * n + 4),
        v5: vector_at(text, 8 * n + 5),
        v6: vector_at(text, 8 * n + 6),
        v7: vector_at(text, 8 * n + 7),
    }
}

/// Block i of a text becomes the vector given, and the others stay.
#[inline(always)]
pub(crate) fn store(text: &mut [u8], i: usize, x: u8x16)
    requires { 16 * i + 16 ≤ length text.old }
    ensures here { block_of text.new i ≡ x }
    ensures others { (k : ℕ) → k ≢ i → block_of text.new k ≡ block_of text.old k }
    ensures size { length text.new ≡ length text.old }
{
    x.copy_to_slice(&mut text[16 * i..16 * i + 16]);
}

/// The same of a block's bytes. They go by no vector, into which they would be put one by one.
#[inline(always)]
pub(crate) fn store_bytes(text: &mut [u8], i: usize, block: [u8; 16])
    requires { 16 * i + 16 ≤ length text.old }
    ensures here { block_of text.new i ≡ block }
    ensures others { (k : ℕ) → k ≢ i → block_of text.new k ≡ block_of text.old k }
    ensures size { length text.new ≡ length text.old }
{
    text[16 * i..16 * i + 16].copy_from_slice(&block);
}

/// The blocks from block 8 n of a text on become those given, and the others stay.
#[inline(always)]
pub(crate) fn store_eight(text: &mut [u8], n: usize, s: Eight)
    requires { 128 * n + 128 ≤ length text.old }
    ensures here { eight_at text.new n ≡ s }
    ensures others { (k : ℕ) → k < n → eight_at text.new k ≡ eight_at text.old k }
    ensures size { length text.new ≡ length text.old }
{
    store(text, 8 * n, s.v0);
    store(text, 8 * n + 1, s.v1);
    store(text, 8 * n + 2, s.v2);
    store(text, 8 * n + 3, s.v3);
    store(text, 8 * n + 4, s.v4);
    store(text, 8 * n + 5, s.v5);
    store(text, 8 * n + 6, s.v6);
    store(text, 8 * n + 7, s.v7);
}

/// Eight blocks, one after another.
#[inline(always)]
pub(crate) fn bytes_of(s: Eight) -> Batch
    ensures { eight_at result 0 ≡ s }
{
    let mut batch = [0; BATCH_SIZE];
    store_eight(&mut batch, 0, s);
    batch
}

// What the type of a vector says of its lanes. It does nothing: a proof cites it.
#[inline(always)]
fn is_block(_x: u8x16)
    ensures { IsBlock _x }
{}

/// The same of eight.
#[inline(always)]
pub(crate) fn are_blocks(s: Eight)
    ensures { (j : ℕ) → j < 8 → IsBlock (vector_of s j) }
{
    is_block(s.v0);
    is_block(s.v1);
    is_block(s.v2);
    is_block(s.v3);
    is_block(s.v4);
    is_block(s.v5);
    is_block(s.v6);
    is_block(s.v7);
}
