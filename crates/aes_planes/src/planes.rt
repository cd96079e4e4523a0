//! Eight vectors: eight blocks, or the eight planes of their bits.

use std::simd::prelude::*;

/// Eight vectors of 16 bytes: eight blocks, or their planes. Plane i has bit i of each byte of the blocks: bit j of its byte
/// l is bit i of byte l of block j.
#[derive(Clone, Copy)]
pub struct Eight {
    pub v0: u8x16,
    pub v1: u8x16,
    pub v2: u8x16,
    pub v3: u8x16,
    pub v4: u8x16,
    pub v5: u8x16,
    pub v6: u8x16,
    pub v7: u8x16,
}
