//! From blocks to their planes, and back: an 8 by 8 transposition of bits at each byte.

ghost use Rattle.std.specs.Prelude.{◌≡◌, ℕ, ◌+◌, ◌*◌, ◌^◌, ◌<◌};
ghost use Rattle.fips_197.specs.Field.{bit};
ghost use Rattle.aes_planes.specs.Planes.{bits_at, vector_of, IsSliced};

use aes_planes::Eight;
use std::simd::prelude::*;

// The bits of `b` at the ones of `mask` change places with the bits of `a` that stand `by` higher.
#[inline(always)]
fn swapped(a: u8x16, b: u8x16, mask: u8, by: u8) -> (u8x16, u8x16)
    requires { by < 8 }
    ensures moved { (k : ℕ) → k + by < 8 → bit mask k ≡ 1
        → (bits_at (k + by) result.0 ≡ bits_at k b) × (bits_at k result.1 ≡ bits_at (k + by) a) }
    ensures first { (k : ℕ) → k < 8 → bit (mask * 2 ^ by) k ≡ 0 → bits_at k result.0 ≡ bits_at k a }
    ensures second { (k : ℕ) → bit mask k ≡ 0 → bits_at k result.1 ≡ bits_at k b }
{
    let moved = ((a >> u8x16::splat(by)) ^ b) & u8x16::splat(mask);
    (a ^ (moved << u8x16::splat(by)), b ^ moved)
}

/// The planes of eight blocks, and the blocks of eight planes: bit i of each byte of vector j changes places with bit j of
/// the same byte of vector i.
#[inline(always)]
pub(crate) fn transposed(s: Eight) -> Eight
    ensures { (j : ℕ) → j < 8 → IsSliced result j (vector_of s j) }
{
    let (a0, a1) = swapped(s.v0, s.v1, 0x55, 1);
    let (a2, a3) = swapped(s.v2, s.v3, 0x55, 1);
    let (a4, a5) = swapped(s.v4, s.v5, 0x55, 1);
    let (a6, a7) = swapped(s.v6, s.v7, 0x55, 1);
    let (b0, b2) = swapped(a0, a2, 0x33, 2);
    let (b1, b3) = swapped(a1, a3, 0x33, 2);
    let (b4, b6) = swapped(a4, a6, 0x33, 2);
    let (b5, b7) = swapped(a5, a7, 0x33, 2);
    let (c0, c4) = swapped(b0, b4, 0x0f, 4);
    let (c1, c5) = swapped(b1, b5, 0x0f, 4);
    let (c2, c6) = swapped(b2, b6, 0x0f, 4);
    let (c3, c7) = swapped(b3, b7, 0x0f, 4);
    Eight {
        v0: c0,
        v1: c1,
        v2: c2,
        v3: c3,
        v4: c4,
        v5: c5,
        v6: c6,
        v7: c7,
    }
}
