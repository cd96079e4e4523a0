//! A byte by its two halves: look-ups in tables of 16, all bytes of a vector at once. None is at a place in memory that a
//! secret gives, since a table stays in a register.

ghost use Rattle.std.specs.Prelude.{◌≡◌, ℕ, T, List, map, bit_xor};
ghost use Rattle.std.specs.Simd.Lanes.{Each1};
ghost use Rattle.fips_197.specs.Cipher.{substitute_bytes};
ghost use Rattle.aes_vector.specs.Halves.{look, is_place, low, high, in_tables, upper, lower, of_inverse, inverse_basis};

use crate::tables::{
    BASIS_HIGH, BASIS_LOW, INVERSE, INVERSE_BASIS_HIGH, INVERSE_BASIS_LOW, INVERSE_TIMES_A,
    LAST_LOWER, LAST_UPPER,
};
use std::simd::prelude::*;

/// The entries of a table at these places, and 0 at a place from 128 on.
#[inline(always)]
pub(crate) fn look(table: [u8; 16], at: u8x16) -> u8x16
    requires { Each1 (λ j. T (is_place j)) at }
    ensures { result ≡ map (look table) at }
{
    u8x16::from_array(table).swizzle_dyn(at)
}

/// The lower four bits of each byte.
#[inline(always)]
pub(crate) fn low(x: u8x16) -> u8x16
    ensures { result ≡ map low x }
{
    x & u8x16::splat(15)
}

/// The upper four bits of each byte.
#[inline(always)]
pub(crate) fn high(x: u8x16) -> u8x16
    ensures { result ≡ map high x }
{
    x >> u8x16::splat(4)
}

/// The inverses of bytes, each as two places of tables.
#[derive(Clone, Copy)]
pub(crate) struct Halves {
    pub(crate) upper: u8x16,
    pub(crate) lower: u8x16,
}

/// The inverses in the field of 256 elements, from bytes in the basis of the rounds.
#[inline(always)]
pub(crate) fn inverted(x: u8x16) -> Halves
    ensures upper { result.upper ≡ map upper x }
    ensures lower { result.lower ≡ map lower x }
    ensures places { Each1 (λ j. T (is_place j)) result.upper × Each1 (λ j. T (is_place j)) result.lower }
{
    let low = low(x);
    let high = high(x);
    let both = high ^ low;
    let term = look(INVERSE_TIMES_A, low);
    let upper_place = look(INVERSE, high) ^ term;
    let lower_place = look(INVERSE, both) ^ term;
    Halves {
        upper: look(INVERSE, upper_place) ^ both,
        lower: look(INVERSE, lower_place) ^ high,
    }
}

/// What two tables make of the inverses.
#[inline(always)]
pub(crate) fn by_halves(halves: Halves, above: [u8; 16], below: [u8; 16]) -> u8x16
    requires { Each1 (λ j. T (is_place j)) halves.upper × Each1 (λ j. T (is_place j)) halves.lower }
    ensures { (x : List ℕ) → halves.upper ≡ map upper x → halves.lower ≡ map lower x
        → result ≡ map (of_inverse above below) x }
{
    look(above, halves.upper) ^ look(below, halves.lower)
}

/// What two tables make of the halves of each byte.
#[inline(always)]
pub(crate) fn in_tables(x: u8x16, lows: [u8; 16], highs: [u8; 16]) -> u8x16
    ensures { result ≡ map (in_tables lows highs) x }
{
    look(lows, low(x)) ^ look(highs, high(x))
}

/// 0x63, which the S-box adds (FIPS 197, 5.1.1), added to each byte.
#[inline(always)]
pub(crate) fn with_constant(x: u8x16) -> u8x16
    ensures { result ≡ map (λ b. bit_xor b 0x63) x }
{
    x ^ u8x16::splat(0x63)
}

/// SubBytes (5.1.1).
#[inline(always)]
pub(crate) fn substituted(x: u8x16) -> u8x16
    ensures { result ≡ substitute_bytes x }
{
    let halves = inverted(in_tables(x, BASIS_LOW, BASIS_HIGH));
    with_constant(by_halves(halves, LAST_UPPER, LAST_LOWER))
}

/// Bytes in the basis of the inverse rounds.
#[inline(always)]
pub(crate) fn in_inverse_basis(x: u8x16) -> u8x16
    ensures { result ≡ map inverse_basis x }
{
    in_tables(with_constant(x), INVERSE_BASIS_LOW, INVERSE_BASIS_HIGH)
}
