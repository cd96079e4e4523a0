//! The rounds of the cipher (FIPS 197, 5.1) in the basis of the rounds. There the constant 0x63 of the S-box is left off, and
//! stands in the round keys.

ghost use Rattle.std.specs.Prelude.{◌≡◌, ℕ, List, map, bit_xor};
ghost use Rattle.fips_197.specs.Bytes.{IsBlock};
ghost use Rattle.fips_197.specs.Cipher.{round, last_round};
ghost use Rattle.aes_vector.specs.Halves.{basis};

use crate::halves::{by_halves, inverted};
use crate::rows::{next_row, shifted, shifted_before, shifted_next};
use crate::tables::{LAST_LOWER, LAST_UPPER, ONCE_LOWER, ONCE_UPPER, TWICE_LOWER, TWICE_UPPER};
use std::simd::prelude::*;

/// A round under a round key.
#[inline(always)]
pub(crate) fn round(x: u8x16, key: u8x16) -> u8x16
    ensures { (s k : List ℕ) → IsBlock s → IsBlock k → x ≡ map basis s
        → key ≡ map (λ b. basis (bit_xor b 0x63)) k → result ≡ map basis (round k s) }
{
    let halves = inverted(x);
    let once = by_halves(halves, ONCE_UPPER, ONCE_LOWER);
    let twice = by_halves(halves, TWICE_UPPER, TWICE_LOWER);
    let front = shifted(twice) ^ shifted_next(once);
    (shifted_before(once) ^ key) ^ front ^ next_row(front)
}

/// The last round, which does not mix columns, and leads back from the basis.
#[inline(always)]
pub(crate) fn last_round(x: u8x16, key: u8x16) -> u8x16
    ensures { (s k : List ℕ) → IsBlock s → IsBlock k → x ≡ map basis s → key ≡ map (λ b. bit_xor b 0x63) k
        → result ≡ last_round k s }
{
    shifted(by_halves(inverted(x), LAST_UPPER, LAST_LOWER)) ^ key
}
