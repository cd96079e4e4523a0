//! The rounds of the equivalent inverse cipher (FIPS 197, 5.3.5) in the basis of the inverse rounds. There 0x63, which the
//! inverse S-box takes off, is taken off already.

ghost use Rattle.std.specs.Prelude.{◌≡◌, ℕ, List, map};
ghost use Rattle.fips_197.specs.Bytes.{IsBlock};
ghost use Rattle.fips_197.specs.InverseCipher.{inverse_round, inverse_last_round};
ghost use Rattle.aes_vector.specs.Halves.{inverse_basis};

use crate::halves::{by_halves, inverted};
use crate::rows::{next_row, shifted_back};
use crate::tables::{
    ELEVEN_LOWER, ELEVEN_UPPER, END_LOWER, END_UPPER, FOURTEEN_LOWER, FOURTEEN_UPPER, NINE_LOWER,
    NINE_UPPER, THIRTEEN_LOWER, THIRTEEN_UPPER,
};
use std::simd::prelude::*;

/// A round under a round key.
#[inline(always)]
pub(crate) fn inverse_round(x: u8x16, key: u8x16) -> u8x16
    ensures { (s k : List ℕ) → IsBlock s → IsBlock k → x ≡ map inverse_basis s → key ≡ map inverse_basis k
        → result ≡ map inverse_basis (inverse_round k s) }
{
    let halves = inverted(shifted_back(x));
    let a = by_halves(halves, NINE_UPPER, NINE_LOWER);
    let b = next_row(a) ^ by_halves(halves, THIRTEEN_UPPER, THIRTEEN_LOWER);
    let c = next_row(b) ^ by_halves(halves, ELEVEN_UPPER, ELEVEN_LOWER);
    next_row(c) ^ by_halves(halves, FOURTEEN_UPPER, FOURTEEN_LOWER) ^ key
}

/// The last round, which does not mix columns, and leads back from the basis.
#[inline(always)]
pub(crate) fn inverse_last_round(x: u8x16, key: u8x16) -> u8x16
    ensures { (s k : List ℕ) → IsBlock s → IsBlock k → x ≡ map inverse_basis s → key ≡ k
        → result ≡ inverse_last_round k s }
{
    by_halves(inverted(shifted_back(x)), END_UPPER, END_LOWER) ^ key
}
