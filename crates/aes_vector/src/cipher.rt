//! A block under prepared round keys.

ghost use Rattle.std.specs.Prelude.{◌≡◌, ℕ, ◌<◌, ◌≤◌, List};
ghost use Rattle.fips_197.specs.Cipher.{cipher};
ghost use Rattle.fips_197.specs.InverseCipher.{inverse_cipher};
ghost use Rattle.aes_vector.specs.Prepared.{ArePrepared, AreInversePrepared};

use crate::halves::in_tables;
use crate::inverse_round::{inverse_last_round, inverse_round};
use crate::round::{last_round, round};
use crate::round_keys::{RoundKeys, round_key};
use crate::tables::{BASIS_HIGH, BASIS_LOW, INVERSE_BASIS_HIGH, INVERSE_BASIS_LOW};
use std::simd::prelude::*;

/// The cipher (FIPS 197, 5.1) in so many rounds, under each schedule that the keys were made of.
#[inline(always)]
pub(crate) fn enciphered(keys: &RoundKeys, rounds: usize, block: u8x16) -> u8x16
    requires low { 1 ≤ rounds }
    requires high { rounds < 15 }
    ensures { (w : List ℕ) → ArePrepared keys.now rounds w → result ≡ cipher w rounds block }
{
    let mut x = in_tables(block, BASIS_LOW, BASIS_HIGH) ^ round_key(keys, 0);
    'rounds: for r in 1..rounds {
        x = round(x, round_key(keys, r));
    }
    last_round(x, round_key(keys, rounds))
}

/// The equivalent inverse cipher (5.3.5) in so many rounds, under each schedule that the keys were made of.
#[inline(always)]
pub(crate) fn deciphered(keys: &RoundKeys, rounds: usize, block: u8x16) -> u8x16
    requires low { 1 ≤ rounds }
    requires high { rounds < 15 }
    ensures { (w : List ℕ) → AreInversePrepared keys.now rounds w → result ≡ inverse_cipher w rounds block }
{
    let mut x = in_tables(block, INVERSE_BASIS_LOW, INVERSE_BASIS_HIGH) ^ round_key(keys, 0);
    'inverse_rounds: for r in 1..rounds {
        x = inverse_round(x, round_key(keys, r));
    }
    inverse_last_round(x, round_key(keys, rounds))
}
