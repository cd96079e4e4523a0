//! Round keys in the basis of the rounds, from a key schedule.

ghost use Rattle.std.specs.Prelude.{◌≡◌, ℕ, ◌<◌, ◌≤◌, List, map};
ghost use Rattle.fips_197.specs.Cipher.{round_key};
ghost use Rattle.fips_197.specs.InverseCipher.{inverse_mix_columns};
ghost use Rattle.aes_vector.specs.Halves.{inverse_basis};
ghost use Rattle.aes_vector.specs.Prepared.{ArePrepared, AreInversePrepared};

use crate::halves::{in_inverse_basis, in_tables, substituted, with_constant};
use crate::inverse_round::inverse_round;
use crate::round_keys::{RoundKeys, SCHEDULE_SIZE, round_key};
use crate::rows::shifted;
use crate::tables::{BASIS_HIGH, BASIS_LOW, PLAIN_HIGH, PLAIN_LOW};
use aes_base::are_bytes;
use std::simd::prelude::*;

// Round key r becomes the key given, and the others stay.
fn store(keys: &mut RoundKeys, r: usize, key: u8x16)
    requires { r < 15 }
    ensures here { round_key keys.new r ≡ key }
    ensures others { (q : ℕ) → q < 15 → (q ≡ r → ⊥) → round_key keys.new q ≡ round_key keys.old q }
{
    key.copy_to_slice(&mut keys[16 * r..16 * r + 16]);
}

/// The round keys that the rounds of the cipher take, from a schedule of so many rounds.
pub(crate) fn prepared(schedule: &RoundKeys, rounds: usize) -> RoundKeys
    requires low { 1 ≤ rounds }
    requires high { rounds < 15 }
    ensures { ArePrepared result rounds schedule.now }
{
    are_bytes(schedule);
    let mut keys = [0; SCHEDULE_SIZE];
    let first = in_tables(round_key(schedule, 0), BASIS_LOW, BASIS_HIGH);
    store(&mut keys, 0, first);
    'middle: for r in 1..rounds {
        let key = with_constant(round_key(schedule, r));
        store(&mut keys, r, in_tables(key, BASIS_LOW, BASIS_HIGH));
    }
    store(
        &mut keys,
        rounds,
        with_constant(round_key(schedule, rounds)),
    );
    keys
}

// A round key of the equivalent inverse cipher (FIPS 197, 5.3.5) in the basis of its rounds: an inverse round undoes SubBytes
// and ShiftRows, and then mixes.
fn inverse_mixed(key: u8x16) -> u8x16
    ensures { result ≡ map inverse_basis (inverse_mix_columns key) }
{
    let state = in_inverse_basis(shifted(substituted(key)));
    inverse_round(state, in_inverse_basis(u8x16::splat(0)))
}

/// The round keys that the rounds of the inverse cipher take, the last round key first.
pub(crate) fn inverse_prepared(schedule: &RoundKeys, rounds: usize) -> RoundKeys
    requires low { 1 ≤ rounds }
    requires high { rounds < 15 }
    ensures { AreInversePrepared result rounds schedule.now }
{
    are_bytes(schedule);
    let mut keys = [0; SCHEDULE_SIZE];
    store(&mut keys, 0, in_inverse_basis(round_key(schedule, rounds)));
    'middle: for i in 1..rounds {
        store(&mut keys, i, inverse_mixed(round_key(schedule, rounds - i)));
    }
    store(&mut keys, rounds, round_key(schedule, 0));
    keys
}

/// Round key `r` of each schedule that the keys of the rounds were made of.
pub(crate) fn plain_round_key(keys: &RoundKeys, rounds: usize, r: usize) -> u8x16
    requires low { 1 ≤ rounds }
    requires high { rounds < 15 }
    requires within { r ≤ rounds }
    ensures { (w : List ℕ) → ArePrepared keys.now rounds w → result ≡ round_key w r }
{
    let key = round_key(keys, r);
    if r == 0 {
        in_tables(key, PLAIN_LOW, PLAIN_HIGH)
    } else if r < rounds {
        with_constant(in_tables(key, PLAIN_LOW, PLAIN_HIGH))
    } else {
        with_constant(key)
    }
}
