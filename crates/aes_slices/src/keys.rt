//! Round keys by their planes.

ghost use Rattle.std.specs.Prelude.{◌≡◌, ℕ, ◌<◌, ◌≤◌};
ghost use Rattle.fips_197.specs.Cipher.{round_key};
ghost use Rattle.fips_197.specs.KeyExpansion.{key_expansion, round_count};
ghost use Rattle.aes_planes.specs.Planes.{IsSliced, with_constant};
ghost use Rattle.aes_slices.specs.Keys.{ArePlanes};

use crate::eight::store_eight;
use crate::rows::by_row;
use crate::transposition::transposed;
use aes_planes::Eight;
use aes_vector::Key;
use std::simd::prelude::*;

/// The length of the planes of the most round keys, 15: eight planes of 16 bytes for each.
pub(crate) const KEY_PLANES_SIZE: usize = 1920;

/// The planes of round keys, one key after another, and zeros after them where they are not the most. All eight blocks of a
/// key's planes are that key. 0x63 is added to each byte of all keys but the first, since the S-box's circuit leaves it out.
/// Those between the first and the last are row after row.
pub(crate) type KeyPlanes = [u8; KEY_PLANES_SIZE];

// Eight times the same vector.
#[inline(always)]
fn eightfold(x: u8x16) -> Eight
    ensures { result ≡ record { v0 = x; v1 = x; v2 = x; v3 = x; v4 = x; v5 = x; v6 = x; v7 = x } }
{
    Eight {
        v0: x,
        v1: x,
        v2: x,
        v3: x,
        v4: x,
        v5: x,
        v6: x,
        v7: x,
    }
}

// The planes of eight times the same block.
#[inline(always)]
fn planes_of(x: u8x16) -> Eight
    ensures { (j : ℕ) → j < 8 → IsSliced result j x }
{
    transposed(eightfold(x))
}

// 0x63 added to each byte.
#[inline(always)]
fn with_constant(x: u8x16) -> u8x16
    ensures { result ≡ with_constant x }
{
    x ^ u8x16::splat(0x63)
}

// Round key `r`.
#[inline(always)]
fn round_vector(key: &Key, r: usize) -> u8x16
    requires { r ≤ round_count key.now }
    ensures { result ≡ round_key (key_expansion key.now) r }
{
    u8x16::from_array(key.round_key(r))
}

/// The planes of a key's round keys.
pub(crate) fn sliced(key: &Key) -> KeyPlanes
    ensures { ArePlanes result (round_count key.now) (key_expansion key.now) }
{
    let mut planes = [0; KEY_PLANES_SIZE];
    store_eight(&mut planes, 0, planes_of(round_vector(key, 0)));
    let rounds = key.rounds();
    'keys: for r in 1..rounds {
        let round_key = with_constant(round_vector(key, r));
        store_eight(&mut planes, r, planes_of(by_row(round_key)));
    }
    let last = with_constant(round_vector(key, rounds));
    store_eight(&mut planes, rounds, planes_of(last));
    planes
}
