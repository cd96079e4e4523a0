//! Eight blocks under a key's planes.

ghost use Rattle.std.specs.Prelude.{◌≡◌, ℕ, ◌<◌, ◌≤◌, List};
ghost use Rattle.fips_197.specs.Bytes.{IsBlock};
ghost use Rattle.fips_197.specs.Cipher.{cipher};
ghost use Rattle.fips_197.specs.InverseCipher.{inverse_cipher};
ghost use Rattle.aes_planes.specs.Planes.{vector_of};
ghost use Rattle.aes_slices.specs.Keys.{ArePlanes};

use crate::columns::{mixed, mixed_back};
use crate::eight::{are_blocks, eight_at};
use crate::keys::KeyPlanes;
use crate::rows::{
    in_rows, rows_shifted, rows_shifted_back, rows_shifted_back_last, rows_shifted_last,
};
use crate::transposition::transposed;
use aes_planes::{Eight, added, substituted, substituted_back};

/// The cipher (FIPS 197, 5.1) in so many rounds. The keys add the 0x63 that `substituted` leaves out: ShiftRows and MixColumns
/// leave bytes that are all 0x63 as they are.
#[inline(always)]
pub(crate) fn encrypted(keys: &KeyPlanes, rounds: usize, blocks: Eight) -> Eight
    requires low { 1 ≤ rounds }
    requires high { rounds < 15 }
    ensures { (w : List ℕ) → ArePlanes keys.now rounds w → (j : ℕ) → j < 8
        → vector_of result j ≡ cipher w rounds (vector_of blocks j) }
{
    are_blocks(blocks);
    let mut s = in_rows(added(transposed(blocks), eight_at(keys, 0)));
    'rounds: for r in 1..rounds {
        s = added(mixed(rows_shifted(substituted(s))), eight_at(keys, r));
    }
    let result = transposed(added(rows_shifted_last(substituted(s)), eight_at(keys, rounds)));
    are_blocks(result);
    result
}

/// The inverse cipher (5.3) in so many rounds: the steps of the cipher undone, from the last on. Each key but the first adds
/// 0x63 to the bytes of the state, which `substituted_back` takes off.
#[inline(always)]
pub(crate) fn decrypted(keys: &KeyPlanes, rounds: usize, blocks: Eight) -> Eight
    requires low { 1 ≤ rounds }
    requires high { rounds < 15 }
    ensures { (w : List ℕ) → ArePlanes keys.now rounds w → (j : ℕ) → j < 8
        → vector_of result j ≡ inverse_cipher w rounds (vector_of blocks j) }
{
    are_blocks(blocks);
    let mut s = in_rows(added(transposed(blocks), eight_at(keys, rounds)));
    'rounds: for i in 1..rounds {
        let t = rows_shifted_back(substituted_back(s));
        s = mixed_back(added(t, eight_at(keys, rounds - i)));
    }
    let t = rows_shifted_back_last(substituted_back(s));
    let result = transposed(added(t, eight_at(keys, 0)));
    are_blocks(result);
    result
}
