//! The columns of states that are row after row, mixed: products in the field by doubling, and sums.

ghost use Rattle.std.specs.Prelude.{◌≡◌, ℕ, List, map};
ghost use Rattle.fips_197.specs.Bytes.{AreBytes, IsBlock};
ghost use Rattle.fips_197.specs.Field.{product};
ghost use Rattle.fips_197.specs.Cipher.{mix_columns};
ghost use Rattle.fips_197.specs.InverseCipher.{inverse_mix_columns};
ghost use Rattle.aes_planes.specs.Planes.{IsSliced};
ghost use Rattle.aes_slices.specs.Rows.{in_rows};

use crate::rows::{next_rows, rows_after_next};
use aes_planes::{Eight, added};
use std::simd::prelude::*;

/// Each byte times 2 (FIPS 197, 4.2.1).
#[inline(always)]
pub(crate) fn doubled(s: Eight) -> Eight
    ensures { (j : ℕ) (x : List ℕ) → AreBytes x → IsSliced s j x → IsSliced result j (map (product 2) x) }
{
    Eight {
        v0: s.v7,
        v1: s.v0 ^ s.v7,
        v2: s.v1,
        v3: s.v2 ^ s.v7,
        v4: s.v3 ^ s.v7,
        v5: s.v4,
        v6: s.v5,
        v7: s.v6,
    }
}

/// MixColumns (5.1.3): with the bytes p, q, r, u of a column from one on, 2 (p + q) + q + r + u.
#[inline(always)]
pub(crate) fn mixed(s: Eight) -> Eight
    ensures { (j : ℕ) (x : List ℕ) → IsBlock x → IsSliced s j (in_rows x) → IsSliced result j (in_rows (mix_columns x)) }
{
    let next = next_rows(s);
    let sum = added(s, next);
    added(added(next, doubled(sum)), rows_after_next(sum))
}

/// InvMixColumns (5.3.3): with these bytes a sum of 3 p + 2 q, of 13 p + 9 q, and of the latter two rows on.
#[inline(always)]
pub(crate) fn mixed_back(s: Eight) -> Eight
    ensures { (j : ℕ) (x : List ℕ) → IsBlock x → IsSliced s j (in_rows x)
        → IsSliced result j (in_rows (inverse_mix_columns x)) }
{
    let sum = added(s, next_rows(s));
    let light = added(doubled(sum), s);
    let heavy = added(doubled(doubled(light)), sum);
    added(added(heavy, rows_after_next(heavy)), light)
}
