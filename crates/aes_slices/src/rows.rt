//! The rows of states, moved: all bytes of a plane move alike. From the first key that is added until the last is, the bytes of
//! blocks are row after row. So a row is a word of four bytes, and rows move as words.

ghost use Rattle.std.specs.Prelude.{◌≡◌, ℕ, List};
ghost use Rattle.fips_197.specs.Bytes.{IsBlock};
ghost use Rattle.fips_197.specs.Cipher.{shift_rows};
ghost use Rattle.fips_197.specs.InverseCipher.{inverse_shift_rows};
ghost use Rattle.aes_vector.specs.Rows.{pick};
ghost use Rattle.aes_planes.specs.Planes.{IsSliced};
ghost use Rattle.aes_slices.specs.Rows.{row_by_row, plane_rows_shifted, rows_shifted_last, plane_rows_shifted_back, rows_shifted_back_last, plane_rows_next, rows_after_next, in_rows};

use aes_planes::Eight;
use std::simd::prelude::*;

/// A block or a plane row after row.
#[inline(always)]
pub(crate) fn by_row(x: u8x16) -> u8x16
    ensures { result ≡ pick row_by_row x }
{
    x.swizzle([0, 4, 8, 12, 1, 5, 9, 13, 2, 6, 10, 14, 3, 7, 11, 15])
}

// ShiftRows (FIPS 197, 5.1.2) on a plane.
#[inline(always)]
fn shifted(x: u8x16) -> u8x16
    ensures { result ≡ pick plane_rows_shifted x }
{
    x.swizzle([0, 1, 2, 3, 5, 6, 7, 4, 10, 11, 8, 9, 15, 12, 13, 14])
}

// ShiftRows on a plane, and then column after column again.
#[inline(always)]
fn shifted_last(x: u8x16) -> u8x16
    ensures { result ≡ pick rows_shifted_last x }
{
    x.swizzle([0, 5, 10, 15, 1, 6, 11, 12, 2, 7, 8, 13, 3, 4, 9, 14])
}

// InvShiftRows (5.3.1) on a plane.
#[inline(always)]
fn shifted_back(x: u8x16) -> u8x16
    ensures { result ≡ pick plane_rows_shifted_back x }
{
    x.swizzle([0, 1, 2, 3, 7, 4, 5, 6, 10, 11, 8, 9, 13, 14, 15, 12])
}

// InvShiftRows on a plane, and then column after column again.
#[inline(always)]
fn shifted_back_last(x: u8x16) -> u8x16
    ensures { result ≡ pick rows_shifted_back_last x }
{
    x.swizzle([0, 7, 10, 13, 1, 4, 11, 14, 2, 5, 8, 15, 3, 6, 9, 12])
}

// Each row of a plane in the place of the one before it.
#[inline(always)]
fn next_row(x: u8x16) -> u8x16
    ensures { result ≡ pick plane_rows_next x }
{
    x.swizzle([4, 5, 6, 7, 8, 9, 10, 11, 12, 13, 14, 15, 0, 1, 2, 3])
}

// Each row of a plane two places on.
#[inline(always)]
fn row_after_next(x: u8x16) -> u8x16
    ensures { result ≡ pick rows_after_next x }
{
    x.swizzle([8, 9, 10, 11, 12, 13, 14, 15, 0, 1, 2, 3, 4, 5, 6, 7])
}

/// Blocks row after row, where they were column after column.
#[inline(always)]
pub(crate) fn in_rows(s: Eight) -> Eight
    ensures { (j : ℕ) (x : List ℕ) → IsSliced s j x → IsSliced result j (in_rows x) }
{
    Eight {
        v0: by_row(s.v0),
        v1: by_row(s.v1),
        v2: by_row(s.v2),
        v3: by_row(s.v3),
        v4: by_row(s.v4),
        v5: by_row(s.v5),
        v6: by_row(s.v6),
        v7: by_row(s.v7),
    }
}

/// ShiftRows (5.1.2), row after row.
#[inline(always)]
pub(crate) fn rows_shifted(s: Eight) -> Eight
    ensures { (j : ℕ) (x : List ℕ) → IsBlock x → IsSliced s j (in_rows x) → IsSliced result j (in_rows (shift_rows x)) }
{
    Eight {
        v0: shifted(s.v0),
        v1: shifted(s.v1),
        v2: shifted(s.v2),
        v3: shifted(s.v3),
        v4: shifted(s.v4),
        v5: shifted(s.v5),
        v6: shifted(s.v6),
        v7: shifted(s.v7),
    }
}

/// ShiftRows, and then column after column again.
#[inline(always)]
pub(crate) fn rows_shifted_last(s: Eight) -> Eight
    ensures { (j : ℕ) (x : List ℕ) → IsBlock x → IsSliced s j (in_rows x) → IsSliced result j (shift_rows x) }
{
    Eight {
        v0: shifted_last(s.v0),
        v1: shifted_last(s.v1),
        v2: shifted_last(s.v2),
        v3: shifted_last(s.v3),
        v4: shifted_last(s.v4),
        v5: shifted_last(s.v5),
        v6: shifted_last(s.v6),
        v7: shifted_last(s.v7),
    }
}

/// InvShiftRows (5.3.1), row after row.
#[inline(always)]
pub(crate) fn rows_shifted_back(s: Eight) -> Eight
    ensures { (j : ℕ) (x : List ℕ) → IsBlock x → IsSliced s j (in_rows x)
        → IsSliced result j (in_rows (inverse_shift_rows x)) }
{
    Eight {
        v0: shifted_back(s.v0),
        v1: shifted_back(s.v1),
        v2: shifted_back(s.v2),
        v3: shifted_back(s.v3),
        v4: shifted_back(s.v4),
        v5: shifted_back(s.v5),
        v6: shifted_back(s.v6),
        v7: shifted_back(s.v7),
    }
}

/// InvShiftRows, and then column after column again.
#[inline(always)]
pub(crate) fn rows_shifted_back_last(s: Eight) -> Eight
    ensures { (j : ℕ) (x : List ℕ) → IsBlock x → IsSliced s j (in_rows x)
        → IsSliced result j (inverse_shift_rows x) }
{
    Eight {
        v0: shifted_back_last(s.v0),
        v1: shifted_back_last(s.v1),
        v2: shifted_back_last(s.v2),
        v3: shifted_back_last(s.v3),
        v4: shifted_back_last(s.v4),
        v5: shifted_back_last(s.v5),
        v6: shifted_back_last(s.v6),
        v7: shifted_back_last(s.v7),
    }
}

/// Each row in the place of the one before it.
#[inline(always)]
pub(crate) fn next_rows(s: Eight) -> Eight
    ensures { (j : ℕ) (x : List ℕ) → IsSliced s j x → IsSliced result j (pick plane_rows_next x) }
{
    Eight {
        v0: next_row(s.v0),
        v1: next_row(s.v1),
        v2: next_row(s.v2),
        v3: next_row(s.v3),
        v4: next_row(s.v4),
        v5: next_row(s.v5),
        v6: next_row(s.v6),
        v7: next_row(s.v7),
    }
}

/// Each row two places on.
#[inline(always)]
pub(crate) fn rows_after_next(s: Eight) -> Eight
    ensures { (j : ℕ) (x : List ℕ) → IsSliced s j x → IsSliced result j (pick rows_after_next x) }
{
    Eight {
        v0: row_after_next(s.v0),
        v1: row_after_next(s.v1),
        v2: row_after_next(s.v2),
        v3: row_after_next(s.v3),
        v4: row_after_next(s.v4),
        v5: row_after_next(s.v5),
        v6: row_after_next(s.v6),
        v7: row_after_next(s.v7),
    }
}
