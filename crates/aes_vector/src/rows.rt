//! The rows of a state, moved.

ghost use Rattle.std.specs.Prelude.{◌≡◌};
ghost use Rattle.aes_vector.specs.Rows.{pick, rows_shifted, rows_shifted_next, rows_shifted_before, rows_shifted_back, rows_next};

use std::simd::prelude::*;

/// ShiftRows (FIPS 197, 5.1.2).
#[inline(always)]
pub(crate) fn shifted(x: u8x16) -> u8x16
    ensures { result ≡ pick rows_shifted x }
{
    x.swizzle([0, 5, 10, 15, 4, 9, 14, 3, 8, 13, 2, 7, 12, 1, 6, 11])
}

/// ShiftRows, and then each row in the place of the one before it.
#[inline(always)]
pub(crate) fn shifted_next(x: u8x16) -> u8x16
    ensures { result ≡ pick rows_shifted_next x }
{
    x.swizzle([5, 10, 15, 0, 9, 14, 3, 4, 13, 2, 7, 8, 1, 6, 11, 12])
}

/// ShiftRows, and then each row in the place of the one after it.
#[inline(always)]
pub(crate) fn shifted_before(x: u8x16) -> u8x16
    ensures { result ≡ pick rows_shifted_before x }
{
    x.swizzle([15, 0, 5, 10, 3, 4, 9, 14, 7, 8, 13, 2, 11, 12, 1, 6])
}

/// InvShiftRows (5.3.1).
#[inline(always)]
pub(crate) fn shifted_back(x: u8x16) -> u8x16
    ensures { result ≡ pick rows_shifted_back x }
{
    x.swizzle([0, 13, 10, 7, 4, 1, 14, 11, 8, 5, 2, 15, 12, 9, 6, 3])
}

/// Each row in the place of the one before it.
#[inline(always)]
pub(crate) fn next_row(x: u8x16) -> u8x16
    ensures { result ≡ pick rows_next x }
{
    x.swizzle([1, 2, 3, 0, 5, 6, 7, 4, 9, 10, 11, 8, 13, 14, 15, 12])
}
