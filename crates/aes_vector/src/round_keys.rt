//! Round keys as the rounds take them.

ghost use Rattle.std.specs.Prelude.{◌≡◌, ◌<◌};
ghost use Rattle.fips_197.specs.Cipher.{round_key};

use std::simd::prelude::*;

/// The length of the longest key schedule in bytes: 16 for each of 14 rounds, and 16 before them (FIPS 197, 5.2).
pub(crate) const SCHEDULE_SIZE: usize = 240;

/// Round keys one after another, from the first used on, and zeros after them where they are not the most.
pub(crate) type RoundKeys = [u8; SCHEDULE_SIZE];

/// Round key `r`.
#[inline(always)]
pub(crate) fn round_key(keys: &RoundKeys, r: usize) -> u8x16
    requires { r < 15 }
    ensures { result ≡ round_key keys.now r }
{
    u8x16::from_slice(&keys[16 * r..16 * r + 16])
}
