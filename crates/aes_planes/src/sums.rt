//! The exclusive or of planes.

ghost use Rattle.std.specs.Prelude.{◌≡◌, ℕ, List};
ghost use Rattle.fips_197.specs.Bytes.{xor_bytes};
ghost use Rattle.aes_planes.specs.Planes.{IsSliced};

use crate::planes::Eight;
use std::simd::prelude::*;

/// The exclusive or of blocks.
#[inline(always)]
pub fn added(s: Eight, t: Eight) -> Eight
    ensures { (j : ℕ) (x y : List ℕ) → IsSliced s j x → IsSliced t j y → IsSliced result j (xor_bytes x y) }
{
    Eight {
        v0: s.v0 ^ t.v0,
        v1: s.v1 ^ t.v1,
        v2: s.v2 ^ t.v2,
        v3: s.v3 ^ t.v3,
        v4: s.v4 ^ t.v4,
        v5: s.v5 ^ t.v5,
        v6: s.v6 ^ t.v6,
        v7: s.v7 ^ t.v7,
    }
}
