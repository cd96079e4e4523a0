//! The S-box and its inverse on planes.

ghost use Rattle.std.specs.Prelude.{◌≡◌, ℕ, List};
ghost use Rattle.fips_197.specs.Bytes.{IsBlock};
ghost use Rattle.fips_197.specs.Cipher.{substitute_bytes};
ghost use Rattle.fips_197.specs.InverseCipher.{inverse_substitute_bytes};
ghost use Rattle.aes_planes.specs.Planes.{IsSliced, with_constant};

use crate::circuit::{norm_inverse, norm_of, output, products_of, sums_of};
use crate::inverse_circuit::{norm_back, norm_inverse_back, output_back, products_back, sums_back};
use crate::planes::Eight;

/// SubBytes (FIPS 197, 5.1.1) without the 0x63 that it adds.
#[inline(always)]
pub fn substituted(s: Eight) -> Eight
    ensures { (j : ℕ) (x : List ℕ) → IsBlock x → IsSliced s j x → IsSliced result j (with_constant (substitute_bytes x)) }
{
    let y = sums_of(s);
    output(products_of(y, norm_inverse(norm_of(y))))
}

/// InvSubBytes (5.3.2) of bytes that 0x63 was added to.
#[inline(always)]
pub fn substituted_back(s: Eight) -> Eight
    ensures { (j : ℕ) (x : List ℕ) → IsBlock x → IsSliced s j (with_constant x)
        → IsSliced result j (inverse_substitute_bytes x) }
{
    let y = sums_back(s);
    output_back(products_back(y, norm_inverse_back(norm_back(y))))
}
