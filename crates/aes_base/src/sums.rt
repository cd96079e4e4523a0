//! The exclusive or of blocks.

ghost use Rattle.std.specs.Prelude.{◌≡◌};
ghost use Rattle.fips_197.specs.Bytes.{IsBlock, xor_bytes};

use crate::sizes::Block;
use crate::texts::are_bytes;

/// The exclusive or of two blocks, byte by byte.
#[inline(always)]
pub fn xor_blocks(x: Block, y: Block) -> Block
    ensures value { result ≡ xor_bytes x y }

    // What the types say, as facts on lists.
    ensures blocks { IsBlock x × IsBlock y × IsBlock result }
{
    are_bytes(&x);
    are_bytes(&y);
    let mut sum = x;
    for i in 0..16 {
        sum[i] ^= y[i];
    }
    sum
}
