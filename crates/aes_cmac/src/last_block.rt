//! The last block of a message (SP 800-38B, 6.2, steps 3 and 4).

ghost use Rattle.std.specs.Prelude.{◌≡◌, ◌-◌, ◌<◌, ◌≤◌, ◌∷◌, ◌++◌, length, replicate};
ghost use Rattle.aes_cmac.specs.Cmac.{last_block};

use crate::subkeys::{first_subkey, second_subkey};
use aes_vector::{BLOCK_SIZE, Block, Key, block_at, xor_blocks};

/// Bytes that are no whole block, a bit 1, and bits 0 up to a block.
fn bit_padded(bytes: &[u8]) -> Block
    requires { length bytes.now < 16 }
    ensures { result ≡ bytes.now ++ 0x80 ∷ replicate (15 - length bytes.now) 0 }
{
    let mut block = [0; BLOCK_SIZE];
    block[bytes.len()] = 0x80;
    for (i, byte) in bytes.iter().enumerate() {
        block[i] = *byte;
    }
    block
}

/// The last block that is encrypted, of the bytes of a message behind the other blocks.
pub(crate) fn last_block(key: &Key, rest: &[u8]) -> Block
    requires { length rest.now ≤ 16 }
    ensures { result ≡ last_block key.now rest.now }
{
    if rest.len() == BLOCK_SIZE {
        return xor_blocks(first_subkey(key), block_at(rest, 0));
    }
    xor_blocks(second_subkey(key), bit_padded(rest))
}
