//! The subkeys (SP 800-38B, 6.1).

ghost use Rattle.std.specs.Prelude.{◌≡◌};
ghost use Rattle.aes_cmac.specs.Cmac.{doubled, first_subkey, second_subkey};

use aes_vector::{Block, Key};

// R_128 (5.3).
const REDUCTION: u128 = 0x87;

/// A block doubled (6.1, steps 2 and 3), with no branch on its first bit.
fn doubled(block: Block) -> Block
    ensures { result ≡ doubled block }
{
    let number = u128::from_be_bytes(block);
    ((number << 1) ^ (number >> 127) * REDUCTION).to_be_bytes()
}

/// K1, which a whole last block is added to.
pub(crate) fn first_subkey(key: &Key) -> Block
    ensures { result ≡ first_subkey key.now }
{
    doubled(key.encipher([0; 16]))
}

/// K2, which a padded last block is added to.
pub(crate) fn second_subkey(key: &Key) -> Block
    ensures { result ≡ second_subkey key.now }
{
    doubled(first_subkey(key))
}
