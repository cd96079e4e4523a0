//! Texts by their blocks.

ghost use Rattle.std.specs.Prelude.{◌≡◌, ◌+◌, ◌-◌, ◌*◌, ◌/◌, ◌%◌, ◌≤◌, ◌++◌, length, replicate};
ghost use Rattle.std.specs.Int.{w128, to_be_bytes};
ghost use Rattle.fips_197.specs.Bytes.{xor_bytes};
ghost use Rattle.fips_197.specs.KeyExpansion.{IsKey};
ghost use Rattle.fips_197.specs.Texts.{block_of};

use aes_vector::{BLOCK_SIZE, Block, Key, are_bytes};

/// What a text has behind its whole blocks.
pub(crate) fn rest_of(text: &[u8]) -> &[u8]
    ensures size { length result.now ≡ length text.now % 16 }
    ensures value { result.now ≡ block_of text.now (length text.now / 16) }
{
    &text[BLOCK_SIZE * (text.len() / BLOCK_SIZE)..]
}

/// At most 16 bytes, and as many times `fill` as make them a block.
pub fn filled_block(bytes: &[u8], fill: u8) -> Block
    requires { length bytes.now ≤ 16 }
    ensures { result ≡ bytes.now ++ replicate (16 - length bytes.now) fill }
{
    let mut block = [fill; BLOCK_SIZE];
    for (i, byte) in bytes.iter().enumerate() {
        block[i] = *byte;
    }
    block
}

/// The number whose bytes are the exclusive or of a block and those of `number`, the highest first.
#[inline(always)]
pub fn xor_number(block: Block, number: u128) -> u128
    ensures { to_be_bytes w128 result ≡ xor_bytes block (to_be_bytes w128 number) }
{
    are_bytes(&block);
    u128::from_be_bytes(block) ^ number
}

/// What the type of a key says of its bytes.
#[inline(always)]
pub(crate) fn is_key(key: &Key)
    ensures { IsKey key.now }
{
    let _size = key.size(); // brings its clause
}
