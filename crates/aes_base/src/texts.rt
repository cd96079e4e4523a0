//! Texts by their blocks.

ghost use Rattle.std.specs.Prelude.{◌≡◌, ◌+◌, ◌*◌, ◌≤◌, length};
ghost use Rattle.fips_197.specs.Bytes.{AreBytes};
ghost use Rattle.fips_197.specs.Texts.{block_of};

use crate::sizes::{BLOCK_SIZE, Block};

/// Block `i` of a text, counted from 0, which is whole.
#[inline(always)]
pub fn block_at(text: &[u8], i: usize) -> Block
    requires { 16 * i + 16 ≤ length text.now }
    ensures { result ≡ block_of text.now i }
{
    let mut block = [0; BLOCK_SIZE];
    block.copy_from_slice(&text[BLOCK_SIZE * i..BLOCK_SIZE * i + BLOCK_SIZE]);
    block
}

/// What the type of a slice says of its bytes. It does nothing: a proof cites it.
#[inline(always)]
pub fn are_bytes(bytes: &[u8])
    ensures { AreBytes bytes.now }
{}
