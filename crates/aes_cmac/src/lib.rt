//! CMAC with AES, the message authentication code of SP 800-38B (May 2005), at its whole length of
//! 16 bytes.
//!
//! Proved, for every key and every message: the tag is that of `specs/Cmac.antt`, which writes the
//! standard down, over the block cipher of `aes_vector`. `cmac` takes no memory and cannot fail.
//!
//! `chained_on` and `tag_of_end` are its two parts, for a message that comes in parts: the blocks
//! before the last, as many at a time as there are, and then the last one.
//!
//! No read and no branch depends on the key or the message, but on its length, as in `aes_vector`.
//!
//! Proved, by the names of contracts: CMAC of SP 800-38B.
#![tactic(auto)]

mod last_block;
mod subkeys;

ghost use Rattle.std.specs.Prelude.{◌≡◌, ℕ, ◌+◌, ◌*◌, ◌≤◌, List, length, drop};
ghost use Rattle.aes_cmac.specs.Cmac.{count_before_last, chained, cmac};

use aes_vector::{BLOCK_SIZE, Block, Key, block_at, xor_blocks};
use last_block::last_block;

/// The tag of a message of any length (SP 800-38B, 6.2), in 16 bytes.
pub fn cmac(key: &Key, message: &[u8]) -> [u8; 16]
    ensures { result ≡ cmac key.now message.now }
{
    let before = message.len().saturating_sub(1) / BLOCK_SIZE;
    let chain = chained_on(key, [0; BLOCK_SIZE], message, before);
    tag_of_end(key, chain, &message[BLOCK_SIZE * before..])
}

/// C_(q + n) of a message's blocks before the last (6.2, steps 5 and 6). It takes C_q and the message's
/// bytes behind its first q blocks: n is `blocks`, and C_0 is a block of zeros.
pub fn chained_on(key: &Key, chain: Block, text: &[u8], blocks: usize) -> Block
    requires { 16 * blocks ≤ length text.now }
    ensures { (message : List ℕ) (q : ℕ) → text.now ≡ drop (16 * q) message
        → chain ≡ chained key.now message q → result ≡ chained key.now message (q + blocks) }
{
    let mut chained = chain;
    'turns: for i in 0..blocks {
        chained = key.encipher(xor_blocks(chained, block_at(text, i)));
    }
    chained
}

/// The tag of a message of n blocks (6.2, steps 4 and 6). It takes C_(n - 1), which its blocks before
/// the last are chained to, and the bytes behind these blocks, at most 16.
pub fn tag_of_end(key: &Key, chain: Block, rest: &[u8]) -> [u8; 16]
    requires { length rest.now ≤ 16 }
    ensures { (message : List ℕ) → chain ≡ chained key.now message (count_before_last message)
        → rest.now ≡ drop (16 * count_before_last message) message → result ≡ cmac key.now message }
{
    key.encipher(xor_blocks(chain, last_block(key, rest)))
}
