//! Bytes that are buffered until they are worked on.

ghost use Rattle.std.specs.Prelude.{◌≡◌, ◌+◌, ◌*◌, ◌≤◌, ◌++◌, [], length, drop};
ghost use Rattle.fips_197.specs.Texts.{block_of};

use aes_vector::{BLOCK_SIZE, Block};
use std::marker::Model;

/// At most a block of bytes. Contracts see them as a list.
#[derive(Drop)]
pub(crate) struct Kept {
    block: Block,
    count: usize,
}

impl Model for Kept {
    ghost use Rattle.std.specs.Prelude.{ℕ, List};

    ghost Value = { List ℕ };

    ghost use Rattle.streams.specs.Kept.{kept_bytes, FitsBlock};

    ghost view = { kept_bytes };

    ghost invariant = { FitsBlock };
}

impl Kept {
    /// No bytes.
    pub(crate) fn new() -> Kept
        ensures { result ≡ [] }
    {
        Kept {
            block: [0; BLOCK_SIZE],
            count: 0,
        }
    }

    /// The same bytes once more.
    pub(crate) fn copied(&self) -> Kept
        ensures { result ≡ self.now }
    {
        Kept {
            block: self.block,
            count: self.count,
        }
    }

    /// How many there are.
    #[inline(always)]
    pub(crate) fn len(&self) -> usize
        ensures value { result ≡ length self.now }
        ensures within { length self.now ≤ 16 }
    {
        self.count
    }

    /// The bytes.
    pub(crate) fn as_slice(&self) -> &[u8]
        ensures { result.now ≡ self.now }
    {
        &self.block[..self.count]
    }

    /// Block `i` of them with a part behind them.
    #[inline(always)]
    #[tactic(auto, unfolding(fips_197::specs::Texts::block_of))]
    pub(crate) fn block(&self, piece: &[u8], i: usize) -> Block
        requires { 16 * i + 16 ≤ length self.now + length piece.now }
        ensures { result ≡ block_of (self.now ++ piece.now) i }
    {
        let count = self.count;
        let mut block = self.block;
        if i == 0 {
            block[count..].copy_from_slice(&piece[..16 - count]);
        } else {
            block.copy_from_slice(&piece[16 * i - count..16 * i - count + 16]);
        }
        block
    }

    /// Block `i` of them with a part behind them, where the first block is known. Unlike `block` it copies no bytes by a call, so a
    /// loop over blocks keeps what it has in registers.
    #[inline(always)]
    pub(crate) fn block_behind(&self, first: Block, piece: &[u8], i: usize) -> Block
        requires first { first ≡ block_of (self.now ++ piece.now) 0 }
        requires within { 16 * i + 16 ≤ length self.now + length piece.now }
        ensures { result ≡ block_of (self.now ++ piece.now) i }
    {
        let count = self.count;
        let mut block = first;
        if i != 0 {
            block.copy_from_slice(&piece[16 * i - count..16 * i - count + 16]);
        }
        block
    }

    /// What they and a part have behind their first `blocks` blocks.
    pub(crate) fn behind(&self, piece: &[u8], blocks: usize) -> Kept
        requires within { 16 * blocks ≤ length self.now + length piece.now }
        requires rest { length self.now + length piece.now ≤ 16 * blocks + 16 }
        ensures { result ≡ drop (16 * blocks) (self.now ++ piece.now) }
    {
        let total = self.count + piece.len();
        let mut block = self.block;
        if blocks == 0 {
            block[self.count..total].copy_from_slice(piece);
            return Kept {
                block,
                count: total,
            };
        }
        let count = total - 16 * blocks;
        block[..count].copy_from_slice(&piece[16 * blocks - self.count..]);
        Kept { block, count }
    }
}
