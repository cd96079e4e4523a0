//! CMAC with AES of a message in parts (SP 800-38B).

ghost use Rattle.std.specs.Prelude.{◌≡◌, ◌+◌, ◌*◌, ◌%◌, ◌≤◌, length};
ghost use Rattle.fips_197.specs.KeyExpansion.{IsKey};
ghost use Rattle.aes_cmac.specs.Cmac.{count_before_last, cmac};
ghost use Rattle.macs.specs.KeyedMessage.{empty_message, longer_message};

use aes_cmac::{chained_on, tag_of_end};
use aes_vector::{BLOCK_SIZE, Block, Key};
use lists::GhostBytes;
use std::marker::Model;

/// A CMAC of a message in parts. It keeps what the blocks before the last are chained to, and buffers the
/// last one, which is known for that only at the end.
#[derive(Drop)]
pub(crate) struct CmacStream {
    key: Key,
    chain: Block,
    last: Block,
    last_len: usize,
    taken: GhostBytes,
}

impl Model for CmacStream {
    ghost use Rattle.macs.specs.KeyedMessage.{KeyedMessage};

    ghost Value = { KeyedMessage };

    ghost use Rattle.macs.specs.CmacFields.{cmac_message, CmacHolds};

    ghost view = { cmac_message };

    ghost invariant = { CmacHolds };
}

impl CmacStream {
    /// The empty message.
    pub(crate) fn new(key: Key) -> CmacStream
        ensures { result ≡ empty_message key }
    {
        CmacStream {
            key,
            chain: [0; BLOCK_SIZE],
            last: [0; BLOCK_SIZE],
            last_len: 0,
            taken: GhostBytes::new(),
        }
    }

    /// The same once more.
    pub(crate) fn copied(&self) -> CmacStream
        ensures { result ≡ self.now }
    {
        CmacStream {
            key: self.key.copied(),
            chain: self.chain,
            last: self.last,
            last_len: self.last_len,
            taken: self.taken.copied(),
        }
    }

    /// That the key is one (FIPS 197, 5). It does nothing: a proof cites it.
    pub(crate) fn is_keyed(&self)
        ensures { IsKey self.now.key }
    {
        let _size = self.key.size(); // brings its clause
    }

    /// Adds one more part to the message.
    pub(crate) fn update(&mut self, piece: &[u8])
        ensures { self.new ≡ longer_message self.old piece.now }
    {
        let room = BLOCK_SIZE - self.last_len;
        let (first, rest) = piece.split_at(piece.len().min(room));
        self.fill(first);
        if !rest.is_empty() {
            self.chain_on(rest);
        }
    }

    // Adds bytes that fit the last block.
    fn fill(&mut self, bytes: &[u8])
        requires { length self.old.taken + length bytes.now ≤ 16 * count_before_last self.old.taken + 16 }
        ensures { self.new ≡ longer_message self.old bytes.now }
    {
        let len = self.last_len + bytes.len();
        self.last[self.last_len..len].copy_from_slice(bytes);
        self.last_len = len;
        self.taken.push(bytes);
    }

    // Adds bytes behind a whole block, which is then not the last.
    fn chain_on(&mut self, bytes: &[u8])
        requires some { 1 ≤ length bytes.now }
        requires taken { 1 ≤ length self.old.taken }
        requires whole { length self.old.taken % 16 ≡ 0 }
        ensures { self.new ≡ longer_message self.old bytes.now }
    {
        let blocks = (bytes.len() - 1) / BLOCK_SIZE;
        let chain = chained_on(&self.key, self.chain, &self.last, 1);
        self.chain = chained_on(&self.key, chain, bytes, blocks);
        let rest = &bytes[BLOCK_SIZE * blocks..];
        self.last[..rest.len()].copy_from_slice(rest);
        self.last_len = rest.len();
        self.taken.push(bytes);
    }

    /// The tag of the message.
    pub(crate) fn tag(&self) -> Block
        ensures { result ≡ cmac self.now.key self.now.taken }
    {
        tag_of_end(&self.key, self.chain, &self.last[..self.last_len])
    }
}
