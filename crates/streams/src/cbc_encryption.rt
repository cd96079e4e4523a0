//! CBC encryption in parts (SP 800-38A, 6.2), with or without padding at the end (RFC 5652, 6.3).

ghost use Rattle.std.specs.Prelude.{◌≡◌, ◌+◌, ◌-◌, ◌*◌, ◌≤◌, ◌++◌, length, IfOk, OnErr};
ghost use Rattle.aes_modes.specs.Modes.{chained, cbc_blocks, cbc_pad_encrypted};
ghost use Rattle.streams_model.specs.Flows.{begun, further};
ghost use Rattle.streams_model.specs.CbcFlows.{IsCbcEncrypted};

use crate::kept::Kept;
use crate::passed::Passed;
use aes_modes::filled_block;
use aes_vector::{BLOCK_SIZE, Block, Key, xor_blocks};
use lists::GhostBytes;
use std::alloc::{AllocError, Global};
use std::marker::Model;

/// A CBC encryption that has taken data. It keeps the last block of its output, and buffers less than a
/// block of data.
#[derive(Drop)]
pub(crate) struct CbcEncryption {
    key: Key,
    chain: Block,
    passed: Passed,
    iv: GhostBytes,
}

impl Model for CbcEncryption {
    ghost use Rattle.streams_model.specs.Flows.{Flow};

    ghost Value = { Flow };

    ghost use Rattle.streams.specs.CbcEncryptions.{flow_of, Holds};

    ghost view = { flow_of };

    ghost invariant = { Holds };
}

// What the first blocks of buffered bytes and a part are encrypted to, and the last block of that.
fn encrypted_blocks(
    alloc: Global,
    key: &Key,
    start: Block,
    kept: &Kept,
    piece: &[u8],
    blocks: usize,
) -> Result<(Vec<u8>, Block), AllocError>
    requires { 16 * blocks ≤ length kept.now + length piece.now }
    ensures size { IfOk result (λ r. length r.0.items ≡ 16 * blocks) }
    ensures out { IfOk result (λ r. r.0.items ≡ cbc_blocks key.now start (kept.now ++ piece.now) blocks) }
    ensures chain { IfOk result (λ r. r.1 ≡ chained key.now start (kept.now ++ piece.now) blocks) }
{
    let mut out = Vec::with_capacity(alloc, kept.len() + piece.len())?;
    if blocks == 0 {
        return Ok((out, start));
    }
    let first = kept.block(piece, 0);
    let mut chain = start;
    'turns: for i in 0..blocks {
        chain = key.encipher(xor_blocks(kept.block_behind(first, piece, i), chain));
        out.extend_from_slice(&chain)?;
    }
    Ok((out, chain))
}

impl CbcEncryption {
    /// An encryption that has taken nothing.
    pub(crate) fn new(key: Key, iv: Block) -> CbcEncryption
        ensures { result ≡ begun iv key 0 }
    {
        let mut start = GhostBytes::new();
        start.push(&iv);
        CbcEncryption {
            key,
            chain: iv,
            passed: Passed::new(),
            iv: start,
        }
    }

    /// The same once more. It takes no memory.
    pub(crate) fn copied(&self) -> CbcEncryption
        ensures { result ≡ self.now }
    {
        CbcEncryption {
            key: self.key.copied(),
            chain: self.chain,
            passed: self.passed.copied(),
            iv: self.iv.copied(),
        }
    }

    /// Takes one more part, and returns what it adds to the output. An `Err` changes nothing.
    pub(crate) fn update(&mut self, alloc: Global, piece: &[u8]) -> Result<Vec<u8>, AllocError>
        ensures state { IfOk result (λ out. self.new ≡ further self.old piece.now out.items) }
        ensures err { OnErr result (self.new ≡ self.old) }
    {
        let kept = &self.passed.kept;
        let blocks = (kept.len() + piece.len()) / BLOCK_SIZE;
        let (out, chain) = encrypted_blocks(alloc, &self.key, self.chain, kept, piece, blocks)?;
        self.chain = chain;
        self.passed.advance(piece, blocks, &out);
        Ok(out)
    }

    /// What the output so far is. It does nothing.
    pub(crate) fn gives(&self)
        ensures { IsCbcEncrypted self.now }
    {
        let _passed = &self.passed; // brings its clause
    }

    /// How many bytes are buffered: at most 16.
    pub(crate) fn waiting(&self) -> usize
        ensures value { result ≡ length self.now.taken - length self.now.given }
        ensures within { result ≤ 16 }
    {
        self.passed.kept.len()
    }

    /// The last block of the padded text: the final part of the output.
    pub(crate) fn padded_block(&self, alloc: Global) -> Result<Vec<u8>, AllocError>
        ensures value { IfOk result (λ out.
            self.now.given ++ out.items ≡ cbc_pad_encrypted self.now.key self.now.iv self.now.taken) }
        ensures size { IfOk result (λ out. length out.items ≡ 16) }
    {
        let mut out = Vec::with_capacity(alloc, BLOCK_SIZE)?;
        let count = BLOCK_SIZE - self.passed.kept.len();
        let last = filled_block(self.passed.kept.as_slice(), count as u8);
        out.extend_from_slice(&self.key.encipher(xor_blocks(last, self.chain)))?;
        Ok(out)
    }
}
