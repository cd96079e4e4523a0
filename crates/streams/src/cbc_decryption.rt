//! CBC decryption in parts (SP 800-38A, 6.2), with or without padding at the end (RFC 5652, 6.3).

ghost use Rattle.std.specs.Prelude.{◌≡◌, ◌≢◌, ◌⊎◌, ℕ, List, ◌+◌, ◌-◌, ◌*◌, ◌%◌, ◌≤◌, ◌++◌, ◌↔◌, length, take, IfOk, IfErr, OnErr, IsErrOf};
ghost use Rattle.fips_197.specs.Bytes.{AreBytes};
ghost use Rattle.fips_197.specs.Texts.{block_of};
ghost use Rattle.aes_modes.specs.Modes.{chained, cbc_blocks, cbc_pad_encrypted};
ghost use Rattle.streams_model.specs.Flows.{begun, further};
ghost use Rattle.streams_model.specs.CbcFlows.{IsCbcDecrypted};

use crate::kept::Kept;
use crate::passed::Passed;
use aes_modes::{ModeFault, push_unchained, unpadded_len};
use aes_vector::{BLOCK_SIZE, Block, Key, are_bytes, xor_blocks};
use lists::GhostBytes;
use std::alloc::{AllocError, Global};
use std::marker::Model;

/// A CBC decryption that has taken data. It keeps the last block that it worked on, and buffers at most a
/// block of data. At least so many bytes stay buffered until the final part: 1 where a padding
/// is to be taken off, and else 0.
#[derive(Drop)]
pub(crate) struct CbcDecryption {
    key: Key,
    chain: Block,
    passed: Passed,
    held: usize,
    iv: GhostBytes,
}

impl Model for CbcDecryption {
    ghost use Rattle.streams_model.specs.Flows.{Flow};

    ghost Value = { Flow };

    ghost use Rattle.streams.specs.CbcDecryptions.{flow_of, DecryptionHolds};

    ghost view = { flow_of };

    ghost invariant = { DecryptionHolds };
}

// What the first blocks of buffered bytes and a part are decrypted to, and the last of these blocks.
fn decrypted_blocks(
    alloc: Global,
    key: &Key,
    start: Block,
    kept: &Kept,
    piece: &[u8],
    blocks: usize,
) -> Result<(Vec<u8>, Block), AllocError>
    requires { 16 * blocks ≤ length kept.now + length piece.now }
    ensures size { IfOk result (λ r. length r.0.items ≡ 16 * blocks) }
    ensures back { IfOk result (λ r.
        cbc_blocks key.now start r.0.items blocks ≡ take (16 * blocks) (kept.now ++ piece.now)) }
    ensures chain { IfOk result (λ r. r.1 ≡ chained key.now start r.0.items blocks) }
    ensures bytes { IfOk result (λ r. AreBytes r.0.items) }
{
    let _size = key.size(); // brings its clause
    let front = kept.as_slice();
    are_bytes(front);
    are_bytes(piece);
    let mut out = Vec::with_capacity(alloc, kept.len() + piece.len())?;
    push_unchained(alloc, &mut out, key, start, front, piece, blocks)?;
    are_bytes(&out);
    Ok((out, last_block(start, kept, piece, blocks)))
}

// The last of the first blocks of buffered bytes and a part. It is the block before them where there
// are none.
fn last_block(start: Block, kept: &Kept, piece: &[u8], blocks: usize) -> Block
    requires { 16 * blocks ≤ length kept.now + length piece.now }
    ensures { result ≡ block_of (start ++ (kept.now ++ piece.now)) blocks }
{
    if blocks == 0 {
        start
    } else {
        kept.block(piece, blocks - 1)
    }
}

impl CbcDecryption {
    /// A decryption that has taken nothing, and buffers so many bytes at least until the final part.
    pub(crate) fn new(key: Key, iv: Block, held: usize) -> CbcDecryption
        requires { held ≤ 1 }
        ensures { result ≡ begun iv key held }
    {
        let _size = key.size(); // brings its clause
        are_bytes(&iv);
        let mut start = GhostBytes::new();
        start.push(&iv);
        CbcDecryption {
            key,
            chain: iv,
            passed: Passed::new(),
            held,
            iv: start,
        }
    }

    /// The same once more. It takes no memory.
    pub(crate) fn copied(&self) -> CbcDecryption
        ensures { result ≡ self.now }
    {
        CbcDecryption {
            key: self.key.copied(),
            chain: self.chain,
            passed: self.passed.copied(),
            held: self.held,
            iv: self.iv.copied(),
        }
    }

    /// Takes one more part, and returns what it adds to the output. An `Err` changes nothing.
    pub(crate) fn update(&mut self, alloc: Global, piece: &[u8]) -> Result<Vec<u8>, AllocError>
        ensures state { IfOk result (λ out. self.new ≡ further self.old piece.now out.items) }
        ensures err { OnErr result (self.new ≡ self.old) }
    {
        let kept = &self.passed.kept;
        let blocks = (kept.len() + piece.len()).saturating_sub(self.held) / BLOCK_SIZE;
        let (out, chain) = decrypted_blocks(alloc, &self.key, self.chain, kept, piece, blocks)?;
        self.chain = chain;
        self.passed.advance(piece, blocks, &out);
        Ok(out)
    }

    /// What the output so far is. It does nothing.
    pub(crate) fn gives(&self)
        ensures { IsCbcDecrypted self.now }
    {
        let _passed = &self.passed; // brings its clause
    }

    /// How many bytes are buffered: at most 16.
    pub(crate) fn waiting(&self) -> usize
        ensures value { result ≡ length self.now.taken - length self.now.given }
        ensures within { result ≤ 16 }
    {
        self.passed.kept.len()
    }

    /// The final part of the output, without the padding.
    pub(crate) fn unpadded_block(&self, alloc: Global) -> Result<Vec<u8>, ModeFault>
        requires { self.now.held ≡ 1 }
        ensures value { IfOk result (λ out.
            cbc_pad_encrypted self.now.key self.now.iv (self.now.given ++ out.items) ≡ self.now.taken) }
        ensures only { IfOk result (λ out. (x : List ℕ) → AreBytes x
            → cbc_pad_encrypted self.now.key self.now.iv x ≡ self.now.taken → x ≡ self.now.given ++ out.items) }
        ensures size { IfOk result (λ out. length out.items ≤ length self.now.taken - length self.now.given) }
        ensures bytes { IfOk result (λ out. AreBytes (self.now.given ++ out.items)) }
        ensures len_range { IsErrOf result ModeFault.LenRange
            ↔ ((length self.now.taken ≡ 0) ⊎ (length self.now.taken % 16 ≢ 0)) }
        ensures bad_pad { IsErrOf result ModeFault.BadPad → (x : List ℕ) → AreBytes x
            → cbc_pad_encrypted self.now.key self.now.iv x ≢ self.now.taken }
        ensures faults { IfErr result (λ fault. fault ≢ ModeFault.CounterEnd) }
    {
        if self.passed.kept.len() != BLOCK_SIZE {
            return Err(ModeFault::LenRange);
        }
        let last = xor_blocks(
            self.key.decipher(self.passed.kept.block(b"", 0)),
            self.chain,
        );
        let Some(len) = unpadded_len(&last) else {
            return Err(ModeFault::BadPad);
        };
        let mut out = Vec::with_capacity(alloc, BLOCK_SIZE)?;
        out.extend_from_slice(&last[..len])?;
        Ok(out)
    }
}
