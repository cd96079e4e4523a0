//! CTR in parts (SP 800-38A, 6.5), which is the same in both directions.

ghost use Rattle.std.specs.Prelude.{◌≡◌, ◌⊎◌, ◌+◌, ◌-◌, ◌/◌, ◌^◌, ◌<◌, ◌++◌, ◌↔◌, length, IfOk, IfErr, OnOk, OnErr, IsErrOf, IsTrue};
ghost use Rattle.fips_197.specs.Bytes.{AreBytes};
ghost use Rattle.fips_197.specs.KeyExpansion.{IsKey};
ghost use Rattle.aes_modes.specs.Blocks.{blocks_begun};
ghost use Rattle.aes_modes.specs.Counter.{counter_start};
ghost use Rattle.streams_model.specs.Countings.{begun_counting, counted_further, ctr_output, numbered};

use crate::kept::Kept;
use aes_modes::{CounterBits, ModeFault, filled_block, push_counted, xor_number};
use aes_vector::{BLOCK_SIZE, Block, Key, are_bytes};
use lists::GhostBytes;
use std::alloc::{AllocError, Global};
use std::marker::Model;

/// CTR that has taken data. It keeps the number of the last counter block, how many may follow it,
/// and the bytes of the last block.
#[derive(Drop)]
pub(crate) struct CtrStream {
    key: Key,
    bits: CounterBits,
    number: u128,
    left: u128,
    kept: Kept,
    start: GhostBytes,
    taken: GhostBytes,
}

impl Model for CtrStream {
    ghost use Rattle.streams_model.specs.Countings.{Counting};

    ghost Value = { Counting };

    ghost use Rattle.streams.specs.CtrFields.{counting_of, Holds};

    ghost view = { counting_of };

    ghost invariant = { Holds };
}

// Buffered bytes and a part under counters from a number on.
fn joined_counters(
    alloc: Global,
    key: &Key,
    number: u128,
    kept: &Kept,
    piece: &[u8],
) -> Result<Vec<u8>, AllocError>
    requires { number + (length kept.now + length piece.now - 1) / 16 < 2 ^ 128 }
    ensures size { IfOk result (λ out. length out.items ≡ length kept.now + length piece.now) }
    ensures value { IfOk result (λ out. out.items ≡ numbered key.now number (kept.now ++ piece.now)) }
{
    let _size = key.size(); // brings its clause
    let whole = (kept.len() + piece.len()) / BLOCK_SIZE;
    let mut out = Vec::with_capacity(alloc, kept.len() + piece.len())?;
    push_counted(alloc, &mut out, key, number, kept.as_slice(), piece, whole)?;
    let rest = kept.behind(piece, whole);
    if rest.len() == 0 {
        return Ok(out);
    }
    let output = key.encrypt_number(number + whole as u128);
    let last = xor_number(filled_block(rest.as_slice(), 0), output).to_be_bytes();
    out.extend_from_slice(&last[..rest.len()])?;
    Ok(out)
}

impl CtrStream {
    /// CTR that has taken nothing.
    pub(crate) fn new(key: Key, bits: CounterBits, start: Block) -> CtrStream
        ensures { result ≡ begun_counting bits start key }
    {
        let _size = key.size(); // brings its clause
        let low_bits = u128::MAX >> (128 - bits.number());
        let number = u128::from_be_bytes(start);
        let left = low_bits - (number & low_bits);
        let mut first = GhostBytes::new();
        first.push(&start);
        CtrStream {
            key,
            bits,
            number,
            left,
            kept: Kept::new(),
            start: first,
            taken: GhostBytes::new(),
        }
    }

    /// The same once more. It takes no memory.
    pub(crate) fn copied(&self) -> CtrStream
        ensures { result ≡ self.now }
    {
        CtrStream {
            key: self.key.copied(),
            bits: self.bits,
            number: self.number,
            left: self.left,
            kept: self.kept.copied(),
            start: self.start.copied(),
            taken: self.taken.copied(),
        }
    }

    /// Takes one more part, and returns as many bytes. An `Err` changes nothing: `CounterEnd` where a
    /// counter would come again.
    pub(crate) fn update(&mut self, alloc: Global, piece: &[u8]) -> Result<Vec<u8>, ModeFault>
        ensures taken { OnOk result (self.new ≡ counted_further self.old piece.now) }
        ensures output { IfOk result (λ out. ctr_output self.old ++ out.items ≡ ctr_output self.new) }
        ensures err { OnErr result (self.new ≡ self.old) }
        ensures counter_end { IsErrOf result ModeFault.CounterEnd
            ↔ (2 ^ self.old.bits < counter_start self.old.bits self.old.start + blocks_begun (self.old.taken ++ piece.now)) }
        ensures faults { IfErr result (λ fault. (fault ≡ ModeFault.CounterEnd) ⊎ (fault ≡ ModeFault.Memory)) }
    {
        let used = self.kept.len();
        let blocks = (used + piece.len()).saturating_sub(1) / BLOCK_SIZE;
        if blocks as u128 > self.left {
            return Err(ModeFault::CounterEnd);
        }
        let mut out = joined_counters(alloc, &self.key, self.number, &self.kept, piece)?;
        out.rotate_left(used);
        out.truncate(piece.len());
        are_bytes(&out);
        self.number += blocks as u128;
        self.left -= blocks as u128;
        self.kept = self.kept.behind(piece, blocks);
        self.taken.push(piece);
        Ok(out)
    }

    /// Whether one more part has no counters.
    pub(crate) fn ends_counters(&self, piece: &[u8]) -> bool
        ensures { IsTrue result
            ↔ (2 ^ self.now.bits < counter_start self.now.bits self.now.start + blocks_begun (self.now.taken ++ piece.now)) }
    {
        let further = (self.kept.len() + piece.len()).saturating_sub(1) / BLOCK_SIZE;
        if further as u128 > self.left {
            return true;
        }
        false
    }

    /// What the key and the output are. It does nothing.
    pub(crate) fn gives(&self)
        ensures key { IsKey self.now.key }
        ensures bytes { AreBytes (ctr_output self.now) }
    {
        let _kept = &self.kept; // brings its clause
    }
}
