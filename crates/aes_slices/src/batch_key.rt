//! A key for the batches of a text.

ghost use Rattle.std.specs.Prelude.{◌≡◌, ℕ, ◌<◌, List, IfOk};
ghost use Rattle.fips_197.specs.Texts.{block_of};
ghost use Rattle.fips_197.specs.Encrypt.{encrypted_block};
ghost use Rattle.aes_slices.specs.Decrypt.{decrypted_block};

use crate::SlicedKey;
use crate::batch::{BATCH_SIZE, Batch};
use crate::eight::store;
use aes_vector::{Key, block_at};
use std::alloc::{AllocError, Global};
use std::marker::Model;
use std::simd::prelude::*;

// From how many blocks of a text on its key is sliced, and from how many blocks of a batch on the sliced key is faster.
const TEXT_BLOCKS: usize = 32;

const BATCH_BLOCKS: usize = 5;

/// A key for a text. It is sliced where the text is long, in memory of its own. Contracts see it as the list of its bytes.
#[derive(Drop)]
pub struct BatchKey {
    key: Key,
    sliced: Option<Box<SlicedKey>>,
}

impl Model for BatchKey {
    ghost use Rattle.std.specs.Prelude.{ℕ, List};

    ghost Value = { List ℕ };

    ghost use Rattle.aes_slices.specs.BatchKeys.{batch_key_bytes, IsOne};

    ghost view = { batch_key_bytes };

    ghost invariant = { IsOne };
}

// The key sliced, in memory of its own. It is not inlined, so that a short text clears no memory for it.
#[inline(never)]
fn sliced(alloc: Global, key: &Key) -> Result<Box<SlicedKey>, AllocError>
    ensures { IfOk result (λ sliced. sliced.value ≡ key.now) }
{
    Ok(Box::new(alloc, SlicedKey::new(key))?)
}

impl BatchKey {
    /// The same key for a text of so many blocks. It allocates where the text is long.
    pub fn new(alloc: Global, key: &Key, blocks: usize) -> Result<BatchKey, AllocError>
        ensures { IfOk result (λ same. same ≡ key.now) }
    {
        if blocks < TEXT_BLOCKS {
            return Ok(BatchKey {
                key: key.copied(),
                sliced: None,
            });
        }
        let sliced = sliced(alloc, key)?;
        Ok(BatchKey {
            key: key.copied(),
            sliced: Some(sliced),
        })
    }

    /// What the first blocks of a batch are encrypted to.
    pub fn encipher(&self, batch: &Batch, blocks: usize) -> Batch
        ensures { (i : ℕ) → i < blocks → i < 8
            → block_of result i ≡ encrypted_block self.now (block_of batch.now i) }
    {
        if blocks >= BATCH_BLOCKS {
            if let Some(sliced) = &self.sliced {
                return sliced.encipher(batch);
            }
        }
        let mut out = [0; BATCH_SIZE];
        'turns: for i in 0..blocks.min(8) {
            store(
                &mut out,
                i,
                u8x16::from_array(self.key.encipher(block_at(batch, i))),
            );
        }
        out
    }

    /// What the first blocks of a batch are decrypted to.
    pub fn decipher(&self, batch: &Batch, blocks: usize) -> Batch
        ensures { (i : ℕ) → i < blocks → i < 8
            → block_of result i ≡ decrypted_block self.now (block_of batch.now i) }
    {
        if blocks >= BATCH_BLOCKS {
            if let Some(sliced) = &self.sliced {
                return sliced.decipher(batch);
            }
        }
        let mut out = [0; BATCH_SIZE];
        'turns: for i in 0..blocks.min(8) {
            store(
                &mut out,
                i,
                u8x16::from_array(self.key.decipher(block_at(batch, i))),
            );
        }
        out
    }
}
