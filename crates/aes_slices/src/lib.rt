//! AES, the block cipher of FIPS 197, on eight blocks at once, by bit slices.
//!
//! Proved, for every key and every batch of eight blocks:
//!
//! - `SlicedKey::new` gives the same key, prepared for batches.
//! - `encipher` encrypts each block of a batch as `fips_197` says.
//! - `decipher` gives, for each block of a batch, the block that is encrypted to it, and no other block is.
//! - No call but `BatchKey::new` allocates, and no other can fail.
//!
//! Not proved, but so by construction: no memory is read at a place, and no branch is taken, that depends on the key or the
//! batch. There is no look-up: each step is an exclusive or, an and, or a shift of bits, or moves bytes to places that are
//! written in the code. A key's length may show in the time of a call. A key is not overwritten when it is dropped.
//!
//! Eight blocks are eight planes, plane i with bit i of each byte (`aes_planes`).
//!
//! Proved, by the names of contracts: it meets FIPS 197 (`encrypted_block`), on eight blocks at once (`IsSliced` of `aes_planes`).
#![tactic(auto)]

mod batch;
mod batch_key;
mod cipher;
mod columns;
mod eight;
mod keys;
mod rows;
mod transposition;

ghost use Rattle.std.specs.Prelude.{◌≡◌, ℕ, ◌<◌, List};
ghost use Rattle.fips_197.specs.Bytes.{IsBlock};
ghost use Rattle.fips_197.specs.Texts.{block_of};
ghost use Rattle.fips_197.specs.Encrypt.{encrypted_block};
ghost use Rattle.aes_slices.specs.Decrypt.{decrypted_block};

use aes_base::are_bytes;
use aes_vector::Key;
pub use batch::{BATCH_SIZE, Batch, batch_at, numbers, xor_batches};
pub use batch_key::BatchKey;
use eight::{bytes_of, eight_at};
use keys::KeyPlanes;
use std::marker::Model;

/// A key of 128, 192 or 256 bits, with each bit of its round keys in every bit of a byte. Contracts see it as the list of its
/// bytes.
#[derive(Drop)]
pub struct SlicedKey {
    key: Key,
    planes: KeyPlanes,
}

impl Model for SlicedKey {
    ghost use Rattle.std.specs.Prelude.{ℕ, List};

    ghost Value = { List ℕ };

    ghost use Rattle.aes_slices.specs.Keys.{key_bytes, ArePlanesPrepared};

    ghost view = { key_bytes };

    ghost invariant = { ArePlanesPrepared };
}

impl SlicedKey {
    /// The same key for batches.
    pub fn new(key: &Key) -> SlicedKey
        ensures { result ≡ key.now }
    {
        SlicedKey {
            key: key.copied(),
            planes: keys::sliced(key),
        }
    }

    /// The blocks that the blocks of `batch` are encrypted to (FIPS 197, 5.1).
    pub fn encipher(&self, batch: &Batch) -> Batch
        ensures { (i : ℕ) → i < 8 → block_of result i ≡ encrypted_block self.now (block_of batch.now i) }
    {
        are_bytes(batch);
        bytes_of(cipher::encrypted(&self.planes, self.key.rounds(), eight_at(batch, 0)))
    }

    /// The blocks that are encrypted to the blocks of `batch` (FIPS 197, 5.3): each is the only one.
    pub fn decipher(&self, batch: &Batch) -> Batch
        ensures value { (i : ℕ) → i < 8 → block_of result i ≡ decrypted_block self.now (block_of batch.now i) }
        ensures back { (i : ℕ) → i < 8 → encrypted_block self.now (block_of result i) ≡ block_of batch.now i }
        ensures only { (i : ℕ) → i < 8 → (x : List ℕ) → IsBlock x → encrypted_block self.now x ≡ block_of batch.now i
            → x ≡ block_of result i }
    {
        are_bytes(batch);
        bytes_of(cipher::decrypted(&self.planes, self.key.rounds(), eight_at(batch, 0)))
    }
}
