//! AES, the block cipher of FIPS 197, with keys of 128, 192 and 256 bits.
//!
//! Proved, for every key and every block:
//!
//! - `Key::new` gives a key exactly where it is given 16, 24 or 32 bytes, and the key is those
//!   bytes.
//! - `encipher` is the cipher as `fips_197` writes it down from FIPS 197. Each entry of each table is the
//!   definition's. `encrypt_number` is the same cipher on the bytes of a number, the highest first.
//! - `decipher` gives the block that is encrypted to the one given, and no other block is.
//! - No call takes memory, and none can fail but `Key::new`, for the length.
//!
//! Blocks, and texts by their blocks, are those of `aes_base`.
//!
//! The time that a call takes depends on secrets: the cipher reads tables at indexes that depend
//! on the key and the block, and so whoever shares the processor's cache may learn of both. `aes_vector`
//! is the same cipher without such reads. A key is not overwritten when it is dropped.
//!
//! Proved, by the names of contracts: it meets FIPS 197 (`encrypted_block`).
#![tactic(auto)]

mod cipher;
mod inverse_round;
mod key_expansion;
mod round;
mod state;
mod tables;
mod word;

ghost use Rattle.std.specs.Prelude.{◌≡◌, ℕ, ◌↔◌, List, length, IsSome, IfSome};
ghost use Rattle.std.specs.Int.{w128, to_be_bytes};
ghost use Rattle.fips_197.specs.Bytes.{IsBlock};
ghost use Rattle.fips_197.specs.KeyExpansion.{IsKey, IsKeyLength};
ghost use Rattle.fips_197.specs.Encrypt.{encrypted_block};

use aes_base::rounds_of;
pub use aes_base::{BLOCK_SIZE, Block, are_bytes, block_at, xor_blocks};
use key_expansion::Schedule;
use state::State;
use std::marker::Model;

/// A key of 128, 192 or 256 bits, expanded for encrypting and decrypting. Contracts see it as the
/// list of its bytes.
#[derive(Drop)]
pub struct Key {
    rounds: usize,
    schedule: Schedule,
    inverse_schedule: Schedule,
}

impl Model for Key {
    ghost use Rattle.std.specs.Prelude.{ℕ, List};

    ghost Value = { List ℕ };

    ghost use Rattle.aes_block.specs.StoredKey.{scheduled_key_bytes, IsExpanded};

    ghost view = { scheduled_key_bytes };

    ghost invariant = { IsExpanded };
}

impl Key {
    /// The key of these bytes, or none where they are not 16, 24 or 32.
    pub fn new(bytes: &[u8]) -> Option<Key>
        ensures length { IsSome result ↔ IsKeyLength (length bytes.now) }
        ensures value { IfSome result (λ key. key ≡ bytes.now) }
    {
        let rounds = rounds_of(bytes.len())?;
        let schedule = key_expansion::expanded(bytes);
        let inverse_schedule = key_expansion::inverse_mixed(&schedule, rounds);
        Some(Key {
            rounds,
            schedule,
            inverse_schedule,
        })
    }

    /// The same key once more. It takes no memory and cannot fail.
    pub fn copied(&self) -> Key
        ensures { result ≡ self.now }
    {
        Key {
            rounds: self.rounds,
            schedule: self.schedule,
            inverse_schedule: self.inverse_schedule,
        }
    }

    /// The key's length in bytes: 16, 24 or 32.
    pub fn size(&self) -> usize
        ensures value { result ≡ length self.now }
        ensures key { IsKey self.now }
    {
        4 * (self.rounds - 6)
    }

    /// The block that `block` is encrypted to (FIPS 197, 5.1).
    pub fn encipher(&self, block: Block) -> Block
        ensures value { result ≡ encrypted_block self.now block }

        // What the types say, as facts on lists.
        ensures blocks { IsBlock block × IsBlock result }
    {
        cipher::encrypt(&self.schedule, self.rounds, State::from_block(block)).to_block()
    }

    /// The block that `number` is encrypted to, as a number: in both the highest byte is the first
    /// of the block's 16 (5.1). A counter is encrypted so, with no bytes made of it.
    #[inline(always)]
    pub fn encrypt_number(&self, number: u128) -> u128
        ensures { to_be_bytes w128 result ≡ encrypted_block self.now (to_be_bytes w128 number) }
    {
        cipher::encrypt(&self.schedule, self.rounds, State::from_number(number)).to_number()
    }

    /// The block that is encrypted to `block` (FIPS 197, 5.3): there is one, and one only.
    pub fn decipher(&self, block: Block) -> Block
        ensures back { encrypted_block self.now result ≡ block }
        ensures only { (x : List ℕ) → IsBlock x → encrypted_block self.now x ≡ block → x ≡ result }

        // What the types say, as facts on lists.
        ensures blocks { IsBlock block × IsBlock result }
    {
        cipher::decrypt(&self.schedule, &self.inverse_schedule, self.rounds, block)
    }
}
