//! AES, the block cipher of FIPS 197, with keys of 128, 192 and 256 bits, in vectors of 16 bytes.
//!
//! Proved, for every key and every block:
//!
//! - `Key::new` gives a key exactly where it is given 16, 24 or 32 bytes, and the key is those
//!   bytes.
//! - `encipher` is the cipher as `fips_197` writes it down from FIPS 197. `encrypt_number` is the same cipher on the bytes of
//!   a number, the highest first.
//! - `decipher` gives the block that is encrypted to the one given, and no other block is.
//! - No call takes memory, and none can fail but `Key::new`, for the length.
//!
//! These are the clauses of `aes_block`, and a key has the same view, so a caller of one can take the other. Blocks, and texts
//! by their blocks, are those of `aes_base`.
//!
//! Not proved, but so by construction: no memory is read at a place, and no branch is taken, that depends on the key or the
//! block. A look-up is a permutation of the bytes of a register, and a place that no table has gives 0. A key's length may
//! show in the time of a call. A key is not overwritten when it is dropped.
//!
//! The form is that of Mike Hamburg's "Accelerating AES with vector permute instructions" (2009): the inverse in the field of
//! 256 elements by inverses in that of 16, and the affine map, MixColumns and a change of basis in the same look-ups.
//!
//! Proved, by the names of contracts: it meets FIPS 197 (`encrypted_block`). The 0x63 of the S-box is left to the round keys
//! (`with_constant`). Each look-up is at a place of its table of 16, or at one that gives 0.
#![tactic(auto)]

mod cipher;
mod halves;
mod inverse_round;
mod key_expansion;
mod prepared;
mod round;
mod round_keys;
mod rows;
mod tables;

ghost use Rattle.std.specs.Prelude.{◌≡◌, ℕ, ◌≤◌, ◌↔◌, List, length, IsSome, IfSome};
ghost use Rattle.std.specs.Int.{w128, to_be_bytes};
ghost use Rattle.fips_197.specs.Bytes.{IsBlock};
ghost use Rattle.fips_197.specs.Cipher.{round_key};
ghost use Rattle.fips_197.specs.KeyExpansion.{IsKey, IsKeyLength, key_expansion, round_count};
ghost use Rattle.fips_197.specs.Encrypt.{encrypted_block};

use aes_base::rounds_of;
pub use aes_base::{BLOCK_SIZE, Block, are_bytes, block_at, xor_blocks};
use round_keys::RoundKeys;
use std::marker::Model;
use std::simd::prelude::*;

/// A key of 128, 192 or 256 bits, expanded for encrypting and decrypting. Contracts see it as the
/// list of its bytes.
#[derive(Drop)]
pub struct Key {
    rounds: usize,
    keys: RoundKeys,
    inverse_keys: RoundKeys,
}

impl Model for Key {
    ghost use Rattle.std.specs.Prelude.{ℕ, List};

    ghost Value = { List ℕ };

    ghost use Rattle.aes_vector.specs.StoredKey.{key_bytes, IsPrepared};

    ghost view = { key_bytes };

    ghost invariant = { IsPrepared };
}

impl Key {
    /// The key of these bytes, or none where they are not 16, 24 or 32.
    pub fn new(bytes: &[u8]) -> Option<Key>
        ensures length { IsSome result ↔ IsKeyLength (length bytes.now) }
        ensures value { IfSome result (λ key. key ≡ bytes.now) }
    {
        let rounds = rounds_of(bytes.len())?;
        are_bytes(bytes);
        let schedule = key_expansion::expanded(bytes);
        let keys = prepared::prepared(&schedule, rounds);
        let inverse_keys = prepared::inverse_prepared(&schedule, rounds);
        Some(Key {
            rounds,
            keys,
            inverse_keys,
        })
    }

    /// The same key once more. It takes no memory and cannot fail.
    pub fn copied(&self) -> Key
        ensures { result ≡ self.now }
    {
        Key {
            rounds: self.rounds,
            keys: self.keys,
            inverse_keys: self.inverse_keys,
        }
    }

    /// The key's length in bytes: 16, 24 or 32.
    pub fn size(&self) -> usize
        ensures value { result ≡ length self.now }
        ensures key { IsKey self.now }
    {
        4 * (self.rounds - 6)
    }

    /// The number of rounds: 10, 12 or 14 (FIPS 197, 5, figure 4).
    pub fn rounds(&self) -> usize
        ensures value { result ≡ round_count self.now }
        ensures key { IsKey self.now }
    {
        self.rounds
    }

    /// Round key `r` (5.2), for other forms of the cipher.
    pub fn round_key(&self, r: usize) -> Block
        requires { r ≤ round_count self.now }
        ensures value { result ≡ round_key (key_expansion self.now) r }
        ensures block { IsBlock result }
    {
        prepared::plain_round_key(&self.keys, self.rounds, r).to_array()
    }

    /// The block that `block` is encrypted to (FIPS 197, 5.1).
    pub fn encipher(&self, block: Block) -> Block
        ensures value { result ≡ encrypted_block self.now block }

        // What the types say, as facts on lists.
        ensures blocks { IsBlock block × IsBlock result }
    {
        are_bytes(&block);
        cipher::enciphered(&self.keys, self.rounds, u8x16::from_array(block)).to_array()
    }

    /// The block that `number` is encrypted to, as a number: in both the highest byte is the first
    /// of the block's 16 (5.1). A counter is encrypted so.
    #[inline(always)]
    pub fn encrypt_number(&self, number: u128) -> u128
        ensures { to_be_bytes w128 result ≡ encrypted_block self.now (to_be_bytes w128 number) }
    {
        let block = u8x16::from_array(number.to_be_bytes());
        u128::from_be_bytes(cipher::enciphered(&self.keys, self.rounds, block).to_array())
    }

    /// The block that is encrypted to `block` (FIPS 197, 5.3): there is one, and one only.
    pub fn decipher(&self, block: Block) -> Block
        ensures back { encrypted_block self.now result ≡ block }
        ensures only { (x : List ℕ) → IsBlock x → encrypted_block self.now x ≡ block → x ≡ result }

        // What the types say, as facts on lists.
        ensures blocks { IsBlock block × IsBlock result }
    {
        are_bytes(&block);
        cipher::deciphered(&self.inverse_keys, self.rounds, u8x16::from_array(block)).to_array()
    }
}
