//! The key expansion (FIPS 197, 5.2), with SubWord by look-ups in tables of 16. Words are four bytes (3.5).

ghost use Rattle.std.specs.Prelude.{◌≡◌, ◌+◌, ◌*◌, ◌<◌, ◌≤◌, length, take};
ghost use Rattle.fips_197.specs.Bytes.{xor_bytes};
ghost use Rattle.fips_197.specs.Cipher.{substitute_bytes};
ghost use Rattle.fips_197.specs.KeyExpansion.{IsKeyLength, word, rotate_word, round_constant, expansion_term, round_count, key_expansion};

use crate::halves::substituted;
use crate::round_keys::{RoundKeys, SCHEDULE_SIZE};
use std::simd::prelude::*;

// A word: four bytes (3.5).
type Word = [u8; 4];

// The first bytes of the words Rcon[1] to Rcon[10].
const ROUND_CONSTANTS: [u8; 10] = [0x01, 0x02, 0x04, 0x08, 0x10, 0x20, 0x40, 0x80, 0x1b, 0x36];

// Rcon[i].
fn round_constant(i: usize) -> Word
    requires low { 1 ≤ i }
    requires high { i ≤ 10 }
    ensures { result ≡ round_constant i }
{
    [ROUND_CONSTANTS[i - 1], 0, 0, 0]
}

// Word i of a schedule.
fn word_at(schedule: &RoundKeys, i: usize) -> Word
    requires { i < 60 }
    ensures { result ≡ word schedule.now i }
{
    let mut word = [0; 4];
    word.copy_from_slice(&schedule[4 * i..4 * i + 4]);
    word
}

// SubWord.
fn substituted_word(w: Word) -> Word
    ensures { result ≡ substitute_bytes w }
{
    let x = [w[0], w[1], w[2], w[3], 0, 0, 0, 0, 0, 0, 0, 0, 0, 0, 0, 0];
    let y = substituted(u8x16::from_array(x)).to_array();
    [y[0], y[1], y[2], y[3]]
}

// SubWord of RotWord.
fn substituted_rotated_word(w: Word) -> Word
    ensures { result ≡ substitute_bytes (rotate_word w) }
{
    substituted_word([w[1], w[2], w[3], w[0]])
}

// The exclusive or of two words.
fn xor_words(x: Word, y: Word) -> Word
    ensures { result ≡ xor_bytes x y }
{
    [x[0] ^ y[0], x[1] ^ y[1], x[2] ^ y[2], x[3] ^ y[3]]
}

// What is added to word i - NK to make word i, from the word before it.
fn expansion_term<const NK: usize>(i: usize, before: Word) -> Word
    requires key { IsKeyLength (4 * NK) }
    requires low { NK ≤ i }
    requires high { i < 4 * (NK + 7) }
    ensures { result ≡ expansion_term NK i before }
{
    if i % NK == 0 {
        xor_words(substituted_rotated_word(before), round_constant(i / NK))
    } else if NK > 6 && i % NK == 4 {
        substituted_word(before)
    } else {
        before
    }
}

// A key, and zeros after it.
fn begun(key: &[u8]) -> RoundKeys
    requires { IsKeyLength (length key.now) }
    ensures { take (length key.now) result ≡ key.now }
{
    let mut schedule = [0; SCHEDULE_SIZE];
    schedule[..key.len()].copy_from_slice(key);
    schedule
}

// The key schedule of a key of NK words, a parameter so that each division is by a constant.
fn expanded_by<const NK: usize>(key: &[u8]) -> RoundKeys
    requires key { IsKeyLength (4 * NK) }
    requires size { length key.now ≡ 4 * NK }
    ensures { take (16 * (round_count key.now + 1)) result ≡ key_expansion key.now }
{
    let mut schedule = begun(key);
    'schedule: for i in NK..4 * (NK + 7) {
        let term = expansion_term::<NK>(i, word_at(&schedule, i - 1));
        let next = xor_words(word_at(&schedule, i - NK), term);
        schedule[4 * i..4 * i + 4].copy_from_slice(&next);
    }
    schedule
}

/// The key schedule of a key.
pub(crate) fn expanded(key: &[u8]) -> RoundKeys
    requires { IsKeyLength (length key.now) }
    ensures { take (16 * (round_count key.now + 1)) result ≡ key_expansion key.now }
{
    match key.len() {
        16 => expanded_by::<4>(key),
        24 => expanded_by::<6>(key),
        _ => expanded_by::<8>(key),
    }
}
