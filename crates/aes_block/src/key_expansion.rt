// The key expansion (FIPS 197, 5.2).

ghost use Rattle.std.specs.Prelude.{◌≡◌, ℕ, ◌+◌, ◌-◌, ◌*◌, ◌/◌, ◌<◌, ◌≤◌, length, take};
ghost use Rattle.fips_197.specs.Bytes.{xor_bytes};
ghost use Rattle.fips_197.specs.Cipher.{substitute_bytes, round_key};
ghost use Rattle.fips_197.specs.KeyExpansion.{IsKeyLength, rotate_word, round_constant, expansion_term, round_count, key_expansion};
ghost use Rattle.fips_197.specs.InverseCipher.{inverse_mix_columns};
ghost use Rattle.aes_block.specs.Words.{word_bytes, words_bytes};

use crate::inverse_round::inverse_mixed_word;
use crate::round::{s_box, substituted_column};
use crate::word::{byte_0, byte_1, byte_2, byte_3, word_of};

/// The words of the longest key schedule: four for each of 14 rounds, and four before them.
pub(crate) const SCHEDULE_WORDS: usize = 60;

/// A key schedule, and zeros after it where it is not of the longest.
pub(crate) type Schedule = [u32; SCHEDULE_WORDS];

// The words Rcon[1] to Rcon[10].
static ROUND_CONSTANTS: [u32; 10] = [
    0x01000000, 0x02000000, 0x04000000, 0x08000000, 0x10000000, 0x20000000, 0x40000000, 0x80000000,
    0x1b000000, 0x36000000,
];

// Rcon[i].
fn round_constant(i: usize) -> u32
    requires low { 1 ≤ i }
    requires high { i ≤ 10 }
    ensures { word_bytes result ≡ round_constant i }
{
    ROUND_CONSTANTS[i - 1]
}

// SubWord.
fn substituted_word(w: u32) -> u32
    ensures { word_bytes result ≡ substitute_bytes (word_bytes w) }
{
    substituted_column(w, w, w, w)
}

// SubWord of RotWord.
fn substituted_rotated_word(w: u32) -> u32
    ensures { word_bytes result ≡ substitute_bytes (rotate_word (word_bytes w)) }
{
    word_of(
        s_box(byte_1(w)),
        s_box(byte_2(w)),
        s_box(byte_3(w)),
        s_box(byte_0(w)),
    )
}

// The exclusive or of two words.
fn xor_words(x: u32, y: u32) -> u32
    ensures { word_bytes result ≡ xor_bytes (word_bytes x) (word_bytes y) }
{
    x ^ y
}

// What is added to word i - NK to make word i, from the word before it.
fn expansion_term<const NK: usize>(i: usize, before: u32) -> u32
    requires key { IsKeyLength (4 * NK) }
    requires low { NK ≤ i }
    requires high { i < 4 * (NK + 7) }
    ensures { word_bytes result ≡ expansion_term NK i (word_bytes before) }
{
    if i % NK == 0 {
        xor_words(substituted_rotated_word(before), round_constant(i / NK))
    } else if NK > 6 && i % NK == 4 {
        substituted_word(before)
    } else {
        before
    }
}

// The words of a key, and zeros after them.
fn key_words(key: &[u8]) -> Schedule
    requires { IsKeyLength (length key.now) }
    ensures { words_bytes (take (length key.now / 4) result) ≡ key.now }
{
    let mut words = [0; SCHEDULE_WORDS];
    'load: for i in 0..key.len() / 4 {
        words[i] = word_of(key[4 * i], key[4 * i + 1], key[4 * i + 2], key[4 * i + 3]);
    }
    words
}

// The key schedule of a key of NK words, a parameter so that each division is by a constant.
fn expanded_by<const NK: usize>(key: &[u8]) -> Schedule
    requires key { IsKeyLength (4 * NK) }
    requires size { length key.now ≡ 4 * NK }
    ensures { take (16 * (round_count key.now + 1)) (words_bytes result) ≡ key_expansion key.now }
{
    let mut words = key_words(key);
    'schedule: for i in NK..4 * (NK + 7) {
        words[i] = xor_words(words[i - NK], expansion_term::<NK>(i, words[i - 1]));
    }
    words
}

/// The key schedule of a key.
pub(crate) fn expanded(key: &[u8]) -> Schedule
    requires { IsKeyLength (length key.now) }
    ensures { take (16 * (round_count key.now + 1)) (words_bytes result) ≡ key_expansion key.now }
{
    match key.len() {
        16 => expanded_by::<4>(key),
        24 => expanded_by::<6>(key),
        _ => expanded_by::<8>(key),
    }
}

/// The round keys of the equivalent inverse cipher (5.3.5), for the rounds that mix columns.
pub(crate) fn inverse_mixed(schedule: &Schedule, rounds: usize) -> Schedule
    requires { rounds < 15 }
    ensures { (r : ℕ) → 1 ≤ r → r < rounds
        → round_key (words_bytes result) r
        ≡ inverse_mix_columns (round_key (words_bytes schedule.now) r) }
{
    let mut inverse = [0; SCHEDULE_WORDS];
    'words: for i in 4..4 * rounds {
        inverse[i] = inverse_mixed_word(schedule[i]);
    }
    inverse
}
