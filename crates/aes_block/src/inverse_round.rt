// The rounds of the equivalent inverse cipher (FIPS 197, 5.3.5). A column after InvShiftRows is a
// diagonal that falls the other way.

ghost use Rattle.std.specs.Prelude.{◌≡◌, ◌<◌};
ghost use Rattle.fips_197.specs.SBox.{inverse_s_box};
ghost use Rattle.fips_197.specs.WordPolynomial.{word_product, matrix_column, multiples};
ghost use Rattle.fips_197.specs.InverseCipher.{inverse_substitute_bytes, inverse_mix_polynomial, inverse_round, inverse_last_round};
ghost use Rattle.aes_block.specs.Words.{word_bytes, state_bytes, diagonal};

use crate::round::s_box;
use crate::state::State;
use crate::tables::{INVERSE_MIXED_ROWS, INVERSE_S_BOX};
use crate::word::{byte_0, byte_1, byte_2, byte_3, word_of};

// The inverse S-box at a byte.
#[inline(always)]
fn inverse_s_box(x: u8) -> u8
    ensures { result ≡ inverse_s_box x }
{
    INVERSE_S_BOX[x as usize]
}

// What the byte x of row R adds to an inversely mixed column, after the inverse S-box.
#[inline(always)]
fn inverse_mixed_row<const R: usize>(x: u8) -> u32
    requires { R < 4 }
    ensures { word_bytes result ≡ multiples (matrix_column inverse_mix_polynomial R) (inverse_s_box x) }
{
    INVERSE_MIXED_ROWS[R][x as usize]
}

// InvSubBytes and InvMixColumns on a diagonal.
#[inline(always)]
fn inverse_mixed_column(a: u32, b: u32, c: u32, d: u32) -> u32
    ensures { word_bytes result
        ≡ word_product inverse_mix_polynomial (inverse_substitute_bytes (diagonal a b c d)) }
{
    inverse_mixed_row::<0>(byte_0(a))
        ^ inverse_mixed_row::<1>(byte_1(b))
        ^ inverse_mixed_row::<2>(byte_2(c))
        ^ inverse_mixed_row::<3>(byte_3(d))
}

// InvSubBytes on a diagonal.
#[inline(always)]
fn inverse_substituted_column(a: u32, b: u32, c: u32, d: u32) -> u32
    ensures { word_bytes result ≡ inverse_substitute_bytes (diagonal a b c d) }
{
    word_of(
        inverse_s_box(byte_0(a)),
        inverse_s_box(byte_1(b)),
        inverse_s_box(byte_2(c)),
        inverse_s_box(byte_3(d)),
    )
}

/// A round under a round key.
#[inline(always)]
pub(crate) fn inverse_round(s: State, key: State) -> State
    ensures { state_bytes result ≡ inverse_round (state_bytes key) (state_bytes s) }
{
    let mixed = State(
        inverse_mixed_column(s.0, s.3, s.2, s.1),
        inverse_mixed_column(s.1, s.0, s.3, s.2),
        inverse_mixed_column(s.2, s.1, s.0, s.3),
        inverse_mixed_column(s.3, s.2, s.1, s.0),
    );
    mixed.add_round_key(key)
}

/// The last round, which does not mix columns.
#[inline(always)]
pub(crate) fn inverse_last_round(s: State, key: State) -> State
    ensures { state_bytes result ≡ inverse_last_round (state_bytes key) (state_bytes s) }
{
    let shifted = State(
        inverse_substituted_column(s.0, s.3, s.2, s.1),
        inverse_substituted_column(s.1, s.0, s.3, s.2),
        inverse_substituted_column(s.2, s.1, s.0, s.3),
        inverse_substituted_column(s.3, s.2, s.1, s.0),
    );
    shifted.add_round_key(key)
}

/// InvMixColumns on a word of a round key. The S-box undoes the inverse one, which the tables have.
pub(crate) fn inverse_mixed_word(w: u32) -> u32
    ensures { word_bytes result ≡ word_product inverse_mix_polynomial (word_bytes w) }
{
    inverse_mixed_row::<0>(s_box(byte_0(w)))
        ^ inverse_mixed_row::<1>(s_box(byte_1(w)))
        ^ inverse_mixed_row::<2>(s_box(byte_2(w)))
        ^ inverse_mixed_row::<3>(s_box(byte_3(w)))
}
