// The rounds of the cipher (FIPS 197, 5.1). A column after ShiftRows is a diagonal of the state
// before it: byte 0 of one column, byte 1 of the next, and so on round the state.

ghost use Rattle.std.specs.Prelude.{◌≡◌, ◌<◌};
ghost use Rattle.fips_197.specs.SBox.{s_box};
ghost use Rattle.fips_197.specs.WordPolynomial.{word_product, matrix_column, multiples};
ghost use Rattle.fips_197.specs.Cipher.{substitute_bytes, mix_polynomial, round, last_round};
ghost use Rattle.aes_block.specs.Words.{word_bytes, state_bytes, diagonal};

use crate::state::State;
use crate::tables::{MIXED_ROWS, S_BOX};
use crate::word::{byte_0, byte_1, byte_2, byte_3, word_of};

/// The S-box at a byte.
#[inline(always)]
pub(crate) fn s_box(x: u8) -> u8
    ensures { result ≡ s_box x }
{
    S_BOX[x as usize]
}

// What the byte x of row R adds to a mixed column, after the S-box.
#[inline(always)]
fn mixed_row<const R: usize>(x: u8) -> u32
    requires { R < 4 }
    ensures { word_bytes result ≡ multiples (matrix_column mix_polynomial R) (s_box x) }
{
    MIXED_ROWS[R][x as usize]
}

// SubBytes and MixColumns on a diagonal.
#[inline(always)]
fn mixed_column(a: u32, b: u32, c: u32, d: u32) -> u32
    ensures { word_bytes result ≡ word_product mix_polynomial (substitute_bytes (diagonal a b c d)) }
{
    mixed_row::<0>(byte_0(a))
        ^ mixed_row::<1>(byte_1(b))
        ^ mixed_row::<2>(byte_2(c))
        ^ mixed_row::<3>(byte_3(d))
}

/// SubBytes on a diagonal.
#[inline(always)]
pub(crate) fn substituted_column(a: u32, b: u32, c: u32, d: u32) -> u32
    ensures { word_bytes result ≡ substitute_bytes (diagonal a b c d) }
{
    word_of(
        s_box(byte_0(a)),
        s_box(byte_1(b)),
        s_box(byte_2(c)),
        s_box(byte_3(d)),
    )
}

/// A round under a round key.
#[inline(always)]
pub(crate) fn round(s: State, key: State) -> State
    ensures { state_bytes result ≡ round (state_bytes key) (state_bytes s) }
{
    let mixed = State(
        mixed_column(s.0, s.1, s.2, s.3),
        mixed_column(s.1, s.2, s.3, s.0),
        mixed_column(s.2, s.3, s.0, s.1),
        mixed_column(s.3, s.0, s.1, s.2),
    );
    mixed.add_round_key(key)
}

/// The last round, which does not mix columns.
#[inline(always)]
pub(crate) fn last_round(s: State, key: State) -> State
    ensures { state_bytes result ≡ last_round (state_bytes key) (state_bytes s) }
{
    let shifted = State(
        substituted_column(s.0, s.1, s.2, s.3),
        substituted_column(s.1, s.2, s.3, s.0),
        substituted_column(s.2, s.3, s.0, s.1),
        substituted_column(s.3, s.0, s.1, s.2),
    );
    shifted.add_round_key(key)
}
