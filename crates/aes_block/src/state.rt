// The state in words, one for each column.

ghost use Rattle.std.specs.Prelude.{◌≡◌};
ghost use Rattle.std.specs.Int.{w128, to_be_bytes};
ghost use Rattle.fips_197.specs.Cipher.{add_round_key};
ghost use Rattle.aes_block.specs.Words.{state_bytes};

use crate::Block;
use crate::word::{WORDS, byte_0, byte_1, byte_2, byte_3, low_word, word_of};

/// A state (FIPS 197, 3.5): its columns 0 to 3, each with the byte of row 0 highest.
#[derive(Clone, Copy)]
pub(crate) struct State(
    pub(crate) u32,
    pub(crate) u32,
    pub(crate) u32,
    pub(crate) u32,
);

impl State {
    /// The state that a block fills, column after column.
    #[inline(always)]
    pub(crate) fn from_block(block: Block) -> Self
        ensures { state_bytes result ≡ block }
    {
        State(
            word_of(block[0], block[1], block[2], block[3]),
            word_of(block[4], block[5], block[6], block[7]),
            word_of(block[8], block[9], block[10], block[11]),
            word_of(block[12], block[13], block[14], block[15]),
        )
    }

    /// The block that the state fills.
    #[inline(always)]
    pub(crate) fn to_block(self) -> Block
        ensures { result ≡ state_bytes self }
    {
        [
            byte_0(self.0),
            byte_1(self.0),
            byte_2(self.0),
            byte_3(self.0),
            byte_0(self.1),
            byte_1(self.1),
            byte_2(self.1),
            byte_3(self.1),
            byte_0(self.2),
            byte_1(self.2),
            byte_2(self.2),
            byte_3(self.2),
            byte_0(self.3),
            byte_1(self.3),
            byte_2(self.3),
            byte_3(self.3),
        ]
    }

    /// The state that the bytes of a number fill, the highest first.
    #[inline(always)]
    pub(crate) fn from_number(number: u128) -> Self
        ensures { state_bytes result ≡ to_be_bytes w128 number }
    {
        State(
            low_word(number >> 96),
            low_word(number >> 64),
            low_word(number >> 32),
            low_word(number),
        )
    }

    /// The number whose bytes, the highest first, fill the state.
    #[inline(always)]
    pub(crate) fn to_number(self) -> u128
        ensures { to_be_bytes w128 result ≡ state_bytes self }
    {
        let high = self.0 as u128 * WORDS + self.1 as u128;
        let low = self.2 as u128 * WORDS + self.3 as u128;
        high * WORDS * WORDS + low
    }

    /// AddRoundKey (5.1.4).
    #[inline(always)]
    pub(crate) fn add_round_key(self, key: Self) -> Self
        ensures { state_bytes result ≡ add_round_key (state_bytes self) (state_bytes key) }
    {
        State(
            self.0 ^ key.0,
            self.1 ^ key.1,
            self.2 ^ key.2,
            self.3 ^ key.3,
        )
    }
}
