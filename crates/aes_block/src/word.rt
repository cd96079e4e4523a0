// Words of 32 bits and their bytes, the first byte highest (FIPS 197, 3.5).

ghost use Rattle.std.specs.Prelude.{◌≡◌, ℕ, ◌/◌, ◌%◌, ◌^◌, [], ◌∷◌};
ghost use Rattle.aes_block.specs.Words.{word_bytes};

/// The first byte of a word.
#[inline(always)]
pub(crate) fn byte_0(w: u32) -> u8
    ensures { result ≡ w / 2 ^ 24 % 2 ^ 8 }
{
    (w >> 24) as u8
}

/// The second byte of a word.
#[inline(always)]
pub(crate) fn byte_1(w: u32) -> u8
    ensures { result ≡ w / 2 ^ 16 % 2 ^ 8 }
{
    ((w >> 16) & 0xff) as u8
}

/// The third byte of a word.
#[inline(always)]
pub(crate) fn byte_2(w: u32) -> u8
    ensures { result ≡ w / 2 ^ 8 % 2 ^ 8 }
{
    ((w >> 8) & 0xff) as u8
}

/// The last byte of a word.
#[inline(always)]
pub(crate) fn byte_3(w: u32) -> u8
    ensures { result ≡ w % 2 ^ 8 }
{
    (w & 0xff) as u8
}

/// The word of four bytes.
#[inline(always)]
#[tactic(auto, unfolding(crate::specs::Words::word_bytes))]
pub(crate) fn word_of(a: u8, b: u8, c: u8, d: u8) -> u32
    ensures { word_bytes result ≡ a ∷ b ∷ c ∷ d ∷ [] }
{
    u32::from_be_bytes([a, b, c, d])
}

/// How many words there are.
pub(crate) const WORDS: u128 = 0x1_0000_0000;

/// The lowest word of a number.
#[inline(always)]
pub(crate) fn low_word(number: u128) -> u32
    ensures { result ≡ number % 2 ^ 32 }
{
    (number % WORDS) as u32
}
