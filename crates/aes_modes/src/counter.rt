//! The counter blocks of CTR (SP 800-38A, 6.5 and appendix B.1).

ghost use Rattle.std.specs.Prelude.{◌≡◌, ℕ, ◌+◌, ◌^◌, ◌≤◌, ◌↔◌, IsSome, IfSome, IsTrue};
ghost use Rattle.aes_modes.specs.Counter.{counter_start};

use aes_vector::Block;
use std::marker::Model;

/// How many low bits of a block count, the m of SP 800-38A, appendix B.1: 1 to 128.
#[derive(Clone, Copy, Debug, PartialEq, Eq)]
pub struct CounterBits {
    number: u32,
}

impl Model for CounterBits {
    ghost Value = { ℕ };

    ghost view = { λ bits. bits.number };

    ghost invariant = { λ bits. (1 ≤ bits.number) × (bits.number ≤ 128) };

    ghost inverse = { λ number. record { number = number } };
}

impl CounterBits {
    /// So many bits, or none where they are not 1 to 128.
    pub fn new(number: u64) -> Option<Self>
        ensures some { IsSome result ↔ ((1 ≤ number) × (number ≤ 128)) }
        ensures value { IfSome result (λ bits. bits ≡ number) }
    {
        if 1 <= number && number <= 128 {
            Some(CounterBits {
                number: number as u32,
            })
        } else {
            None
        }
    }

    /// The number of bits.
    pub fn number(self) -> u32
        ensures value { result ≡ self }
        ensures range { (1 ≤ result) × (result ≤ 128) }
    {
        self.number
    }
}

/// Whether `start` has a counter for each of so many blocks, before its low bits are 0 again.
pub(crate) fn has_counters(bits: CounterBits, start: Block, blocks: usize) -> bool
    ensures answer { IsTrue result ↔ (counter_start bits start + blocks ≤ 2 ^ bits) }

    // What the type says of the bits.
    ensures bits { bits ≤ 128 }
{
    let low_bits = u128::MAX >> (128 - bits.number());
    let further = low_bits - (u128::from_be_bytes(start) & low_bits);
    blocks == 0 || (blocks - 1) as u128 <= further
}
