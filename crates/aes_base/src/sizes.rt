//! The sizes of blocks and keys.

ghost use Rattle.std.specs.Prelude.{◌≡◌, ◌+◌, ◌/◌, ◌↔◌, IsSome, IfSome};
ghost use Rattle.fips_197.specs.KeyExpansion.{IsKeyLength};

/// The length of a block in bytes (FIPS 197, 3.1).
pub const BLOCK_SIZE: usize = 16;

/// A block: the 16 bytes that the cipher takes and gives (FIPS 197, 3.1).
pub type Block = [u8; BLOCK_SIZE];

/// The number of rounds for a key of so many bytes (FIPS 197, 5, figure 4), or none for a length that no key has.
pub fn rounds_of(size: usize) -> Option<usize>
    ensures some { IsSome result ↔ IsKeyLength size }
    ensures value { IfSome result (λ rounds. rounds ≡ size / 4 + 6) }
{
    match size {
        16 => Some(10),
        24 => Some(12),
        32 => Some(14),
        _ => None,
    }
}
