//! What programs of AES have in common: blocks, texts by their blocks, and the number of rounds.
//!
//! Proved, for every block and every text:
//!
//! - `xor_blocks` is the exclusive or, byte by byte.
//! - `block_at` is a whole block of a text.
//! - `rounds_of` gives a number of rounds exactly where a key has 16, 24 or 32 bytes.
//!
//! No call takes memory, and none can fail but `rounds_of`, for the length.
#![tactic(auto)]

mod sizes;
mod sums;
mod texts;

pub use sizes::{BLOCK_SIZE, Block, rounds_of};
pub use sums::xor_blocks;
pub use texts::{are_bytes, block_at};
