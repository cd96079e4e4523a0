//! The modes ECB, CBC and CTR of SP 800-38A (2001) with AES, over whole texts. CBC is there too with the
//! padding of PKCS #7 (RFC 5652, 6.3).
//!
//! Proved, for every key, text and parameter:
//!
//! - Encrypting gives what `specs/Modes.antt` writes down from the standard, block by block.
//!   Decrypting gives the text that is encrypted to the one given, and there is no other.
//! - `LenRange` comes exactly where a mode of whole blocks is given another length, and
//!   `CounterEnd` exactly where counter blocks would repeat. `BadPad` comes only where no text is
//!   encrypted to the one given. But for these there is only `Memory`, for a failed allocation.
//!
//! A proof above may cite of the definitions, from `proofs/`:
//!
//! - No two texts are encrypted to one, and how long they become (`Only`).
//! - CTR twice is the text again (`CounterTexts`).
//! - The first blocks of a text are encrypted alike whatever follows, and the further ones from the block
//!   before (`Texts`, `Chains`).
//!
//! `filled_block`, `xor_number`, `unpadded_len`, and the functions that take a text in two parts, are for
//! `streams`, which works in parts.
//!
//! Blocks that don't depend on one another are done eight at once where the text is long: all but CBC encryption.
//!
//! Each call makes one allocation, of the length that it gives. No read and no branch depends on the key or the text, as in
//! `aes_vector`, but on their lengths and on whether a padding is right. Nothing here is authenticated.
//!
//! Proved, by the names of contracts: SP 800-38A over whole texts (`only`: no other text is encrypted to this one).
#![tactic(auto)]

mod batches;
mod blocks;
mod chaining;
mod codebook;
mod counter;
mod counter_mode;
mod direction;
mod fault;
mod padded_chaining;

pub use batches::{push_counted, push_decrypted, push_encrypted, push_unchained};
pub use blocks::{filled_block, xor_number};
pub use chaining::cbc;
pub use codebook::ecb;
pub use counter::CounterBits;
pub use counter_mode::ctr;
pub use direction::Direction;
pub use fault::ModeFault;
pub use padded_chaining::{cbc_pad, unpadded_len};
