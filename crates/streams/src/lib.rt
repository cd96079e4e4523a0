//! Texts encrypted and decrypted in parts (Update, Final), in memory that does not grow with the text. The mechanisms are
//! CKM_AES_ECB, CKM_AES_CBC, CKM_AES_CBC_PAD and CKM_AES_CTR (PKCS #11 v3.1, 5.8, 5.10, 6.10 and 6.11; SP 800-38A;
//! the padding of PKCS #7, RFC 5652, 6.3).
//!
//! Contracts see a `Stream` as one record for all mechanisms (`Streamed`): the mechanism with its
//! parameter, the direction, the key, all data that was taken and the output so far. The
//! last two take no memory; of the data at most 16 bytes are buffered.
//!
//! Proved, for every key, parameter and data, however it is cut:
//!
//! - What an update returns and what the last call returns are functions of all data taken
//!   (`update_output` and `last_output`; `specs/Outputs.antt`), by the modes over whole texts of
//!   `aes_modes`. What is decrypted is the one text that the mode encrypts to the data.
//! - The output so far is what the mode encrypts or decrypts the first bytes of the data to (`IsRight`). How many these
//!   are is in the table of lengths (`specs/Lengths.antt`). With the final part it is what all data is encrypted or
//!   decrypted to (`IsFinalPart`), and nothing else is (`IsOnlyRest`).
//! - `LenRange` comes exactly where the data's length is that of no text. `CounterEnd` comes exactly
//!   where a counter block would come again, before anything changes. `BadPad` comes only where no
//!   text is encrypted to the data. But for these there is only `Memory`, for a failed allocation.
//! - A refused call, and the last one, leaves the stream as it is.
//! - `output_len` returns before any work how long a buffer a call needs, or why the call is refused.
//! - A copy of a stream stands where the stream stands, and `has_taken` is whether it has taken a
//!   byte.
//!
//! An update makes one allocation, of the length of the part and a block. The last call makes that one
//! and, for a padding, at most two more. No read and no branch depends on the key or the data, as in `aes_vector`, but on
//! their lengths and on whether a padding is right.
//!
//! Proved, by the names of contracts: SP 800-38A in parts (`IsRight`, `IsFinalPart`, `IsOnlyRest`), with the lengths that `output_len` returns
//! before any work (`length`, `wanted`). Neither a refusal nor an allocation failure changes a stream (`err`).
#![tactic(auto)]

mod cbc_decryption;
mod cbc_encryption;
mod ctr_stream;
mod ecb_decryption;
mod ecb_encryption;
mod kept;
mod mechanism;
mod part;
mod passed;
mod rooms;
mod state;
mod stream;

pub use mechanism::Mechanism;
pub use part::Part;
pub use stream::Stream;
