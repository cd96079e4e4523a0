//! Calls and replies as bytes, and the frames that carry them.
//!
//! A frame is a length of 32 bits, big-endian, and so many bytes of payload, at most
//! `MAX_PAYLOAD_LEN`. The payload of a call is its function's number in 16 bits and its fields; that of a
//! reply is its code in 64 bits and its fields.
//!
//! - `read_call` and `read_reply` read just what `write_call` and `write_reply` write: what is read is
//!   encoded so, what is encoded so is read, and each fault is returned just where its condition holds.
//! - `FrameReader` returns the payloads of a byte stream, in whatever chunks it comes, and no others. `peek`
//!   returns the next one without a copy, and `consume` drops it. After a length above the limit it returns
//!   `TooLong` for ever.
//! - `write_reply_over` writes a reply's frame over the last one, whose memory it takes.
//!
//! Proved, by the names of contracts: what is read is encoded so (`found`), and what is encoded so is read (`only`). Each fault but an
//! allocation failure comes just where its condition stands (`exact`). A reply within its limits has an encoding (`fits`). A stream has
//! one way to be split (`one_split`).
#![tactic(auto)]

mod call;
mod encode;
mod fault;
mod frame;
mod length;
mod reply;
mod request;
mod stream;

pub use call::{read_call, write_call};
pub use fault::WireFault;
pub use frame::MAX_PAYLOAD_LEN;
pub use reply::{read_reply, write_reply, write_reply_over};
pub use stream::{FrameReader, one_split};
