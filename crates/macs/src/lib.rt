//! Message authentication codes (MACs) of messages that come in parts: CKM_AES_CMAC, CKM_SHA224_HMAC,
//! CKM_SHA256_HMAC, CKM_SHA384_HMAC and CKM_SHA512_HMAC (PKCS #11 v3.1, 5.13 and 5.15; SP 800-38B;
//! FIPS 198-1), in memory that does not grow with the message.
//!
//! Contracts see a `Mac` as one record for all mechanisms (`Authentication`): the mechanism, the key,
//! and the message so far. The message takes no memory. What is kept of it is a block at most under
//! CMAC, and the hash functions' states under HMAC.
//!
//! Proved, for every mechanism, key and message, however it is cut:
//!
//! - There is a `Mac` exactly where the key has a length of the mechanism's.
//! - The tag is that of the whole message by the mechanism's standard, and has the mechanism's length.
//!   `specs/Tags.antt` defines it, over what `aes_cmac` and `hmac_sha2` write down.
//! - To make a tag changes nothing: a message can go on behind it.
//! - A copy stands where the `Mac` stands, and `has_taken` is whether it has taken a byte.
//! - No call takes memory, and none can fail but `Mac::new`, for the key's length.
//!
//! In CMAC no read and no branch depends on the key or the message, but on their lengths. Keys and states are not
//! overwritten when they are dropped.
//!
//! Proved, by the names of contracts: the tags of both, by Update and Final (`tag_of`, `tag_length`).
#![tactic(auto)]

mod cmac_stream;
mod hmac_stream;
mod mac;
mod mechanism;
mod state;
mod tag;

pub use mac::Mac;
pub use mechanism::Mechanism;
pub use tag::{LONGEST_TAG, Tag};
