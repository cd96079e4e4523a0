//! The tag of a message.

ghost use Rattle.std.specs.Prelude.{◌≡◌, ◌≤◌, length};

use std::marker::Model;

/// The length of the longest tag in bytes, which HMAC-SHA-512 makes.
pub const LONGEST_TAG: usize = 64;

/// The tag of a message: at most 64 bytes, which lie in the value itself. Contracts see them as a
/// list.
#[derive(Drop)]
pub struct Tag {
    bytes: [u8; LONGEST_TAG],
    len: usize,
}

impl Model for Tag {
    ghost use Rattle.std.specs.Prelude.{ℕ, ◌≤◌, List, take};

    ghost Value = { List ℕ };

    ghost view = { λ c. take c.len c.bytes };

    ghost invariant = { λ c. c.len ≤ 64 };
}

impl Tag {
    /// The tag of these bytes.
    pub(crate) fn new(bytes: &[u8]) -> Tag
        requires { length bytes.now ≤ LONGEST_TAG }
        ensures { result ≡ bytes.now }
    {
        let len = bytes.len();
        let mut room = [0; LONGEST_TAG];
        room[..len].copy_from_slice(bytes);
        Tag { bytes: room, len }
    }

    /// The bytes of the tag, as many as its mechanism's `tag_len` returns.
    pub fn as_slice(&self) -> &[u8]
        ensures value { result.now ≡ self.now }
        ensures within { length self.now ≤ LONGEST_TAG }
    {
        &self.bytes[..self.len]
    }
}
