//! The tag of a message in parts.

ghost use Rattle.std.specs.Prelude.{◌≡◌, ◌↔◌, ◌==◌, not, length, IsSome, IfSome};
ghost use Rattle.macs.specs.Authentication.{mac_begun, longer};
ghost use Rattle.macs.specs.Tags.{IsKeyLengthOf, tag_length, tag_of};

use crate::state::State;
use crate::{Mechanism, Tag};
use std::marker::Model;

/// A message that comes in parts, under a mechanism and a key. Contracts see these and all of the
/// message that was taken.
///
/// Of the message it keeps a block at most, or the states of the hash function, and whether there
/// was a byte.
#[derive(Drop)]
pub struct Mac {
    state: State,
    has_taken: bool,
}

impl Model for Mac {
    ghost use Rattle.macs.specs.Authentication.{Authentication};

    ghost Value = { Authentication };

    ghost use Rattle.macs.specs.MacFields.{authentication_of, Holds};

    ghost view = { authentication_of };

    ghost invariant = { Holds };
}

impl Mac {
    /// The empty message under a key, or none where the key has no length of the mechanism's: that
    /// of `AesCmac` is 16, 24 or 32 bytes, and that of the others is any.
    pub fn new(mechanism: Mechanism, key: &[u8]) -> Option<Mac>
        ensures some { IsSome result ↔ IsKeyLengthOf mechanism (length key.now) }
        ensures value { IfSome result (λ mac. mac ≡ mac_begun mechanism key.now) }
    {
        Some(Mac {
            state: State::new(mechanism, key)?,
            has_taken: false,
        })
    }

    /// The same once more, from where it stands. It takes no memory and cannot fail.
    pub fn copied(&self) -> Mac
        ensures { result ≡ self.now }
    {
        Mac {
            state: self.state.copied(),
            has_taken: self.has_taken,
        }
    }

    /// The mechanism, which determines the length of what `tag` returns.
    pub fn mechanism(&self) -> Mechanism
        ensures value { result ≡ self.now.mechanism }
        ensures length { length (tag_of self.now) ≡ tag_length result }
    {
        self.state.mechanism()
    }

    /// Whether a byte of the message was taken.
    pub fn has_taken(&self) -> bool
        ensures { result ≡ not (length self.now.taken == 0) }
    {
        self.has_taken
    }

    /// Takes one more part of the message, of any length (PKCS #11 v3.1, 5.13 and 5.15). It takes
    /// no memory and cannot fail.
    pub fn update(&mut self, piece: &[u8])
        ensures { self.new ≡ longer self.old piece.now }
    {
        self.state.update(piece);
        if !piece.is_empty() {
            self.has_taken = true;
        }
    }

    /// The tag of the message so far: of CMAC by SP 800-38B, 6.2, with Tlen = 128, and of HMAC by
    /// FIPS 198-1, 4. It takes no memory and cannot fail.
    pub fn tag(&self) -> Tag
        ensures value { result ≡ tag_of self.now }
        ensures length { length result ≡ tag_length self.now.mechanism }
    {
        self.state.tag()
    }
}
