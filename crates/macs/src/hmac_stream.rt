//! HMAC of a message in parts (FIPS 198-1).

ghost use Rattle.std.specs.Prelude.{◌≡◌};
ghost use Rattle.hmac_sha2.specs.Hmac.{hmac};
ghost use Rattle.macs.specs.KeyedMessage.{empty_message, longer_message};

use hmac_sha2::{HashFunction, Hmac};
use lists::GhostBytes;
use std::marker::Model;

/// An HMAC of a message in parts under any of the hash functions. It keeps the states of two
/// hashers, and neither key nor message.
#[derive(Drop)]
pub(crate) struct HmacStream<D: HashFunction> {
    hmac: Hmac<D>,
    key: GhostBytes,
    taken: GhostBytes,
}

impl<D: HashFunction> Model for HmacStream<D> {
    ghost use Rattle.macs.specs.KeyedMessage.{KeyedMessage};

    ghost Value = { KeyedMessage };

    ghost use Rattle.hmac_sha2.specs.Stepwise.{HoldsMessage};

    ghost view = { λ s. record { key = s.key.bytes; taken = s.taken.bytes } };

    ghost invariant = { λ s. HoldsMessage D.holds D.hash D.BLOCK_SIZE s.hmac s.key.bytes s.taken.bytes };
}

impl<D: HashFunction> HmacStream<D>
where
    D::Output: Drop,
{
    /// The empty message under a key of any length.
    pub(crate) fn new(key: &[u8]) -> HmacStream<D>
        ensures { result ≡ empty_message key.now }
    {
        let mut noted = GhostBytes::new();
        noted.push(key);
        HmacStream {
            hmac: Hmac::new(key),
            key: noted,
            taken: GhostBytes::new(),
        }
    }

    /// The same once more.
    pub(crate) fn copied(&self) -> HmacStream<D>
        ensures { result ≡ self.now }
    {
        HmacStream {
            hmac: self.hmac.clone().unwrap(),
            key: self.key.copied(),
            taken: self.taken.copied(),
        }
    }

    /// Adds one more part to the message.
    pub(crate) fn update(&mut self, piece: &[u8])
        ensures { self.new ≡ longer_message self.old piece.now }
    {
        self.hmac.update(piece);
        self.taken.push(piece);
    }

    /// The tag of the message.
    pub(crate) fn tag(&self) -> D::Output
        ensures { D.bytes result ≡ hmac D.hash D.BLOCK_SIZE self.now.key self.now.taken }
    {
        self.hmac.clone().unwrap().finalize()
    }
}
