//! The states of messages under the mechanisms.

ghost use Rattle.std.specs.Prelude.{◌≡◌, ◌↔◌, length, IsSome, IfSome};
ghost use Rattle.macs.specs.Authentication.{mac_begun, longer};
ghost use Rattle.macs.specs.Tags.{IsKeyLengthOf, tag_length, tag_of};
ghost use Rattle.macs.specs.States.{authentication};

use crate::Mechanism;
use crate::cmac_stream::CmacStream;
use crate::hmac_stream::HmacStream;
use crate::tag::Tag;
use aes_vector::Key;
use sha2::{Sha224, Sha256, Sha384, Sha512};

/// A mechanism with what it keeps of a key and a message.
#[derive(Drop)]
pub(crate) enum State {
    Cmac(CmacStream),
    Hmac224(HmacStream<Sha224>),
    Hmac256(HmacStream<Sha256>),
    Hmac384(HmacStream<Sha384>),
    Hmac512(HmacStream<Sha512>),
}

impl State {
    /// The empty message, or none where the key is none of the mechanism's.
    pub(crate) fn new(mechanism: Mechanism, key: &[u8]) -> Option<State>
        ensures some { IsSome result ↔ IsKeyLengthOf mechanism (length key.now) }
        ensures value { IfSome result (λ state. authentication state ≡ mac_begun mechanism key.now) }
    {
        Some(match mechanism {
            Mechanism::AesCmac => State::Cmac(CmacStream::new(Key::new(key)?)),
            Mechanism::Sha224Hmac => State::Hmac224(HmacStream::new(key)),
            Mechanism::Sha256Hmac => State::Hmac256(HmacStream::new(key)),
            Mechanism::Sha384Hmac => State::Hmac384(HmacStream::new(key)),
            Mechanism::Sha512Hmac => State::Hmac512(HmacStream::new(key)),
        })
    }

    /// The same once more.
    pub(crate) fn copied(&self) -> State
        ensures { result ≡ self.now }
    {
        match self {
            State::Cmac(stream) => State::Cmac(stream.copied()),
            State::Hmac224(stream) => State::Hmac224(stream.copied()),
            State::Hmac256(stream) => State::Hmac256(stream.copied()),
            State::Hmac384(stream) => State::Hmac384(stream.copied()),
            State::Hmac512(stream) => State::Hmac512(stream.copied()),
        }
    }

    /// The mechanism.
    pub(crate) fn mechanism(&self) -> Mechanism
        ensures value { result ≡ (authentication self.now).mechanism }
        ensures length { length (tag_of (authentication self.now)) ≡ tag_length result }
    {
        match self {
            State::Cmac(stream) => {
                stream.is_keyed();
                Mechanism::AesCmac
            }
            State::Hmac224(_) => Mechanism::Sha224Hmac,
            State::Hmac256(_) => Mechanism::Sha256Hmac,
            State::Hmac384(_) => Mechanism::Sha384Hmac,
            State::Hmac512(_) => Mechanism::Sha512Hmac,
        }
    }

    /// Adds one more part to the message.
    pub(crate) fn update(&mut self, piece: &[u8])
        ensures { authentication self.new ≡ longer (authentication self.old) piece.now }
    {
        match self {
            State::Cmac(stream) => stream.update(piece),
            State::Hmac224(stream) => stream.update(piece),
            State::Hmac256(stream) => stream.update(piece),
            State::Hmac384(stream) => stream.update(piece),
            State::Hmac512(stream) => stream.update(piece),
        }
    }

    /// The tag of the message.
    pub(crate) fn tag(&self) -> Tag
        ensures value { result ≡ tag_of (authentication self.now) }
        ensures length { length result ≡ tag_length (authentication self.now).mechanism }
    {
        match self {
            State::Cmac(stream) => Tag::new(&stream.tag()),
            State::Hmac224(stream) => Tag::new(&stream.tag()),
            State::Hmac256(stream) => Tag::new(&stream.tag()),
            State::Hmac384(stream) => Tag::new(&stream.tag()),
            State::Hmac512(stream) => Tag::new(&stream.tag()),
        }
    }
}
