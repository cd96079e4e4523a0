//! A token's label.

ghost use Rattle.std.specs.Prelude.{◌≡◌, ◌↔◌, length, replicate, IsSome, IfSome};
ghost use Rattle.ck_types.specs.Format.{fixed};
ghost use Rattle.ck_types.specs.Canonical.{fixed_canonical};

use crate::codec::{Codec, split_first};
use crate::fault::CodecFault;
use std::alloc::Global;
use std::marker::Model;

/// The label of a token: 32 bytes, padded with blanks (PKCS #11 v3.1, 3.2 and 5.5, C_InitToken).
#[derive(Clone, Copy, Debug, PartialEq, Eq)]
pub struct Label {
    bytes: [u8; 32],
}

impl Model for Label {
    ghost use Rattle.std.specs.Prelude.{◌≡◌, List, ℕ, length};

    ghost Value = { List ℕ };

    ghost view = { λ label. label.bytes };

    ghost invariant = { λ label. length label.bytes ≡ 32 };

    ghost inverse = { λ bytes. record { bytes = bytes } };
}

impl Label {
    /// 32 blanks.
    pub const BLANK: Label = Label { bytes: [b' '; 32] };

    /// The label of the bytes, or none where they aren't 32.
    pub fn from_slice(bytes: &[u8]) -> Option<Label>
        ensures length { IsSome result ↔ (length bytes.now ≡ 32) }
        ensures value { IfSome result (λ label. label ≡ bytes.now) }
    {
        if bytes.len() != 32 {
            return None;
        }
        let mut label = [0; 32];
        label.copy_from_slice(bytes);
        Some(Label { bytes: label })
    }

    pub fn as_slice(&self) -> &[u8]
        ensures value { result.now ≡ self.now }
        ensures length { length self.now ≡ 32 }
    {
        &self.bytes
    }
}

impl Codec for Label {
    ghost format = { fixed 32 };

    ghost canonical = { fixed_canonical 32 };

    fn decode(_alloc: Global, bytes: &[u8]) -> Result<(Label, &[u8]), CodecFault> {
        let (front, rest) = split_first(bytes, 32)?;
        match Label::from_slice(front) {
            Some(label) => Ok((label, rest)),
            None => Err(CodecFault::Malformed),
        }
    }

    fn encode(&self, out: &mut Vec<u8>) -> Result<(), CodecFault> {
        out.extend_from_slice(self.as_slice())?;
        Ok(())
    }
}
