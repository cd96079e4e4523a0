//! What work returns.

ghost use Rattle.std.specs.Prelude.{◌≡◌};
ghost use Rattle.mech.specs.Works.{is_pin_outcome};

use aes_modes::Direction;
use attrs::Object;
use ck_types::{Bytes, Label, UserType};
use macs::Mac;
use ops::MacPlace;
use pin_record::Verifier;
use streams::Stream;

/// What work returns. A verifier in it is new, with `pin_record::ROUNDS`.
#[derive(Drop)]
pub enum Outcome {
    /// What a part adds to the output of a cipher, and the operation after it.
    Piece { output: Bytes, stream: Stream },
    /// The final part of the output of an operation of this direction, for the last data.
    Rest { direction: Direction, output: Bytes },
    /// No text is encrypted to the data of an operation of this direction: its padding is wrong.
    BadPadding(Direction),
    /// The operation at a place that signs or verifies, after a part.
    Taken { place: MacPlace, mac: Mac },
    /// The signature of all data.
    Signature(Bytes),
    /// The signature is that of all data, or it is not.
    RightSignature,
    WrongSignature,
    /// The wrapped value of a key.
    Wrapped(Bytes),
    /// The key that is made of an unwrapped value.
    Unwrapped(Object),
    /// The bytes are the wrapping of no value.
    BadWrapping,
    /// The PIN isn't the one that was checked against (C_Login, C_SetPIN, C_InitToken).
    WrongPin,
    /// The PIN is right (C_Login, PKCS #11 v3.1, 5.6).
    RightPin(UserType),
    /// The verifier of the user's new PIN (C_InitPIN, PKCS #11 v3.1, 5.5).
    PinMade(Verifier),
    /// The old PIN is right, and the new one's verifier (C_SetPIN, PKCS #11 v3.1, 5.5).
    PinChanged { who: UserType, verifier: Verifier },
    /// The verifier of the SO's first PIN, and the token's label (C_InitToken, PKCS #11 v3.1, 5.5).
    TokenMade { label: Label, verifier: Verifier },
    /// The SO's PIN is right, and the token's label (C_InitToken, PKCS #11 v3.1, 5.5).
    TokenReset { label: Label },
}

impl Outcome {
    /// Whether work on a PIN returns it.
    pub(crate) fn is_of_pin(&self) -> bool
        ensures { result ≡ is_pin_outcome self.now }
    {
        matches!(
            self,
            Outcome::WrongPin
                | Outcome::RightPin(_)
                | Outcome::PinMade(_)
                | Outcome::PinChanged { .. }
                | Outcome::TokenMade { .. }
                | Outcome::TokenReset { .. }
        )
    }
}
