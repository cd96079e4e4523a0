//! What is to be done.

ghost use Rattle.std.specs.Prelude.{◌≡◌};
ghost use Rattle.mech.specs.Works.{is_pin_work};

use aes_vector::Key;
use ck_types::{Bytes, Label, SessionState, Template, UserType};
use macs::Mac;
use ops::MacPlace;
use pin_record::Verifier;
use streams::{Part, Stream};

/// What is to be done, with all that it needs. A PIN is its bytes, of any number: the limits of a PIN's length are the
/// call's to test. A salt is the 16 bytes of the verifier that is made, and a label has 32 bytes.
#[derive(Drop)]
pub enum Work {
    /// Data of an operation that encrypts or decrypts, as a part or as the last (PKCS #11 v3.1, 5.8 and 5.10). The
    /// stream is a copy: the operation's own stands where it was.
    Cipher {
        stream: Stream,
        part: Part,
        input: Bytes,
    },
    /// A part for the operation at a place that signs or verifies (PKCS #11 v3.1, 5.13 and 5.15). The operation is a copy,
    /// as that of a cipher.
    Take {
        place: MacPlace,
        mac: Mac,
        input: Bytes,
    },
    /// The last data of an operation that signs (PKCS #11 v3.1, 5.13).
    Sign {
        mac: Mac,
        input: Bytes,
    },
    /// The last data of an operation that verifies, and the signature that is to be its (PKCS #11 v3.1, 5.15).
    Verify {
        mac: Mac,
        input: Bytes,
        signature: Bytes,
    },
    /// The value of a key is wrapped under a wrapping key (C_WrapKey, PKCS #11 v3.1, 5.18).
    Wrap {
        key: Key,
        value: Bytes,
    },
    /// A wrapped value is unwrapped, and a key is made of it by a template in a session of this state. The random bytes make
    /// its CKA_UNIQUE_ID (C_UnwrapKey, PKCS #11 v3.1, 5.18).
    Unwrap {
        key: Key,
        wrapped: Bytes,
        state: SessionState,
        template: Template,
        random: [u8; 16],
    },
    /// A PIN is checked against the verifier that stood when the check began (C_Login, PKCS #11 v3.1, 5.6).
    CheckPin {
        who: UserType,
        verifier: Verifier,
        pin: Bytes,
    },
    /// The verifier of the user's new PIN is made (C_InitPIN, PKCS #11 v3.1, 5.5).
    MakePin {
        pin: Bytes,
        salt: [u8; 16],
    },
    /// A PIN is checked against the verifier that stood when the check began (C_SetPIN, PKCS #11 v3.1, 5.5). Where it
    /// is right, the new one's verifier is made.
    ChangePin {
        who: UserType,
        verifier: Verifier,
        pin: Bytes,
        new_pin: Bytes,
        salt: [u8; 16],
    },
    /// The verifier of the SO's first PIN is made, for a token with this label. The token isn't
    /// initialised yet (C_InitToken, PKCS #11 v3.1, 5.5).
    InitToken {
        label: Label,
        pin: Bytes,
        salt: [u8; 16],
    },
    /// The SO's PIN is checked against the verifier that stood when the check began. The token is to be
    /// initialised again with this label (C_InitToken, PKCS #11 v3.1, 5.5).
    ResetToken {
        label: Label,
        verifier: Verifier,
        pin: Bytes,
    },
}

impl Work {
    /// Whether it is work on a PIN.
    pub(crate) fn is_on_pin(&self) -> bool
        ensures { result ≡ is_pin_work self.now }
    {
        matches!(
            self,
            Work::CheckPin { .. }
                | Work::MakePin { .. }
                | Work::ChangePin { .. }
                | Work::InitToken { .. }
                | Work::ResetToken { .. }
        )
    }
}
