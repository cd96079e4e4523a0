//! One of the two PINs of a record.

ghost use Rattle.std.specs.Prelude.{◌≡◌, ◌≤◌, Some, None, is_some, nat_le, ◌&&◌, true, if◌then◌else◌};
ghost use Rattle.std.specs.Option.{option_copied};
ghost use Rattle.pin_record.specs.Records.{IsPin, PinState, tries_fit, tries_limit};

use crate::verifier::Verifier;
use std::marker::Model;

/// The tries at which a PIN is locked.
pub const TRIES_LIMIT: u8 = 10;

/// A PIN's verifier, where it is set, and its tries, which are `TRIES_LIMIT` at most and 0 where it
/// isn't set.
#[derive(Clone, Copy, Debug, PartialEq, Eq)]
pub(crate) struct Pin {
    verifier: Option<Verifier>,
    tries: u8,
}

impl Model for Pin {
    ghost use Rattle.pin_record.specs.Records.{PinState, IsPin};

    ghost Value = { PinState };

    ghost view = { λ p. record { verifier = p.verifier; tries = p.tries } };

    ghost invariant = { λ p. IsPin (record { verifier = p.verifier; tries = p.tries }) };

    ghost inverse = { λ p. record { verifier = p.verifier; tries = p.tries } };
}

impl Pin {
    pub(crate) const UNSET: Pin = Pin {
        verifier: None,
        tries: 0,
    };

    pub(crate) fn set(verifier: Verifier, tries: u8) -> Pin
        requires { tries ≤ tries_limit }
        ensures { result ≡ record { verifier = Some verifier; tries = tries } }
    {
        Pin {
            verifier: Some(verifier),
            tries,
        }
    }

    /// The PIN of these parts, or none where a PIN that isn't set has tries.
    pub(crate) fn from_parts(verifier: Option<Verifier>, tries: u8) -> Option<Pin>
        requires { tries ≤ tries_limit }
        ensures { let pin : PinState = record { verifier = verifier; tries = tries } in
            result ≡ (if tries_fit pin then Some pin else None) }
    {
        if verifier.is_some() || tries == 0 {
            Some(Pin { verifier, tries })
        } else {
            None
        }
    }

    pub(crate) fn verifier(&self) -> Option<&Verifier>
        ensures { option_copied result ≡ self.now.verifier }
    {
        self.verifier.as_ref()
    }

    pub(crate) fn tries(&self) -> u8
        ensures value { result ≡ self.now.tries }
        ensures pin { IsPin self.now }
    {
        self.tries
    }

    /// The same PIN with other tries.
    pub(crate) fn with_tries(self, tries: u8) -> Pin
        requires set { is_some self.verifier ≡ true }
        requires few { tries ≤ tries_limit }
        ensures { result ≡ record self { tries = tries } }
    {
        Pin { tries, ..self }
    }
}
