//! The record.

ghost use Rattle.std.specs.Prelude.{◌≡◌, ◌==◌, ◌<◌, ◌≤◌, Some, None, is_some, true, if◌then◌else◌};
ghost use Rattle.std.specs.Option.{option_copied};
ghost use Rattle.pin_record.specs.Records.{TokenRecord, is_coherent, is_initialized, is_locked, initialized_record, new_record, pin_of, tries_limit, tries_of, verifier_of, with_pin, with_tries};

use crate::pin::{Pin, TRIES_LIMIT};
use crate::verifier::Verifier;
use ck_types::{Label, UserType};
use std::marker::Model;

/// A token's label, the PINs of its security officer (SO) and its user, and the tries of each.
///
/// The token is initialised where the SO's PIN is set. Where it isn't, the user's PIN isn't set
/// either, and the label is blank.
#[derive(Clone, Copy, Debug, PartialEq, Eq)]
pub struct Record {
    label: Label,
    so: Pin,
    user: Pin,
}

impl Model for Record {
    ghost use Rattle.std.specs.Prelude.{◌≡◌, true};
    ghost use Rattle.pin_record.specs.Records.{TokenRecord, is_coherent};

    ghost Value = { TokenRecord };

    ghost view = { λ r. record { label = r.label; so = r.so; user = r.user } };

    ghost invariant = { λ r. is_coherent (record { label = r.label; so = r.so; user = r.user }) ≡ true };

    ghost inverse = { λ r. record { label = r.label; so = r.so; user = r.user } };
}

impl Default for Record {
    ghost is_default = { λ r. r ≡ new_record };

    /// The record of a new store.
    fn default() -> Record {
        Record::new()
    }
}

impl Record {
    /// The record of a new store: not initialised.
    pub fn new() -> Record
        ensures { result ≡ new_record }
    {
        Record {
            label: Label::BLANK,
            so: Pin::UNSET,
            user: Pin::UNSET,
        }
    }

    /// The record of a token that was initialised (C_InitToken): with this label and SO PIN, and
    /// without a user PIN. Of the SO's PIN, `under_way` checks are in progress. No memory is taken.
    pub fn initialized(label: Label, so: Verifier, under_way: u8) -> Record
        requires { under_way ≤ tries_limit }
        ensures { result ≡ initialized_record label so under_way }
    {
        Record {
            label,
            so: Pin::set(so, under_way),
            user: Pin::UNSET,
        }
    }

    /// The record of these parts, or none where there is no such record.
    pub(crate) fn from_parts(label: Label, so: Pin, user: Pin) -> Option<Record>
        ensures { let r : TokenRecord = record { label = label; so = so; user = user } in
            result ≡ (if is_coherent r then Some r else None) }
    {
        let is_new = user.verifier().is_none() && label.as_slice() == Label::BLANK.as_slice();
        if so.verifier().is_some() || is_new {
            Some(Record { label, so, user })
        } else {
            None
        }
    }

    pub fn label(&self) -> &Label
        ensures value { result.now ≡ self.now.label }
        ensures valid { is_coherent self.now ≡ true }
    {
        &self.label
    }

    /// Whether the token is initialised: whether the SO's PIN is set.
    pub fn is_initialized(&self) -> bool
        ensures { result ≡ is_initialized self.now }
    {
        self.so.verifier().is_some()
    }

    pub(crate) fn pin(&self, who: UserType) -> &Pin
        ensures { result.now ≡ pin_of self.now who }
    {
        match who {
            UserType::So => &self.so,
            UserType::User => &self.user,
        }
    }

    /// The verifier of the PIN, or none where it isn't set.
    pub fn verifier(&self, who: UserType) -> Option<&Verifier>
        ensures { option_copied result ≡ verifier_of self.now who }
    {
        self.pin(who).verifier()
    }

    /// The tries of the PIN, at most `TRIES_LIMIT`. They are the checks of it begun since the last
    /// one that ended right, or since it was set, and those in progress then.
    pub fn tries(&self, who: UserType) -> u8
        ensures value { result ≡ tries_of self.now who }
        ensures few { tries_of self.now who ≤ tries_limit }
        ensures set { 0 < tries_of self.now who → is_some (verifier_of self.now who) ≡ true }
    {
        self.pin(who).tries()
    }

    /// Whether the PIN is locked: whether its tries are `TRIES_LIMIT`.
    pub fn is_locked(&self, who: UserType) -> bool
        ensures { result ≡ is_locked self.now who }
    {
        self.tries(who) >= TRIES_LIMIT
    }

    /// The record with a new PIN, of which `under_way` checks are in progress (C_InitPIN for the user,
    /// C_SetPIN). No memory is taken.
    pub fn with_pin(self, who: UserType, verifier: Verifier, under_way: u8) -> Record
        requires initialized { is_initialized self ≡ true }
        requires few { under_way ≤ tries_limit }
        ensures { result ≡ with_pin self who verifier under_way }
    {
        let pin = Pin::set(verifier, under_way);
        match who {
            UserType::So => Record { so: pin, ..self },
            UserType::User => Record { user: pin, ..self },
        }
    }

    /// The record with other tries of a PIN that is set.
    pub(crate) fn with_tries(self, who: UserType, tries: u8) -> Record
        requires set { is_some (verifier_of self who) ≡ true }
        requires few { tries ≤ tries_limit }
        ensures { result ≡ with_tries self who tries }
    {
        match who {
            UserType::So => Record {
                so: self.so.with_tries(tries),
                ..self
            },
            UserType::User => Record {
                user: self.user.with_tries(tries),
                ..self
            },
        }
    }
}
