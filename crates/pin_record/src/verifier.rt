//! What a PIN is checked against.

ghost use Rattle.std.specs.Prelude.{◌≡◌, ◌≤◌, Some, None, true, length, if◌then◌else◌};
ghost use Rattle.hmac_sha2.specs.Pbkdf2.{pbkdf2};
ghost use Rattle.pin_record.specs.Verifiers.{PinVerifier, accepts, is_rounds, new_rounds, verifier_for};

use hmac_sha2::pbkdf2;
use lists::same_bytes;
use std::marker::Model;

/// The rounds of a new verifier.
pub const ROUNDS: u32 = 20_000;

/// The rounds of verifiers that an older token made.
pub const OLD_ROUNDS: u32 = 10_000;

/// A PIN's verifier: a salt of 16 bytes, a number of rounds, and 32 bytes. PBKDF2 with
/// HMAC-SHA-256 makes these of the PIN by salt and rounds (RFC 8018, section 5.2).
#[derive(Clone, Copy, Debug, PartialEq, Eq)]
pub struct Verifier {
    salt: [u8; 16],
    rounds: u32,
    key: [u8; 32],
}

impl Model for Verifier {
    ghost use Rattle.pin_record.specs.Verifiers.{PinVerifier, IsVerifier};

    ghost Value = { PinVerifier };

    ghost view = { λ v. record { salt = v.salt; rounds = v.rounds; key = v.key } };

    ghost invariant = { λ v. IsVerifier (record { salt = v.salt; rounds = v.rounds; key = v.key }) };

    ghost inverse = { λ v. record { salt = v.salt; rounds = v.rounds; key = v.key } };
}

impl Verifier {
    /// The verifier of a PIN, with this salt and `ROUNDS`. No memory is taken.
    pub fn made(pin: &[u8], salt: [u8; 16]) -> Verifier
        ensures { result ≡ verifier_for pin.now salt new_rounds }
    {
        Verifier {
            salt,
            rounds: ROUNDS,
            key: pbkdf2(pin, &salt, ROUNDS),
        }
    }

    /// The verifier of these parts, or none where no verifier has such rounds.
    pub(crate) fn from_parts(salt: [u8; 16], rounds: u32, key: [u8; 32]) -> Option<Verifier>
        ensures { let v : PinVerifier = record { salt = salt; rounds = rounds; key = key } in
            result ≡ (if is_rounds rounds then Some v else None) }
    {
        if rounds == OLD_ROUNDS || rounds == ROUNDS {
            Some(Verifier { salt, rounds, key })
        } else {
            None
        }
    }

    pub fn salt(&self) -> &[u8; 16]
        ensures value { result.now ≡ self.now.salt }
        ensures length { length self.now.salt ≡ 16 }
    {
        &self.salt
    }

    /// `OLD_ROUNDS` or `ROUNDS`.
    pub fn rounds(&self) -> u32
        ensures value { result ≡ self.now.rounds }
        ensures known { is_rounds result ≡ true }
    {
        self.rounds
    }

    /// What PBKDF2 made of the PIN.
    pub fn key(&self) -> &[u8; 32]
        ensures value { result.now ≡ self.now.key }
        ensures length { length self.now.key ≡ 32 }
    {
        &self.key
    }

    /// Whether the PIN is the verifier's: whether PBKDF2, with the verifier's salt and rounds, makes
    /// its key of the PIN. All bytes are compared. No memory is taken.
    pub fn accepts(&self, pin: &[u8]) -> bool
        ensures { result ≡ accepts self.now pin.now }
    {
        same_bytes(&self.key, &pbkdf2(pin, &self.salt, self.rounds))
    }
}
