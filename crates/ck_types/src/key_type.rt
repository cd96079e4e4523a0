//! Key types.

ghost use Rattle.std.specs.Prelude.{◌≡◌};
ghost use Rattle.ck_types.specs.Numbers.{key_type_number, IsInverse};

/// What kind of secret key it is: a `CK_KEY_TYPE` (PKCS #11 v3.1, 3.4).
#[derive(Clone, Copy, Debug, PartialEq, Eq)]
pub enum KeyType {
    GenericSecret = 0x10,
    Aes = 0x1f,
}

impl KeyType {
    /// The number that PKCS #11 gives it.
    pub fn number(self) -> u64
        ensures { result ≡ key_type_number self }
    {
        self as u64
    }

    /// What the number stands for, or none where it stands for nothing that is known here.
    pub fn from_number(number: u64) -> Option<KeyType>
        ensures { IsInverse key_type_number number result }
    {
        match number {
            0x10 => Some(KeyType::GenericSecret),
            0x1f => Some(KeyType::Aes),
            _ => None,
        }
    }
}
