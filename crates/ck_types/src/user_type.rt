//! User types.

ghost use Rattle.std.specs.Prelude.{◌≡◌};
ghost use Rattle.ck_types.specs.Numbers.{user_type_number, IsInverse};

/// Who logs in: a `CK_USER_TYPE` (PKCS #11 v3.1, 3.3).
#[derive(Clone, Copy, Debug, PartialEq, Eq)]
pub enum UserType {
    So = 0,
    User = 1,
}

impl UserType {
    /// The number that PKCS #11 gives it.
    pub fn number(self) -> u64
        ensures { result ≡ user_type_number self }
    {
        self as u64
    }

    /// What the number stands for, or none where it stands for nothing that is known here.
    pub fn from_number(number: u64) -> Option<UserType>
        ensures { IsInverse user_type_number number result }
    {
        match number {
            0 => Some(UserType::So),
            1 => Some(UserType::User),
            _ => None,
        }
    }
}
