//! Object classes.

ghost use Rattle.std.specs.Prelude.{◌≡◌};
ghost use Rattle.ck_types.specs.Numbers.{object_class_number, IsInverse};

/// What an object is: a `CK_OBJECT_CLASS` (PKCS #11 v3.1, 3.4).
#[derive(Clone, Copy, Debug, PartialEq, Eq)]
pub enum ObjectClass {
    Data = 0x0,
    SecretKey = 0x4,
}

impl ObjectClass {
    /// The number that PKCS #11 gives it.
    pub fn number(self) -> u64
        ensures { result ≡ object_class_number self }
    {
        self as u64
    }

    /// What the number stands for, or none where it stands for nothing that is known here.
    pub fn from_number(number: u64) -> Option<ObjectClass>
        ensures { IsInverse object_class_number number result }
    {
        match number {
            0x0 => Some(ObjectClass::Data),
            0x4 => Some(ObjectClass::SecretKey),
            _ => None,
        }
    }
}
