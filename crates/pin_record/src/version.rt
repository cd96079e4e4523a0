//! The versions of a record's stored form.

ghost use Rattle.std.specs.Prelude.{◌≡◌};
ghost use Rattle.pin_record.specs.Stored.{version_number};

/// A version of the stored form.
#[derive(Clone, Copy, Debug, PartialEq, Eq)]
pub(crate) enum Version {
    /// As older tokens wrote it, without the rounds of verifiers.
    One,
    Two,
}

impl Version {
    /// The first byte of a stored form.
    pub(crate) fn number(self) -> u8
        ensures { result ≡ version_number self }
    {
        match self {
            Version::One => 1,
            Version::Two => 2,
        }
    }
}
