//! The mechanisms.

ghost use Rattle.std.specs.Prelude.{◌≡◌};

/// A mechanism that makes MACs (PKCS #11 v3.1, 5.13 and 5.15), at their whole length.
#[derive(Clone, Copy, Debug, PartialEq, Eq)]
pub enum Mechanism {
    /// CKM_AES_CMAC (SP 800-38B), with a key of 16, 24 or 32 bytes.
    AesCmac,
    /// CKM_SHA224_HMAC (FIPS 198-1), with a key of any length, as the next ones.
    Sha224Hmac,
    /// CKM_SHA256_HMAC.
    Sha256Hmac,
    /// CKM_SHA384_HMAC.
    Sha384Hmac,
    /// CKM_SHA512_HMAC.
    Sha512Hmac,
}

impl Mechanism {
    ghost use Rattle.macs.specs.Tags.{tag_length};

    /// How many bytes a tag has: 16, 28, 32, 48 or 64.
    pub fn tag_len(self) -> usize
        ensures { result ≡ tag_length self }
    {
        match self {
            Mechanism::AesCmac => 16,
            Mechanism::Sha224Hmac => 28,
            Mechanism::Sha256Hmac => 32,
            Mechanism::Sha384Hmac => 48,
            Mechanism::Sha512Hmac => 64,
        }
    }
}
