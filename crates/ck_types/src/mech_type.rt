//! Mechanism types.

ghost use Rattle.std.specs.Prelude.{◌≡◌};
ghost use Rattle.ck_types.specs.Numbers.{mech_type_number, IsInverse};

/// Which mechanism it is: a `CK_MECHANISM_TYPE` (PKCS #11 v3.1, 3.5).
#[derive(Clone, Copy, Debug, PartialEq, Eq)]
pub enum MechType {
    Sha256Hmac = 0x251,
    Sha224Hmac = 0x256,
    Sha384Hmac = 0x261,
    Sha512Hmac = 0x271,
    GenericSecretKeyGen = 0x350,
    AesKeyGen = 0x1080,
    AesEcb = 0x1081,
    AesCbc = 0x1082,
    AesCbcPad = 0x1085,
    AesCtr = 0x1086,
    AesCmac = 0x108a,
    AesKeyWrap = 0x2109,
}

impl MechType {
    /// The number that PKCS #11 gives it.
    pub fn number(self) -> u64
        ensures { result ≡ mech_type_number self }
    {
        self as u64
    }

    /// What the number stands for, or none where it stands for nothing that is known here.
    pub fn from_number(number: u64) -> Option<MechType>
        ensures { IsInverse mech_type_number number result }
    {
        match number {
            0x251 => Some(MechType::Sha256Hmac),
            0x256 => Some(MechType::Sha224Hmac),
            0x261 => Some(MechType::Sha384Hmac),
            0x271 => Some(MechType::Sha512Hmac),
            0x350 => Some(MechType::GenericSecretKeyGen),
            0x1080 => Some(MechType::AesKeyGen),
            0x1081 => Some(MechType::AesEcb),
            0x1082 => Some(MechType::AesCbc),
            0x1085 => Some(MechType::AesCbcPad),
            0x1086 => Some(MechType::AesCtr),
            0x108a => Some(MechType::AesCmac),
            0x2109 => Some(MechType::AesKeyWrap),
            _ => None,
        }
    }
}
