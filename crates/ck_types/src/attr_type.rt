//! Attribute types.

ghost use Rattle.std.specs.Prelude.{◌≡◌};
ghost use Rattle.ck_types.specs.Numbers.{attr_type_number, IsInverse};

/// Which attribute it is: a `CK_ATTRIBUTE_TYPE` (PKCS #11 v3.1, 3.4).
#[derive(Clone, Copy, Debug, PartialEq, Eq)]
pub enum AttrType {
    Class = 0x0,
    Token = 0x1,
    Private = 0x2,
    Label = 0x3,
    UniqueId = 0x4,
    Application = 0x10,
    Value = 0x11,
    Trusted = 0x86,
    KeyType = 0x100,
    Id = 0x102,
    Sensitive = 0x103,
    Encrypt = 0x104,
    Decrypt = 0x105,
    Wrap = 0x106,
    Unwrap = 0x107,
    Sign = 0x108,
    Verify = 0x10a,
    ValueLen = 0x161,
    Extractable = 0x162,
    Local = 0x163,
    NeverExtractable = 0x164,
    AlwaysSensitive = 0x165,
    KeyGenMechanism = 0x166,
    Modifiable = 0x170,
    Copyable = 0x171,
    Destroyable = 0x172,
    WrapWithTrusted = 0x210,
}

impl AttrType {
    /// The number that PKCS #11 gives it.
    pub fn number(self) -> u64
        ensures { result ≡ attr_type_number self }
    {
        self as u64
    }

    /// What the number stands for, or none where it stands for nothing that is known here.
    pub fn from_number(number: u64) -> Option<AttrType>
        ensures { IsInverse attr_type_number number result }
    {
        match number {
            0x0 => Some(AttrType::Class),
            0x1 => Some(AttrType::Token),
            0x2 => Some(AttrType::Private),
            0x3 => Some(AttrType::Label),
            0x4 => Some(AttrType::UniqueId),
            0x10 => Some(AttrType::Application),
            0x11 => Some(AttrType::Value),
            0x86 => Some(AttrType::Trusted),
            0x100 => Some(AttrType::KeyType),
            0x102 => Some(AttrType::Id),
            0x103 => Some(AttrType::Sensitive),
            0x104 => Some(AttrType::Encrypt),
            0x105 => Some(AttrType::Decrypt),
            0x106 => Some(AttrType::Wrap),
            0x107 => Some(AttrType::Unwrap),
            0x108 => Some(AttrType::Sign),
            0x10a => Some(AttrType::Verify),
            0x161 => Some(AttrType::ValueLen),
            0x162 => Some(AttrType::Extractable),
            0x163 => Some(AttrType::Local),
            0x164 => Some(AttrType::NeverExtractable),
            0x165 => Some(AttrType::AlwaysSensitive),
            0x166 => Some(AttrType::KeyGenMechanism),
            0x170 => Some(AttrType::Modifiable),
            0x171 => Some(AttrType::Copyable),
            0x172 => Some(AttrType::Destroyable),
            0x210 => Some(AttrType::WrapWithTrusted),
            _ => None,
        }
    }
}
