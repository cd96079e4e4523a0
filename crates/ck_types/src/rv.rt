//! Return codes.

ghost use Rattle.std.specs.Prelude.{◌≡◌};
ghost use Rattle.ck_types.specs.Numbers.{rv_number, IsInverse};

/// What a call returns: a `CK_RV` (PKCS #11 v3.1, 3.6 and 5.1).
#[derive(Clone, Copy, Debug, PartialEq, Eq)]
pub enum Rv {
    Ok = 0x0,
    HostMemory = 0x2,
    SlotIdInvalid = 0x3,
    FunctionFailed = 0x6,
    ArgumentsBad = 0x7,
    AttributeReadOnly = 0x10,
    AttributeSensitive = 0x11,
    AttributeTypeInvalid = 0x12,
    AttributeValueInvalid = 0x13,
    ActionProhibited = 0x1b,
    DataLenRange = 0x21,
    DeviceError = 0x30,
    DeviceMemory = 0x31,
    EncryptedDataInvalid = 0x40,
    EncryptedDataLenRange = 0x41,
    FunctionNotSupported = 0x54,
    KeyHandleInvalid = 0x60,
    KeySizeRange = 0x62,
    KeyTypeInconsistent = 0x63,
    KeyFunctionNotPermitted = 0x68,
    KeyNotWrappable = 0x69,
    KeyUnextractable = 0x6a,
    MechanismInvalid = 0x70,
    MechanismParamInvalid = 0x71,
    ObjectHandleInvalid = 0x82,
    OperationActive = 0x90,
    OperationNotInitialized = 0x91,
    PinIncorrect = 0xa0,
    PinLenRange = 0xa2,
    PinLocked = 0xa4,
    SessionCount = 0xb1,
    SessionHandleInvalid = 0xb3,
    SessionParallelNotSupported = 0xb4,
    SessionReadOnly = 0xb5,
    SessionExists = 0xb6,
    SessionReadOnlyExists = 0xb7,
    SessionReadWriteSoExists = 0xb8,
    SignatureInvalid = 0xc0,
    SignatureLenRange = 0xc1,
    TemplateIncomplete = 0xd0,
    TemplateInconsistent = 0xd1,
    UnwrappingKeyHandleInvalid = 0xf0,
    UnwrappingKeyTypeInconsistent = 0xf2,
    UserAlreadyLoggedIn = 0x100,
    UserNotLoggedIn = 0x101,
    UserPinNotInitialized = 0x102,
    UserTypeInvalid = 0x103,
    UserAnotherAlreadyLoggedIn = 0x104,
    WrappedKeyInvalid = 0x110,
    WrappedKeyLenRange = 0x112,
    WrappingKeyHandleInvalid = 0x113,
    WrappingKeyTypeInconsistent = 0x115,
    BufferTooSmall = 0x150,
}

impl Rv {
    /// The number that PKCS #11 gives it.
    pub fn number(self) -> u64
        ensures { result ≡ rv_number self }
    {
        self as u64
    }

    /// What the number stands for, or none where it stands for nothing that is known here.
    pub fn from_number(number: u64) -> Option<Rv>
        ensures { IsInverse rv_number number result }
    {
        match number {
            0x0 => Some(Rv::Ok),
            0x2 => Some(Rv::HostMemory),
            0x3 => Some(Rv::SlotIdInvalid),
            0x6 => Some(Rv::FunctionFailed),
            0x7 => Some(Rv::ArgumentsBad),
            0x10 => Some(Rv::AttributeReadOnly),
            0x11 => Some(Rv::AttributeSensitive),
            0x12 => Some(Rv::AttributeTypeInvalid),
            0x13 => Some(Rv::AttributeValueInvalid),
            0x1b => Some(Rv::ActionProhibited),
            0x21 => Some(Rv::DataLenRange),
            0x30 => Some(Rv::DeviceError),
            0x31 => Some(Rv::DeviceMemory),
            0x40 => Some(Rv::EncryptedDataInvalid),
            0x41 => Some(Rv::EncryptedDataLenRange),
            0x54 => Some(Rv::FunctionNotSupported),
            0x60 => Some(Rv::KeyHandleInvalid),
            0x62 => Some(Rv::KeySizeRange),
            0x63 => Some(Rv::KeyTypeInconsistent),
            0x68 => Some(Rv::KeyFunctionNotPermitted),
            0x69 => Some(Rv::KeyNotWrappable),
            0x6a => Some(Rv::KeyUnextractable),
            0x70 => Some(Rv::MechanismInvalid),
            0x71 => Some(Rv::MechanismParamInvalid),
            0x82 => Some(Rv::ObjectHandleInvalid),
            0x90 => Some(Rv::OperationActive),
            0x91 => Some(Rv::OperationNotInitialized),
            0xa0 => Some(Rv::PinIncorrect),
            0xa2 => Some(Rv::PinLenRange),
            0xa4 => Some(Rv::PinLocked),
            0xb1 => Some(Rv::SessionCount),
            0xb3 => Some(Rv::SessionHandleInvalid),
            0xb4 => Some(Rv::SessionParallelNotSupported),
            0xb5 => Some(Rv::SessionReadOnly),
            0xb6 => Some(Rv::SessionExists),
            0xb7 => Some(Rv::SessionReadOnlyExists),
            0xb8 => Some(Rv::SessionReadWriteSoExists),
            0xc0 => Some(Rv::SignatureInvalid),
            0xc1 => Some(Rv::SignatureLenRange),
            0xd0 => Some(Rv::TemplateIncomplete),
            0xd1 => Some(Rv::TemplateInconsistent),
            0xf0 => Some(Rv::UnwrappingKeyHandleInvalid),
            0xf2 => Some(Rv::UnwrappingKeyTypeInconsistent),
            0x100 => Some(Rv::UserAlreadyLoggedIn),
            0x101 => Some(Rv::UserNotLoggedIn),
            0x102 => Some(Rv::UserPinNotInitialized),
            0x103 => Some(Rv::UserTypeInvalid),
            0x104 => Some(Rv::UserAnotherAlreadyLoggedIn),
            0x110 => Some(Rv::WrappedKeyInvalid),
            0x112 => Some(Rv::WrappedKeyLenRange),
            0x113 => Some(Rv::WrappingKeyHandleInvalid),
            0x115 => Some(Rv::WrappingKeyTypeInconsistent),
            0x150 => Some(Rv::BufferTooSmall),
            _ => None,
        }
    }
}
