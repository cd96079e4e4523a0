//! The faults, two at a time, that the calls of each table are given; those of the others stand in `cipher_cases`, `mac_cases`
//! and `wrap_cases`.

use super::given::*;
use ck_calls::Function;
use precede::Condition as Fault;
use precede::Condition::{
    DataLength, DataTaken, EncryptedDataLength, NoBuffer, NoObject, NoOperation, NoSession, NoSlot,
    NotCopyable, NotDestroyable, NotModifiable, NotSerial, ObjectLimit, OperationActive,
    PrivateObject, RandomLength, SessionLimit, SmallBuffer, SoLoggedIn, TemplateRefused,
    TokenObjectReadOnly, UnknownFlag, WrongMechanism, WrongParameter,
};
use test_scripts::Step::{
    CloseAllSessions, CloseSession, CopyObject, CreateObject, Decrypt, DecryptFinal, DecryptInit,
    DecryptUpdate, DestroyObject, Encrypt, EncryptFinal, EncryptInit, EncryptUpdate, FindObjects,
    FindObjectsFinal, FindObjectsInit, GenerateKey, GenerateRandom, GetAttributeValue,
    GetMechanismInfo, GetMechanismList, GetObjectSize, GetSessionInfo, OpenSession,
    SetAttributeValue, Sign, SignFinal, SignInit, SignUpdate, UnwrapKey, Verify, VerifyFinal,
    VerifyInit, VerifyUpdate, WrapKey,
};
use test_scripts::given::*;
use test_scripts::{LeftOut, Step};

/// Each call, with the fault that stands right after a pending call, and with that fault.
pub(super) const SECONDS: &[(Fault, Step)] = &[
    (NoSlot, GetMechanismList(1)),
    (NoSlot, GetMechanismInfo(1, ECB_NUMBER)),
    (NoSlot, OpenSession(1, READ_WRITE)),
    (NoSession, CloseSession(NOWHERE)),
    (NoSlot, CloseAllSessions(1)),
    (NoSession, GetSessionInfo(NOWHERE)),
    (NoSession, CreateObject(NOWHERE, TOKEN_DATA)),
    (NoSession, CopyObject(NOWHERE, FREE, NOTHING)),
    (NoSession, DestroyObject(NOWHERE, FREE)),
    (NoSession, GetObjectSize(NOWHERE, FREE)),
    (NoSession, GetAttributeValue(NOWHERE, FREE, &[])),
    (NoSession, SetAttributeValue(NOWHERE, FREE, NOTHING)),
    (NoSession, FindObjectsInit(NOWHERE, NOTHING)),
    (NoSession, FindObjects(NOWHERE, 1)),
    (NoSession, FindObjectsFinal(NOWHERE)),
    (NoSession, EncryptInit(NOWHERE, ECB, KEY)),
    (NoSession, Encrypt(NOWHERE, TEXT, Some(16))),
    (NoSession, EncryptUpdate(NOWHERE, TEXT, Some(16))),
    (NoSession, EncryptFinal(NOWHERE, Some(16))),
    (NoSession, DecryptInit(NOWHERE, ECB, KEY)),
    (NoSession, Decrypt(NOWHERE, TEXT, Some(16))),
    (NoSession, DecryptUpdate(NOWHERE, TEXT, Some(16))),
    (NoSession, DecryptFinal(NOWHERE, Some(16))),
    (NoSession, SignInit(NOWHERE, AES_CMAC, KEY)),
    (NoSession, Sign(NOWHERE, TEXT, Some(16))),
    (NoSession, SignUpdate(NOWHERE, TEXT)),
    (NoSession, SignFinal(NOWHERE, Some(16))),
    (NoSession, VerifyInit(NOWHERE, AES_CMAC, KEY)),
    (NoSession, Verify(NOWHERE, TEXT, TEXT)),
    (NoSession, VerifyUpdate(NOWHERE, TEXT)),
    (NoSession, VerifyFinal(NOWHERE, TEXT)),
    (NoSession, GenerateKey(NOWHERE, AES_KEY_GEN, KEY_HERE)),
    (
        NoSession,
        WrapKey(NOWHERE, AES_KEY_WRAP, WRAPS, OPEN_KEY, None),
    ),
    (
        NoSession,
        UnwrapKey(NOWHERE, AES_KEY_WRAP, WRAPS, WRAPPED, UNWRAPPED),
    ),
    (NoSession, GenerateRandom(NOWHERE, 1)),
];

/// Neighbours of the tables of sessions and objects after the first two rows, and rows between which one can't hold.
pub(super) const CASES: &[Case] = &[
    (
        NoSlot,
        WrongMechanism,
        GetMechanismInfo(0, UNKNOWN_MECHANISM),
        GetMechanismInfo(1, UNKNOWN_MECHANISM),
    ),
    (NoSlot, NotSerial, OpenSession(0, 2), OpenSession(1, 2)),
    (NotSerial, UnknownFlag, OpenSession(0, 5), OpenSession(0, 1)),
    (UnknownFlag, SessionLimit, OPEN, OpenSession(0, 7)),
    (
        NoSession,
        TemplateRefused,
        CreateObject(WRITES, REFUSED_TOKEN_DATA),
        CreateObject(NOWHERE, REFUSED_TOKEN_DATA),
    ),
    (
        TemplateRefused,
        TokenObjectReadOnly,
        CreateObject(READS, TOKEN_DATA),
        CreateObject(READS, REFUSED_TOKEN_DATA),
    ),
    (
        TokenObjectReadOnly,
        PrivateObject,
        CreateObject(WRITES, PRIVATE_TOKEN_DATA),
        CreateObject(READS, PRIVATE_TOKEN_DATA),
    ),
    (
        PrivateObject,
        ObjectLimit,
        CreateObject(WRITES, SESSION_DATA),
        CreateObject(WRITES, PRIVATE_DATA),
    ),
    (
        NoSession,
        NoObject,
        CopyObject(WRITES, MISSING, NOTHING),
        CopyObject(NOWHERE, MISSING, NOTHING),
    ),
    (
        NoObject,
        TemplateRefused,
        CopyObject(WRITES, FREE, REFUSED),
        CopyObject(WRITES, MISSING, REFUSED),
    ),
    (
        NotCopyable,
        TemplateRefused,
        CopyObject(WRITES, FREE, REFUSED),
        CopyObject(WRITES, BARRED, REFUSED),
    ),
    (
        TemplateRefused,
        TokenObjectReadOnly,
        CopyObject(READS, FREE, ON_TOKEN),
        CopyObject(READS, FREE, REFUSED_ON_TOKEN),
    ),
    (
        TokenObjectReadOnly,
        PrivateObject,
        CopyObject(WRITES, FREE, PRIVATE_ON_TOKEN),
        CopyObject(READS, FREE, PRIVATE_ON_TOKEN),
    ),
    (
        PrivateObject,
        ObjectLimit,
        CopyObject(WRITES, FREE, OFF_TOKEN),
        CopyObject(WRITES, FREE, PRIVATE_OFF_TOKEN),
    ),
    (
        NoSession,
        NoObject,
        DestroyObject(WRITES, MISSING),
        DestroyObject(NOWHERE, MISSING),
    ),
    (
        TokenObjectReadOnly,
        NotDestroyable,
        DestroyObject(WRITES, BARRED),
        DestroyObject(READS, BARRED),
    ),
    (
        NoSession,
        NoObject,
        GetObjectSize(WRITES, MISSING),
        GetObjectSize(NOWHERE, MISSING),
    ),
    (
        NoSession,
        NoObject,
        GetAttributeValue(WRITES, MISSING, &[]),
        GetAttributeValue(NOWHERE, MISSING, &[]),
    ),
    (
        NoSession,
        NoObject,
        SetAttributeValue(WRITES, MISSING, NOTHING),
        SetAttributeValue(NOWHERE, MISSING, NOTHING),
    ),
    (
        NoObject,
        TemplateRefused,
        SetAttributeValue(WRITES, FREE, REFUSED),
        SetAttributeValue(WRITES, MISSING, REFUSED),
    ),
    (
        TokenObjectReadOnly,
        NotModifiable,
        SetAttributeValue(WRITES, BARRED, NOTHING),
        SetAttributeValue(READS, BARRED, NOTHING),
    ),
    (
        NotModifiable,
        TemplateRefused,
        SetAttributeValue(WRITES, FREE, REFUSED),
        SetAttributeValue(WRITES, BARRED, REFUSED),
    ),
    (
        NoSession,
        NoOperation,
        FindObjects(WRITES, 1),
        FindObjects(NOWHERE, 1),
    ),
    (
        NoSession,
        NoOperation,
        FindObjectsFinal(WRITES),
        FindObjectsFinal(NOWHERE),
    ),
    (
        NoSession,
        WrongMechanism,
        GenerateKey(WRITES, CIPHER, KEY_HERE),
        GenerateKey(NOWHERE, CIPHER, KEY_HERE),
    ),
    (
        WrongMechanism,
        WrongParameter,
        GenerateKey(WRITES, AES_KEY_GEN_WITH_PARAMETER, KEY_HERE),
        GenerateKey(WRITES, CIPHER_WITH_PARAMETER, KEY_HERE),
    ),
    (
        WrongParameter,
        TemplateRefused,
        GenerateKey(WRITES, AES_KEY_GEN, REFUSED_KEY_ON_TOKEN),
        GenerateKey(WRITES, AES_KEY_GEN_WITH_PARAMETER, REFUSED_KEY_ON_TOKEN),
    ),
    (
        TemplateRefused,
        TokenObjectReadOnly,
        GenerateKey(READS, AES_KEY_GEN, KEY_ON_TOKEN),
        GenerateKey(READS, AES_KEY_GEN, REFUSED_KEY_ON_TOKEN),
    ),
    (
        TokenObjectReadOnly,
        PrivateObject,
        GenerateKey(WRITES, AES_KEY_GEN, PRIVATE_KEY_ON_TOKEN),
        GenerateKey(READS, AES_KEY_GEN, PRIVATE_KEY_ON_TOKEN),
    ),
    (
        PrivateObject,
        ObjectLimit,
        GenerateKey(WRITES, AES_KEY_GEN, KEY_HERE),
        GenerateKey(WRITES, AES_KEY_GEN, PRIVATE_KEY_HERE),
    ),
    (
        NoSession,
        RandomLength,
        GenerateRandom(WRITES, MANY_BYTES),
        GenerateRandom(NOWHERE, MANY_BYTES),
    ),
];

/// The neighbours that can't both hold.
pub(super) const LEFT_OUT: &[LeftOut] = &[
    // Nobody logs in here: `test_pin` has the cases in which the SO is logged in.
    (Function::OpenSession, UnknownFlag, SoLoggedIn),
    (Function::OpenSession, SoLoggedIn, SessionLimit),
    // Of an object that isn't there nothing else is known.
    (Function::CopyObject, NoObject, NotCopyable),
    (Function::DestroyObject, NoObject, TokenObjectReadOnly),
    (Function::SetAttributeValue, NoObject, TokenObjectReadOnly),
    // In a session that isn't there no search is in progress.
    (Function::FindObjectsInit, NoSession, OperationActive),
    // Where there is no operation, none has taken data.
    (Function::Encrypt, NoOperation, DataTaken),
    (Function::Decrypt, NoOperation, DataTaken),
    (Function::EncryptFinal, NoOperation, DataLength),
    (Function::DecryptFinal, NoOperation, DataLength),
    (Function::Sign, NoOperation, DataTaken),
    (Function::Verify, NoOperation, DataTaken),
    // The row of encrypted data is for decryptions, which have the same tables.
    (Function::Encrypt, DataLength, EncryptedDataLength),
    (Function::Encrypt, EncryptedDataLength, NoBuffer),
    (Function::EncryptFinal, DataLength, EncryptedDataLength),
    (Function::EncryptFinal, EncryptedDataLength, NoBuffer),
    // A counter refuses the other lengths, and none at the last call.
    (Function::Decrypt, DataLength, EncryptedDataLength),
    (Function::DecryptFinal, DataLength, EncryptedDataLength),
    // A buffer that isn't there has no length.
    (Function::Encrypt, NoBuffer, SmallBuffer),
    (Function::EncryptUpdate, NoBuffer, SmallBuffer),
    (Function::EncryptFinal, NoBuffer, SmallBuffer),
    (Function::Decrypt, NoBuffer, SmallBuffer),
    (Function::DecryptUpdate, NoBuffer, SmallBuffer),
    (Function::DecryptFinal, NoBuffer, SmallBuffer),
    (Function::Sign, NoBuffer, SmallBuffer),
    (Function::SignFinal, NoBuffer, SmallBuffer),
    (Function::WrapKey, NoBuffer, SmallBuffer),
];
