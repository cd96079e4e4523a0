//! The faults, two at a time, that the calls of ciphers are given.

use super::given::*;
use precede::Condition::{
    CounterEnd, DataLength, DataTaken, EncryptedDataLength, KeyNotPermitted, NoBuffer, NoKey,
    NoMechanism, NoOperation, NoSession, OperationActive, SmallBuffer, WrongKeyType,
    WrongMechanism, WrongParameter,
};
use test_scripts::Step::{
    Decrypt, DecryptFinal, DecryptInit, DecryptUpdate, Encrypt, EncryptFinal, EncryptInit,
    EncryptUpdate,
};
use test_scripts::given::*;

/// Neighbours of the tables of C_EncryptInit, C_Encrypt, C_EncryptUpdate and C_EncryptFinal after the first two rows, and
/// rows between which one can't hold.
pub(super) const ENCRYPTING_CASES: &[Case] = &[
    (
        NoSession,
        NoMechanism,
        EncryptInit(BEGUN, None, KEY),
        EncryptInit(NOWHERE, None, KEY),
    ),
    (
        NoMechanism,
        OperationActive,
        EncryptInit(BEGUN, ECB, KEY),
        EncryptInit(BEGUN, None, KEY),
    ),
    (
        OperationActive,
        WrongMechanism,
        EncryptInit(WRITES, KEY_GENERATION, KEY),
        EncryptInit(BEGUN, KEY_GENERATION, KEY),
    ),
    (
        WrongMechanism,
        WrongParameter,
        EncryptInit(WRITES, ECB_WITH_PARAMETER, KEY),
        EncryptInit(WRITES, KEY_GENERATION_WITH_PARAMETER, KEY),
    ),
    (
        WrongParameter,
        NoKey,
        EncryptInit(WRITES, ECB, MISSING),
        EncryptInit(WRITES, ECB_WITH_PARAMETER, MISSING),
    ),
    // Data are no key, and have no key type.
    (
        NoKey,
        WrongKeyType,
        EncryptInit(WRITES, ECB, GENERIC_KEY),
        EncryptInit(WRITES, ECB, FREE),
    ),
    (
        WrongKeyType,
        KeyNotPermitted,
        EncryptInit(WRITES, ECB, IDLE_KEY),
        EncryptInit(WRITES, ECB, GENERIC_KEY),
    ),
    (
        NoSession,
        NoOperation,
        Encrypt(WRITES, TEXT, Some(16)),
        Encrypt(NOWHERE, TEXT, Some(16)),
    ),
    (
        NoOperation,
        DataLength,
        Encrypt(BEGUN, ODD_TEXT, Some(16)),
        Encrypt(WRITES, ODD_TEXT, Some(16)),
    ),
    (
        DataTaken,
        DataLength,
        Encrypt(BEGUN, ODD_TEXT, Some(16)),
        Encrypt(TAKEN, ODD_TEXT, Some(16)),
    ),
    (
        DataTaken,
        NoBuffer,
        Encrypt(BEGUN, TEXT, None),
        Encrypt(TAKEN, TEXT, None),
    ),
    (
        DataLength,
        NoBuffer,
        Encrypt(BEGUN, TEXT, None),
        Encrypt(BEGUN, ODD_TEXT, None),
    ),
    (
        DataLength,
        SmallBuffer,
        Encrypt(BEGUN, TEXT, Some(3)),
        Encrypt(BEGUN, ODD_TEXT, Some(3)),
    ),
    (
        NoSession,
        NoOperation,
        EncryptUpdate(WRITES, TEXT, Some(16)),
        EncryptUpdate(NOWHERE, TEXT, Some(16)),
    ),
    (
        NoOperation,
        CounterEnd,
        EncryptUpdate(COUNTS, LONG_TEXT, Some(49)),
        EncryptUpdate(WRITES, LONG_TEXT, Some(49)),
    ),
    (
        NoOperation,
        NoBuffer,
        EncryptUpdate(COUNTS, TEXT, None),
        EncryptUpdate(WRITES, TEXT, None),
    ),
    (
        CounterEnd,
        NoBuffer,
        EncryptUpdate(COUNTS, TEXT, None),
        EncryptUpdate(COUNTS, LONG_TEXT, None),
    ),
    (
        CounterEnd,
        SmallBuffer,
        EncryptUpdate(COUNTS, TEXT, Some(3)),
        EncryptUpdate(COUNTS, LONG_TEXT, Some(3)),
    ),
    (
        NoSession,
        NoOperation,
        EncryptFinal(WRITES, Some(16)),
        EncryptFinal(NOWHERE, Some(16)),
    ),
    (
        NoOperation,
        NoBuffer,
        EncryptFinal(PADS, None),
        EncryptFinal(WRITES, None),
    ),
    (
        DataLength,
        NoBuffer,
        EncryptFinal(PADS, None),
        EncryptFinal(TAKEN, None),
    ),
];

/// The same of C_DecryptInit, C_Decrypt, C_DecryptUpdate and C_DecryptFinal.
pub(super) const DECRYPTING_CASES: &[Case] = &[
    (
        NoSession,
        NoMechanism,
        DecryptInit(BEGUN, None, KEY),
        DecryptInit(NOWHERE, None, KEY),
    ),
    (
        NoMechanism,
        OperationActive,
        DecryptInit(BEGUN, ECB, KEY),
        DecryptInit(BEGUN, None, KEY),
    ),
    (
        OperationActive,
        WrongMechanism,
        DecryptInit(WRITES, KEY_GENERATION, KEY),
        DecryptInit(BEGUN, KEY_GENERATION, KEY),
    ),
    (
        WrongMechanism,
        WrongParameter,
        DecryptInit(WRITES, ECB_WITH_PARAMETER, KEY),
        DecryptInit(WRITES, KEY_GENERATION_WITH_PARAMETER, KEY),
    ),
    (
        WrongParameter,
        NoKey,
        DecryptInit(WRITES, ECB, MISSING),
        DecryptInit(WRITES, ECB_WITH_PARAMETER, MISSING),
    ),
    // Data are no key, and have no key type.
    (
        NoKey,
        WrongKeyType,
        DecryptInit(WRITES, ECB, GENERIC_KEY),
        DecryptInit(WRITES, ECB, FREE),
    ),
    (
        WrongKeyType,
        KeyNotPermitted,
        DecryptInit(WRITES, ECB, IDLE_KEY),
        DecryptInit(WRITES, ECB, GENERIC_KEY),
    ),
    (
        NoSession,
        NoOperation,
        Decrypt(WRITES, TEXT, Some(16)),
        Decrypt(NOWHERE, TEXT, Some(16)),
    ),
    (
        NoOperation,
        EncryptedDataLength,
        Decrypt(BEGUN, ODD_TEXT, Some(16)),
        Decrypt(WRITES, ODD_TEXT, Some(16)),
    ),
    (
        DataTaken,
        EncryptedDataLength,
        Decrypt(BEGUN, ODD_TEXT, Some(16)),
        Decrypt(TAKEN, ODD_TEXT, Some(16)),
    ),
    (
        DataTaken,
        DataLength,
        Decrypt(COUNTS, LONG_TEXT, Some(49)),
        Decrypt(COUNTED, LONG_TEXT, Some(49)),
    ),
    (
        DataTaken,
        NoBuffer,
        Decrypt(BEGUN, TEXT, None),
        Decrypt(TAKEN, TEXT, None),
    ),
    (
        EncryptedDataLength,
        NoBuffer,
        Decrypt(BEGUN, TEXT, None),
        Decrypt(BEGUN, ODD_TEXT, None),
    ),
    (
        EncryptedDataLength,
        SmallBuffer,
        Decrypt(BEGUN, TEXT, Some(3)),
        Decrypt(BEGUN, ODD_TEXT, Some(3)),
    ),
    (
        NoSession,
        NoOperation,
        DecryptUpdate(WRITES, TEXT, Some(16)),
        DecryptUpdate(NOWHERE, TEXT, Some(16)),
    ),
    (
        NoOperation,
        CounterEnd,
        DecryptUpdate(COUNTS, LONG_TEXT, Some(49)),
        DecryptUpdate(WRITES, LONG_TEXT, Some(49)),
    ),
    (
        NoOperation,
        NoBuffer,
        DecryptUpdate(COUNTS, TEXT, None),
        DecryptUpdate(WRITES, TEXT, None),
    ),
    (
        CounterEnd,
        NoBuffer,
        DecryptUpdate(COUNTS, TEXT, None),
        DecryptUpdate(COUNTS, LONG_TEXT, None),
    ),
    (
        CounterEnd,
        SmallBuffer,
        DecryptUpdate(COUNTS, TEXT, Some(3)),
        DecryptUpdate(COUNTS, LONG_TEXT, Some(3)),
    ),
    (
        NoSession,
        NoOperation,
        DecryptFinal(WRITES, Some(16)),
        DecryptFinal(NOWHERE, Some(16)),
    ),
    (
        NoOperation,
        NoBuffer,
        DecryptFinal(PADDED, None),
        DecryptFinal(WRITES, None),
    ),
    (
        EncryptedDataLength,
        NoBuffer,
        DecryptFinal(PADDED, None),
        DecryptFinal(PADS, None),
    ),
    (
        EncryptedDataLength,
        SmallBuffer,
        DecryptFinal(PADDED, Some(3)),
        DecryptFinal(PADS, Some(3)),
    ),
];
