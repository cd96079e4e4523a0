//! The faults, two at a time, that calls are given which sign and verify.

use super::given::*;
use precede::Condition::{
    DataTaken, KeyNotPermitted, NoBuffer, NoKey, NoMechanism, NoOperation, NoSession,
    OperationActive, SignatureLength, SmallBuffer, WrongKeyType, WrongMechanism, WrongParameter,
};
use test_scripts::Step::{
    Sign, SignFinal, SignInit, SignUpdate, Verify, VerifyFinal, VerifyInit, VerifyUpdate,
};
use test_scripts::given::*;

/// Neighbours of their tables after the first two rows, and rows between which one can't hold.
pub(super) const SIGNING_CASES: &[Case] = &[
    (
        NoSession,
        NoMechanism,
        SignInit(BEGUN, None, KEY),
        SignInit(NOWHERE, None, KEY),
    ),
    (
        NoMechanism,
        OperationActive,
        SignInit(BEGUN, AES_CMAC, KEY),
        SignInit(BEGUN, None, KEY),
    ),
    (
        OperationActive,
        WrongMechanism,
        SignInit(WRITES, KEY_GENERATION, KEY),
        SignInit(BEGUN, KEY_GENERATION, KEY),
    ),
    (
        WrongMechanism,
        WrongParameter,
        SignInit(WRITES, CMAC_WITH_PARAMETER, KEY),
        SignInit(WRITES, KEY_GENERATION_WITH_PARAMETER, KEY),
    ),
    (
        WrongParameter,
        NoKey,
        SignInit(WRITES, AES_CMAC, MISSING),
        SignInit(WRITES, CMAC_WITH_PARAMETER, MISSING),
    ),
    (
        NoKey,
        WrongKeyType,
        SignInit(WRITES, AES_CMAC, GENERIC_KEY),
        SignInit(WRITES, AES_CMAC, FREE),
    ),
    (
        WrongKeyType,
        KeyNotPermitted,
        SignInit(WRITES, AES_CMAC, IDLE_KEY),
        SignInit(WRITES, AES_CMAC, GENERIC_KEY),
    ),
    (
        NoSession,
        NoOperation,
        Sign(WRITES, TEXT, Some(16)),
        Sign(NOWHERE, TEXT, Some(16)),
    ),
    (
        DataTaken,
        NoBuffer,
        Sign(BEGUN, TEXT, None),
        Sign(TAKEN, TEXT, None),
    ),
    (
        DataTaken,
        SmallBuffer,
        Sign(BEGUN, TEXT, Some(15)),
        Sign(TAKEN, TEXT, Some(15)),
    ),
    (
        NoSession,
        NoOperation,
        SignUpdate(WRITES, TEXT),
        SignUpdate(NOWHERE, TEXT),
    ),
    (
        NoSession,
        NoOperation,
        SignFinal(WRITES, Some(16)),
        SignFinal(NOWHERE, Some(16)),
    ),
    (
        NoOperation,
        NoBuffer,
        SignFinal(TAKEN, None),
        SignFinal(WRITES, None),
    ),
    (
        NoOperation,
        SmallBuffer,
        SignFinal(TAKEN, Some(15)),
        SignFinal(WRITES, Some(15)),
    ),
];

pub(super) const VERIFYING_CASES: &[Case] = &[
    (
        NoSession,
        NoMechanism,
        VerifyInit(BEGUN, None, KEY),
        VerifyInit(NOWHERE, None, KEY),
    ),
    (
        NoMechanism,
        OperationActive,
        VerifyInit(BEGUN, AES_CMAC, KEY),
        VerifyInit(BEGUN, None, KEY),
    ),
    (
        OperationActive,
        WrongMechanism,
        VerifyInit(WRITES, KEY_GENERATION, KEY),
        VerifyInit(BEGUN, KEY_GENERATION, KEY),
    ),
    (
        WrongMechanism,
        WrongParameter,
        VerifyInit(WRITES, CMAC_WITH_PARAMETER, KEY),
        VerifyInit(WRITES, KEY_GENERATION_WITH_PARAMETER, KEY),
    ),
    (
        WrongParameter,
        NoKey,
        VerifyInit(WRITES, AES_CMAC, MISSING),
        VerifyInit(WRITES, CMAC_WITH_PARAMETER, MISSING),
    ),
    (
        NoKey,
        WrongKeyType,
        VerifyInit(WRITES, AES_CMAC, GENERIC_KEY),
        VerifyInit(WRITES, AES_CMAC, FREE),
    ),
    (
        WrongKeyType,
        KeyNotPermitted,
        VerifyInit(WRITES, AES_CMAC, IDLE_KEY),
        VerifyInit(WRITES, AES_CMAC, GENERIC_KEY),
    ),
    (
        NoSession,
        NoOperation,
        Verify(WRITES, TEXT, TEXT),
        Verify(NOWHERE, TEXT, TEXT),
    ),
    (
        DataTaken,
        SignatureLength,
        Verify(BEGUN, TEXT, ODD_TEXT),
        Verify(TAKEN, TEXT, ODD_TEXT),
    ),
    (
        NoSession,
        NoOperation,
        VerifyUpdate(WRITES, TEXT),
        VerifyUpdate(NOWHERE, TEXT),
    ),
    (
        NoSession,
        NoOperation,
        VerifyFinal(WRITES, TEXT),
        VerifyFinal(NOWHERE, TEXT),
    ),
    (
        NoOperation,
        SignatureLength,
        VerifyFinal(TAKEN, ODD_TEXT),
        VerifyFinal(WRITES, ODD_TEXT),
    ),
];
