//! The faults, two at a time, that calls are given which wrap and unwrap.

use super::given::*;
use precede::Condition::{
    KeyLength, KeyNotPermitted, KeyNotWrappable, KeyUnextractable, NoBuffer, NoKey, NoSession,
    NoUnwrappingKey, NoWrappingKey, ObjectLimit, PrivateObject, SmallBuffer, TemplateRefused,
    TokenObjectReadOnly, WrappedLength, WrappedLengthOfType, WrongMechanism, WrongParameter,
    WrongUnwrappingKeyType, WrongWrappingKeyType,
};
use test_scripts::Step::{UnwrapKey, WrapKey};
use test_scripts::given::*;

/// Neighbours of their tables after the first two rows, and rows between which one can't hold.
pub(super) const WRAPPING_CASES: &[Case] = &[
    (
        NoSession,
        WrongMechanism,
        WrapKey(WRITES, CIPHER, WRAPS, OPEN_KEY, None),
        WrapKey(NOWHERE, CIPHER, WRAPS, OPEN_KEY, None),
    ),
    (
        WrongMechanism,
        WrongParameter,
        WrapKey(WRITES, KEY_WRAP_WITH_PARAMETER, WRAPS, OPEN_KEY, None),
        WrapKey(WRITES, CIPHER_WITH_PARAMETER, WRAPS, OPEN_KEY, None),
    ),
    (
        WrongParameter,
        NoWrappingKey,
        WrapKey(WRITES, AES_KEY_WRAP, MISSING, OPEN_KEY, None),
        WrapKey(WRITES, KEY_WRAP_WITH_PARAMETER, MISSING, OPEN_KEY, None),
    ),
    (
        NoWrappingKey,
        NoKey,
        WrapKey(WRITES, AES_KEY_WRAP, WRAPS, MISSING, None),
        WrapKey(WRITES, AES_KEY_WRAP, MISSING, MISSING, None),
    ),
    (
        NoKey,
        WrongWrappingKeyType,
        WrapKey(WRITES, AES_KEY_WRAP, GENERIC_KEY, OPEN_KEY, None),
        WrapKey(WRITES, AES_KEY_WRAP, GENERIC_KEY, MISSING, None),
    ),
    (
        WrongWrappingKeyType,
        KeyNotPermitted,
        WrapKey(WRITES, AES_KEY_WRAP, IDLE_KEY, OPEN_KEY, None),
        WrapKey(WRITES, AES_KEY_WRAP, GENERIC_KEY, OPEN_KEY, None),
    ),
    (
        KeyNotPermitted,
        KeyUnextractable,
        WrapKey(WRITES, AES_KEY_WRAP, WRAPS, IDLE_KEY, None),
        WrapKey(WRITES, AES_KEY_WRAP, IDLE_KEY, IDLE_KEY, None),
    ),
    (
        KeyUnextractable,
        KeyNotWrappable,
        WrapKey(WRITES, AES_KEY_WRAP, WRAPS, KEY_FOR_TRUSTED, None),
        WrapKey(WRITES, AES_KEY_WRAP, WRAPS, CLOSED_KEY_FOR_TRUSTED, None),
    ),
    (
        KeyNotWrappable,
        KeyLength,
        WrapKey(WRITES, AES_KEY_WRAP, WRAPS, SHORT_KEY, None),
        WrapKey(WRITES, AES_KEY_WRAP, WRAPS, SHORT_KEY_FOR_TRUSTED, None),
    ),
    (
        KeyLength,
        NoBuffer,
        WrapKey(WRITES, AES_KEY_WRAP, WRAPS, OPEN_KEY, None),
        WrapKey(WRITES, AES_KEY_WRAP, WRAPS, SHORT_KEY, None),
    ),
    (
        KeyLength,
        SmallBuffer,
        WrapKey(WRITES, AES_KEY_WRAP, WRAPS, OPEN_KEY, Some(23)),
        WrapKey(WRITES, AES_KEY_WRAP, WRAPS, SHORT_KEY, Some(1)),
    ),
];

pub(super) const UNWRAPPING_CASES: &[Case] = &[
    (
        NoSession,
        WrongMechanism,
        UnwrapKey(WRITES, CIPHER, WRAPS, WRAPPED, UNWRAPPED),
        UnwrapKey(NOWHERE, CIPHER, WRAPS, WRAPPED, UNWRAPPED),
    ),
    (
        WrongMechanism,
        WrongParameter,
        UnwrapKey(WRITES, KEY_WRAP_WITH_PARAMETER, WRAPS, WRAPPED, UNWRAPPED),
        UnwrapKey(WRITES, CIPHER_WITH_PARAMETER, WRAPS, WRAPPED, UNWRAPPED),
    ),
    (
        WrongParameter,
        NoUnwrappingKey,
        UnwrapKey(WRITES, AES_KEY_WRAP, MISSING, WRAPPED, UNWRAPPED),
        UnwrapKey(WRITES, KEY_WRAP_WITH_PARAMETER, MISSING, WRAPPED, UNWRAPPED),
    ),
    (
        NoUnwrappingKey,
        WrongUnwrappingKeyType,
        UnwrapKey(WRITES, AES_KEY_WRAP, GENERIC_KEY, WRAPPED, UNWRAPPED),
        UnwrapKey(WRITES, AES_KEY_WRAP, FREE, WRAPPED, UNWRAPPED),
    ),
    (
        WrongUnwrappingKeyType,
        KeyNotPermitted,
        UnwrapKey(WRITES, AES_KEY_WRAP, IDLE_KEY, WRAPPED, UNWRAPPED),
        UnwrapKey(WRITES, AES_KEY_WRAP, GENERIC_KEY, WRAPPED, UNWRAPPED),
    ),
    (
        KeyNotPermitted,
        WrappedLength,
        UnwrapKey(WRITES, AES_KEY_WRAP, WRAPS, ODD_TEXT, UNWRAPPED),
        UnwrapKey(WRITES, AES_KEY_WRAP, IDLE_KEY, ODD_TEXT, UNWRAPPED),
    ),
    (
        WrappedLength,
        TemplateRefused,
        UnwrapKey(
            WRITES,
            AES_KEY_WRAP,
            WRAPS,
            WRAPPED,
            REFUSED_UNWRAPPED_ON_TOKEN,
        ),
        UnwrapKey(
            WRITES,
            AES_KEY_WRAP,
            WRAPS,
            ODD_TEXT,
            REFUSED_UNWRAPPED_ON_TOKEN,
        ),
    ),
    (
        TemplateRefused,
        WrappedLengthOfType,
        UnwrapKey(
            WRITES,
            AES_KEY_WRAP,
            WRAPS,
            LONG_WRAPPED,
            UNWRAPPED_ON_TOKEN,
        ),
        UnwrapKey(
            WRITES,
            AES_KEY_WRAP,
            WRAPS,
            LONG_WRAPPED,
            REFUSED_UNWRAPPED_ON_TOKEN,
        ),
    ),
    (
        WrappedLengthOfType,
        TokenObjectReadOnly,
        UnwrapKey(READS, AES_KEY_WRAP, WRAPS, WRAPPED, UNWRAPPED_ON_TOKEN),
        UnwrapKey(READS, AES_KEY_WRAP, WRAPS, LONG_WRAPPED, UNWRAPPED_ON_TOKEN),
    ),
    (
        TokenObjectReadOnly,
        PrivateObject,
        UnwrapKey(
            WRITES,
            AES_KEY_WRAP,
            WRAPS,
            WRAPPED,
            PRIVATE_UNWRAPPED_ON_TOKEN,
        ),
        UnwrapKey(
            READS,
            AES_KEY_WRAP,
            WRAPS,
            WRAPPED,
            PRIVATE_UNWRAPPED_ON_TOKEN,
        ),
    ),
    (
        PrivateObject,
        ObjectLimit,
        UnwrapKey(WRITES, AES_KEY_WRAP, WRAPS, WRAPPED, UNWRAPPED),
        UnwrapKey(WRITES, AES_KEY_WRAP, WRAPS, WRAPPED, PRIVATE_UNWRAPPED),
    ),
];
