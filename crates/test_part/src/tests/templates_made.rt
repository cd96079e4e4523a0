use attrs::{Object, encode};
use ck_types::{AttrType, Bytes, Entry, Items, MechType, Rv, SessionState, Template};
use std::alloc::{AllocError, Global};
use std::process::Abort;
use std::test::Fail;
use templates::*;

/// A type and a value.
type Given = (u64, &'static [u8]);

#[derive(Clone, Copy, Debug)]
enum Way {
    Create,
    Aes,
    Generic,
    /// A value of so many bytes.
    Unwrap(usize),
    Copy(&'static [Given]),
    Set(&'static [Given]),
}

struct Case {
    way: Way,
    state: SessionState,
    given: &'static [Given],
    code: Rv,
}

const FALSE: &[u8] = &[0];

const TRUE: &[u8] = &[1];

const CLASS: u64 = 0x0;

const TOKEN: u64 = 0x1;

const PRIVATE: u64 = 0x2;

const LABEL: u64 = 0x3;

const UNIQUE_ID: u64 = 0x4;

const APPLICATION: u64 = 0x10;

const VALUE: u64 = 0x11;

const TRUSTED: u64 = 0x86;

const KEY_TYPE: u64 = 0x100;

const ID: u64 = 0x102;

const SENSITIVE: u64 = 0x103;

const ENCRYPT: u64 = 0x104;

const VALUE_LEN: u64 = 0x161;

const EXTRACTABLE: u64 = 0x162;

const LOCAL: u64 = 0x163;

const ALWAYS_SENSITIVE: u64 = 0x165;

const KEY_GEN_MECHANISM: u64 = 0x166;

const MODIFIABLE: u64 = 0x170;

const COPYABLE: u64 = 0x171;

const WRAP_WITH_TRUSTED: u64 = 0x210;

const UNKNOWN: u64 = 0x9999_9999;

const N0: &[u8] = &[0, 0, 0, 0, 0, 0, 0, 0];

const N4: &[u8] = &[0, 0, 0, 0, 0, 0, 0, 4];

const N5: &[u8] = &[0, 0, 0, 0, 0, 0, 0, 5];

const N16: &[u8] = &[0, 0, 0, 0, 0, 0, 0, 16];

const N17: &[u8] = &[0, 0, 0, 0, 0, 0, 0, 17];

const N24: &[u8] = &[0, 0, 0, 0, 0, 0, 0, 24];

const N31: &[u8] = &[0, 0, 0, 0, 0, 0, 0, 31];

const N513: &[u8] = &[0, 0, 0, 0, 0, 0, 2, 1];

const B16: &[u8] = &[7; 16];

const B17: &[u8] = &[7; 17];

const B513: &[u8] = &[7; 513];

const B1025: &[u8] = &[7; 1025];

const DATA: &[Given] = &[(CLASS, N0)];

const AES: &[Given] = &[(CLASS, N4), (KEY_TYPE, N31), (VALUE, B16)];

const OPEN: &[Given] = &[
    (CLASS, N4),
    (KEY_TYPE, N31),
    (VALUE, B16),
    (SENSITIVE, FALSE),
    (EXTRACTABLE, TRUE),
];

const WRAPPED: &[Given] = &[
    (CLASS, N4),
    (KEY_TYPE, N31),
    (VALUE, B16),
    (WRAP_WITH_TRUSTED, TRUE),
];

const WRAPPER: &[Given] = &[(CLASS, N4), (KEY_TYPE, N31), (VALUE, B16), (TRUSTED, TRUE)];

macro_rules! case {
    ($way:expr, $state:ident, $given:expr, $code:ident) => {
        Case {
            way: $way,
            state: SessionState::$state,
            given: $given,
            code: Rv::$code,
        }
    };
}

// What each template makes, or the code that refuses it: the table, in parts by the call.

#[rattlefmt::skip]
static CREATIONS: [Case; 20] = [
    case!(Way::Create, RwUser, AES, Ok),
    case!(Way::Create, RwUser, DATA, Ok),
    case!(Way::Create, RoPublic, DATA, Ok),
    case!(Way::Create, RwUser, &[], TemplateIncomplete),
    case!(Way::Create, RwUser, &[(CLASS, N4), (KEY_TYPE, N31)], TemplateIncomplete),
    case!(Way::Create, RwUser, &[(CLASS, N4), (VALUE, B16)], TemplateIncomplete),
    case!(Way::Create, RwUser, &[(KEY_TYPE, N31), (VALUE, B16)], TemplateIncomplete),
    case!(Way::Create, RwUser, &[(SENSITIVE, TRUE)], TemplateIncomplete),
    case!(Way::Create, RwUser, &[(VALUE_LEN, N16)], TemplateInconsistent),
    case!(Way::Create, RwUser, &[(CLASS, N4), (KEY_TYPE, N31), (VALUE, B16), (VALUE_LEN, N16)], TemplateInconsistent),
    case!(Way::Create, RwUser, &[(CLASS, N4), (KEY_TYPE, N31), (VALUE, B17)], AttributeValueInvalid),
    case!(Way::Create, RwUser, &[(CLASS, N4), (KEY_TYPE, N16), (VALUE, B17)], Ok),
    case!(Way::Create, RwUser, &[(CLASS, N4), (KEY_TYPE, N16), (VALUE, &[])], AttributeValueInvalid),
    case!(Way::Create, RwUser, &[(CLASS, N4), (KEY_TYPE, N16), (VALUE, B513)], AttributeValueInvalid),
    case!(Way::Create, RwUser, &[(CLASS, N0), (VALUE, B513)], Ok),
    case!(Way::Create, RwUser, &[(CLASS, N0), (VALUE, B1025)], AttributeValueInvalid),
    case!(Way::Create, RwUser, &[(CLASS, N0), (LABEL, B1025)], AttributeValueInvalid),
    case!(Way::Create, RwUser, &[(CLASS, N5)], AttributeValueInvalid),
    case!(Way::Create, RwUser, &[(CLASS, &[0])], AttributeValueInvalid),
    case!(Way::Create, RwUser, &[(CLASS, N4), (KEY_TYPE, N17), (VALUE, B16)], AttributeValueInvalid),
];

#[rattlefmt::skip]
static MORE_CREATIONS: [Case; 19] = [
    case!(Way::Create, RwUser, &[(CLASS, N0), (TOKEN, &[2])], AttributeValueInvalid),
    case!(Way::Create, RwUser, &[(CLASS, N0), (TOKEN, &[])], AttributeValueInvalid),
    case!(Way::Create, RwUser, &[(CLASS, N0), (KEY_TYPE, N31)], TemplateInconsistent),
    case!(Way::Create, RwUser, &[(CLASS, N4), (KEY_TYPE, N31), (VALUE, B16), (APPLICATION, b"a")], TemplateInconsistent),
    case!(Way::Create, RwUser, &[(CLASS, N0), (LABEL, b"a"), (LABEL, b"b")], TemplateInconsistent),
    case!(Way::Create, RwUser, &[(CLASS, N0), (LABEL, b"a"), (LABEL, b"a")], Ok),
    case!(Way::Create, RwUser, &[(CLASS, N0), (LOCAL, FALSE)], AttributeReadOnly),
    case!(Way::Create, RwUser, &[(CLASS, N0), (UNIQUE_ID, b"0")], AttributeReadOnly),
    case!(Way::Create, RwUser, &[(CLASS, N0), (KEY_GEN_MECHANISM, N0)], AttributeReadOnly),
    case!(Way::Create, RwUser, &[(CLASS, N0), (TRUSTED, TRUE)], AttributeReadOnly),
    case!(Way::Create, RwUser, &[(CLASS, N0), (TRUSTED, FALSE)], TemplateInconsistent),
    case!(Way::Create, RwSo, &[(CLASS, N0), (TRUSTED, TRUE)], TemplateInconsistent),
    case!(Way::Create, RwUser, WRAPPER, AttributeReadOnly),
    case!(Way::Create, RwSo, WRAPPER, Ok),
    case!(Way::Create, RwUser, &[(UNKNOWN, &[])], AttributeTypeInvalid),
    case!(Way::Create, RwUser, &[(CLASS, N5), (UNKNOWN, &[])], AttributeTypeInvalid),
    case!(Way::Create, RwUser, &[(LOCAL, &[2]), (LABEL, b"a"), (LABEL, b"b")], AttributeValueInvalid),
    case!(Way::Create, RwUser, &[(LOCAL, TRUE), (LABEL, b"a"), (LABEL, b"b")], TemplateInconsistent),
    case!(Way::Create, RwUser, &[(LOCAL, TRUE), (VALUE_LEN, N16)], AttributeReadOnly),
];

#[rattlefmt::skip]
static GENERATIONS: [Case; 14] = [
    case!(Way::Aes, RwUser, &[(VALUE_LEN, N16)], Ok),
    case!(Way::Aes, RwUser, &[(VALUE_LEN, N16), (CLASS, N4), (KEY_TYPE, N31)], Ok),
    case!(Way::Aes, RwUser, &[(VALUE_LEN, N17)], AttributeValueInvalid),
    case!(Way::Aes, RwUser, &[], TemplateIncomplete),
    case!(Way::Aes, RwUser, &[(VALUE_LEN, N16), (VALUE, B16)], TemplateInconsistent),
    case!(Way::Aes, RwUser, &[(VALUE_LEN, N16), (APPLICATION, &[])], TemplateInconsistent),
    case!(Way::Aes, RwUser, &[(VALUE_LEN, N16), (CLASS, N0)], TemplateInconsistent),
    case!(Way::Aes, RwUser, &[(VALUE_LEN, N16), (KEY_TYPE, N16)], TemplateInconsistent),
    case!(Way::Aes, RwUser, &[(VALUE_LEN, N16), (ALWAYS_SENSITIVE, TRUE)], AttributeReadOnly),
    case!(Way::Aes, RwUser, &[(VALUE_LEN, N16), (TRUSTED, TRUE)], AttributeReadOnly),
    case!(Way::Generic, RwUser, &[(VALUE_LEN, N17)], Ok),
    case!(Way::Generic, RwUser, &[(VALUE_LEN, N0)], AttributeValueInvalid),
    case!(Way::Generic, RwUser, &[(VALUE_LEN, N513)], AttributeValueInvalid),
    case!(Way::Generic, RwUser, &[(VALUE_LEN, N16), (KEY_TYPE, N31)], TemplateInconsistent),
];

#[rattlefmt::skip]
static UNWRAPPINGS: [Case; 10] = [
    case!(Way::Unwrap(16), RwUser, &[(CLASS, N4), (KEY_TYPE, N31), (PRIVATE, FALSE)], Ok),
    case!(Way::Unwrap(16), RwUser, &[(KEY_TYPE, N31), (VALUE_LEN, N16)], Ok),
    case!(Way::Unwrap(16), RwUser, &[(KEY_TYPE, N31), (VALUE_LEN, N24)], TemplateInconsistent),
    case!(Way::Unwrap(16), RwUser, &[(CLASS, N4)], TemplateIncomplete),
    case!(Way::Unwrap(16), RwUser, &[(CLASS, N0), (KEY_TYPE, N31)], TemplateInconsistent),
    case!(Way::Unwrap(16), RwUser, &[(KEY_TYPE, N31), (VALUE, B16)], TemplateInconsistent),
    case!(Way::Unwrap(40), RwUser, &[(KEY_TYPE, N31)], WrappedKeyLenRange),
    case!(Way::Unwrap(40), RwUser, &[(KEY_TYPE, N16)], Ok),
    case!(Way::Unwrap(40), RwUser, &[(KEY_TYPE, N31), (LOCAL, FALSE)], AttributeReadOnly),
    case!(Way::Unwrap(513), RwUser, &[(KEY_TYPE, N16)], WrappedKeyLenRange),
];

#[rattlefmt::skip]
static COPIES: [Case; 15] = [
    case!(Way::Copy(AES), RwUser, &[], Ok),
    case!(Way::Copy(AES), RwUser, &[(EXTRACTABLE, TRUE)], AttributeReadOnly),
    case!(Way::Copy(AES), RwUser, &[(EXTRACTABLE, FALSE)], Ok),
    case!(Way::Copy(OPEN), RwUser, &[(EXTRACTABLE, FALSE), (SENSITIVE, TRUE)], Ok),
    case!(Way::Copy(OPEN), RwUser, &[(EXTRACTABLE, TRUE), (SENSITIVE, FALSE)], Ok),
    case!(Way::Copy(AES), RwUser, &[(SENSITIVE, FALSE)], AttributeReadOnly),
    case!(Way::Copy(AES), RwUser, &[(VALUE, B16)], AttributeReadOnly),
    case!(Way::Copy(AES), RwUser, &[(CLASS, N4)], AttributeReadOnly),
    case!(Way::Copy(AES), RwUser, &[(APPLICATION, b"a")], AttributeTypeInvalid),
    case!(Way::Copy(DATA), RwUser, &[(VALUE, b"new"), (TOKEN, TRUE)], Ok),
    case!(Way::Copy(DATA), RwUser, &[(SENSITIVE, TRUE)], AttributeTypeInvalid),
    case!(Way::Copy(AES), RwUser, &[(TRUSTED, TRUE)], AttributeReadOnly),
    case!(Way::Copy(WRAPPER), RwUser, &[(TRUSTED, TRUE)], Ok),
    case!(Way::Copy(WRAPPED), RwUser, &[(WRAP_WITH_TRUSTED, FALSE)], AttributeReadOnly),
    case!(Way::Copy(AES), RwUser, &[(COPYABLE, FALSE), (MODIFIABLE, FALSE)], Ok),
];

#[rattlefmt::skip]
static CHANGES: [Case; 18] = [
    case!(Way::Set(AES), RwUser, &[(LABEL, b"new"), (ID, b"1"), (ENCRYPT, FALSE)], Ok),
    case!(Way::Set(AES), RwUser, &[(SENSITIVE, FALSE)], AttributeReadOnly),
    case!(Way::Set(AES), RwUser, &[(SENSITIVE, TRUE)], Ok),
    case!(Way::Set(OPEN), RwUser, &[(SENSITIVE, TRUE), (EXTRACTABLE, FALSE)], Ok),
    case!(Way::Set(AES), RwUser, &[(EXTRACTABLE, TRUE)], AttributeReadOnly),
    case!(Way::Set(AES), RwUser, &[(TOKEN, FALSE)], AttributeReadOnly),
    case!(Way::Set(AES), RwUser, &[(MODIFIABLE, TRUE)], AttributeReadOnly),
    case!(Way::Set(AES), RwUser, &[(COPYABLE, FALSE)], Ok),
    case!(Way::Set(AES), RwUser, &[(TRUSTED, TRUE)], AttributeReadOnly),
    case!(Way::Set(AES), RwSo, &[(TRUSTED, TRUE)], Ok),
    case!(Way::Set(WRAPPER), RwUser, &[(TRUSTED, FALSE)], Ok),
    case!(Way::Set(WRAPPED), RwUser, &[(WRAP_WITH_TRUSTED, FALSE)], AttributeReadOnly),
    case!(Way::Set(AES), RwUser, &[(WRAP_WITH_TRUSTED, TRUE)], Ok),
    case!(Way::Set(DATA), RwUser, &[(VALUE, b"new"), (APPLICATION, b"a")], Ok),
    case!(Way::Set(DATA), RwUser, &[(TRUSTED, FALSE)], AttributeTypeInvalid),
    case!(Way::Set(AES), RwUser, &[(VALUE, B16)], AttributeReadOnly),
    case!(Way::Set(AES), RwUser, &[(LABEL, B1025)], AttributeValueInvalid),
    case!(Way::Set(AES), RwUser, &[(UNKNOWN, b"")], AttributeTypeInvalid),
];

fn template(alloc: Global, given: &[Given]) -> Result<Template, AllocError> {
    let mut entries = Items::new(alloc);
    for (number, bytes) in given {
        let value = Bytes::from_slice(alloc, bytes)?;
        let number = *number;
        entries.push(Entry {
            attr_type: number,
            value,
        })?;
    }
    Ok(entries)
}

const RANDOM: [u8; 528] = [0xa5; 528];

const UNWRAPPED: [u8; 513] = [0x3c; 513];

fn original(alloc: Global, given: &[Given]) -> Result<Object, MakeFault> {
    let template = template(alloc, given)?;
    created(alloc, SessionState::RwSo, &template, &RANDOM)
}

fn generated_from(
    alloc: Global,
    state: SessionState,
    mechanism: MechType,
    template: &Template,
    random: &[u8],
) -> Result<Object, MakeFault> {
    if random.len() < random_len(template) {
        return Err(MakeFault::Memory);
    }
    generated(alloc, state, mechanism, template, random)
}

fn made(
    alloc: Global,
    way: Way,
    state: SessionState,
    given: &[Given],
) -> Result<Object, MakeFault> {
    let template = template(alloc, given)?;
    match way {
        Way::Create => created(alloc, state, &template, &RANDOM),
        Way::Aes => generated_from(alloc, state, MechType::AesKeyGen, &template, &RANDOM),
        Way::Generic => {
            generated_from(
                alloc,
                state,
                MechType::GenericSecretKeyGen,
                &template,
                &RANDOM,
            )
        }
        Way::Unwrap(len) => {
            let len = len.min(UNWRAPPED.len());
            unwrapped(alloc, state, &template, &UNWRAPPED[..len], &RANDOM)
        }
        Way::Copy(of) => copied(alloc, state, &original(alloc, of)?, &template, &RANDOM),
        Way::Set(of) => changed(alloc, state, &original(alloc, of)?, &template),
    }
}

fn code_of(alloc: Global, case: &Case) -> Rv {
    match made(alloc, case.way, case.state, case.given) {
        Ok(_) => Rv::Ok,
        Err(MakeFault::Refused(code)) => code,
        Err(MakeFault::Memory) => Rv::HostMemory,
    }
}

/// The code of an unwrapping that is returned before the value is known.
fn early_code_of(alloc: Global, case: &Case, len: usize) -> Result<Rv, AllocError> {
    let template = template(alloc, case.given)?;
    Ok(unwrap_fault(case.state, &template, len).unwrap_or(Rv::Ok))
}

fn expect_codes(rt: &impl Abort, alloc: Global, cases: &[Case]) -> Result<(), Fail> {
    for case in cases {
        let code = code_of(alloc, case);
        assert_eq!(rt; code, case.code, "{:?} {:?}", case.way, case.given);
        if let Way::Unwrap(len) = case.way {
            let early = early_code_of(alloc, case, len)?;
            assert_eq!(rt; early, case.code, "{:?} early", case.given);
        }
    }
    Ok(())
}

#[test]
fn each_template_is_made_or_refused_with_its_code(rt: HostRuntime) -> Result<(), Fail> {
    expect_codes(&rt, rt.alloc(), &CREATIONS)?;
    expect_codes(&rt, rt.alloc(), &MORE_CREATIONS)?;
    expect_codes(&rt, rt.alloc(), &GENERATIONS)?;
    expect_codes(&rt, rt.alloc(), &UNWRAPPINGS)?;
    expect_codes(&rt, rt.alloc(), &COPIES)?;
    expect_codes(&rt, rt.alloc(), &CHANGES)
}

/// How an object is made, and whether it is then sensitive, extractable, local, always sensitive, never extractable and
/// private.
type Defaults = (Way, &'static [Given], [bool; 6]);

#[rattlefmt::skip]
const DEFAULTS: &[Defaults] = &[
    (Way::Create, AES, [true, false, false, false, false, true]),
    (Way::Create, DATA, [false; 6]),
    (Way::Aes, &[(VALUE_LEN, N16)], [true, false, true, true, true, true]),
    (Way::Unwrap(16), &[(KEY_TYPE, N31)], [true, true, false, false, false, true]),
    (Way::Copy(OPEN), &[], [false, true, false, false, false, true]),
];

fn flags_of(object: &Object) -> [bool; 6] {
    [
        object.flag(AttrType::Sensitive),
        object.flag(AttrType::Extractable),
        object.flag(AttrType::Local),
        object.flag(AttrType::AlwaysSensitive),
        object.flag(AttrType::NeverExtractable),
        object.flag(AttrType::Private),
    ]
}

#[test]
fn an_attribute_that_is_not_given_has_its_default(rt: HostRuntime) -> Result<(), Fail> {
    for (way, given, wanted) in DEFAULTS {
        let object = made(rt.alloc(), *way, SessionState::RwUser, given)?;
        assert_eq!(rt; flags_of(&object), *wanted, "{way:?} {given:?}");
    }
    Ok(())
}

/// A key of 16 bytes that is generated from the bytes 0 to 31.
fn generated_key(alloc: Global) -> Result<Object, Fail> {
    let mut random = [0u8; 32];
    for (i, byte) in random.iter_mut().enumerate() {
        *byte = i as u8;
    }
    let given = template(alloc, &[(VALUE_LEN, N16)])?;
    let key = generated_from(
        alloc,
        SessionState::RwUser,
        MechType::AesKeyGen,
        &given,
        &random,
    )?;
    Ok(key)
}

/// The identifier of that key.
const IDENTIFIER: &[u8] = b"000102030405060708090a0b0c0d0e0f";

/// Whether the key has the last 16 of these bytes for its value, and the mechanism that made it.
fn is_generated(key: &Object) -> bool {
    let value = b"\x10\x11\x12\x13\x14\x15\x16\x17\x18\x19\x1a\x1b\x1c\x1d\x1e\x1f";
    let made_by = key.number(AttrType::KeyGenMechanism);
    key.value() == value.as_slice() && made_by == Some(0x1080) && key.flag(AttrType::Local)
}

/// Whether this is the key's identifier.
fn is_identified(key: &Object, identifier: &[u8]) -> bool {
    key.get(AttrType::UniqueId) == Some(identifier)
}

#[test]
fn a_generated_key_takes_its_value_after_the_identifier(rt: HostRuntime) -> Result<(), Fail> {
    let key = generated_key(rt.alloc())?;
    assert!(rt; is_identified(&key, IDENTIFIER));
    assert!(rt; is_generated(&key));
    Ok(())
}

#[test]
fn a_copy_has_an_identifier_of_its_own(rt: HostRuntime) -> Result<(), Fail> {
    let key = generated_key(rt.alloc())?;
    let nothing = template(rt.alloc(), &[])?;
    let copy = copied(rt.alloc(), SessionState::RwUser, &key, &nothing, &RANDOM)?;
    assert!(rt; !is_identified(&copy, IDENTIFIER));
    assert!(rt; is_generated(&copy));
    Ok(())
}

/// A wanted length, and how many random bytes are taken for it.
const LENGTHS: &[(&[u8], usize)] = &[(N16, 32), (N513, 16)];

#[test]
fn a_key_that_is_too_long_takes_no_bytes_for_its_value(rt: HostRuntime) -> Result<(), Fail> {
    for (len, taken) in LENGTHS {
        let given = template(rt.alloc(), &[(VALUE_LEN, *len)])?;
        assert_eq!(rt; random_len(&given), *taken, "{len:?}");
    }
    Ok(())
}

/// A template, and whether it unwraps a token key and a private one.
const UNWRAPPED_KEYS: &[(&[Given], (bool, bool))] = &[
    (&[(KEY_TYPE, N31)], (false, true)),
    (&[(KEY_TYPE, N31), (TOKEN, TRUE)], (true, true)),
    (&[(KEY_TYPE, N31), (PRIVATE, FALSE)], (false, false)),
];

/// What is returned of a template before there is a value.
fn told_early(alloc: Global, given: &[Given]) -> Result<(bool, bool), Fail> {
    let template = template(alloc, given)?;
    Ok((unwraps_token_key(&template), unwraps_private_key(&template)))
}

#[test]
fn an_unwrapped_key_is_known_before_its_value(rt: HostRuntime) -> Result<(), Fail> {
    for (given, wanted) in UNWRAPPED_KEYS {
        let early = told_early(rt.alloc(), given)?;
        let made = flags_made(rt.alloc(), given)?;
        assert!(rt; early == *wanted && made == *wanted, "{given:?}");
    }
    Ok(())
}

/// Whether the unwrapped key is a token object, and private.
fn flags_made(alloc: Global, given: &[Given]) -> Result<(bool, bool), MakeFault> {
    let key = made(alloc, Way::Unwrap(16), SessionState::RwUser, given)?;
    Ok((key.flag(AttrType::Token), key.flag(AttrType::Private)))
}

/// A template, and the length of the stored form of what it makes.
const SIZES: &[(&[Given], usize)] = &[
    (AES, 309),
    (DATA, 128),
    (&[(CLASS, N0), (LABEL, b"k1"), (VALUE, b"value")], 135),
];

#[test]
fn the_first_keys_and_data_objects_have_their_sizes(rt: HostRuntime) -> Result<(), Fail> {
    for (given, size) in SIZES {
        let object = made(rt.alloc(), Way::Create, SessionState::RwUser, given)?;
        let stored = encode(rt.alloc(), &object)?;
        assert_eq!(rt; stored.len(), *size, "{given:?}");
    }
    Ok(())
}

/// Whether both have the same identifier and value.
fn is_same_key(one: &Object, other: &Object) -> bool {
    one.get(AttrType::UniqueId) == other.get(AttrType::UniqueId) && one.value() == other.value()
}

#[test]
fn a_change_keeps_what_it_does_not_give(rt: HostRuntime) -> Result<(), Fail> {
    let key = original(rt.alloc(), OPEN)?;
    let given = template(rt.alloc(), &[(LABEL, b"new"), (SENSITIVE, TRUE)])?;
    let after = changed(rt.alloc(), SessionState::RwUser, &key, &given)?;
    let is_labelled = after.get(AttrType::Label) == Some(b"new".as_slice());
    assert!(rt; is_labelled && is_same_key(&key, &after));
    assert_eq!(rt; flags_of(&after), [true, true, false, false, false, true]);
    Ok(())
}
