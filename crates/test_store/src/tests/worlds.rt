//! Two tokens with equal public objects, which differ in what an application can't see: the value of a sensitive key of the
//! token, and the sessions, private objects and object numbers of another application.

use super::keepers::{Comparison, compare_over_each};
use ck_calls::Reply;
use ck_types::AttrType;
use keep::Keep;
use std::alloc::Global;
use std::test::*;
use test_scripts::Step::{
    CreateObject, DestroyObject, Encrypt, EncryptInit, FindObjects, FindObjectsFinal,
    FindObjectsInit, Finish, GetAttributeValue, GetObjectSize, GetSessionInfo, Login, Sign,
    SignInit, WrapKey,
};
use test_scripts::given::*;
use test_scripts::{BenchOver, Given, Row, Step, Told, record_with};

/// Sensitive and unextractable keys of the token that wrap, which differ in their values.
const ONE_KEY: Given = &[
    (AttrType::Class, SECRET_KEY),
    (AttrType::KeyType, AES),
    (AttrType::Value, KEY_BYTES),
    (AttrType::Private, NO),
    (AttrType::Token, YES),
    (AttrType::Wrap, YES),
];

const OTHER_KEY: Given = &[
    (AttrType::Class, SECRET_KEY),
    (AttrType::KeyType, AES),
    (AttrType::Value, TEXT),
    (AttrType::Private, NO),
    (AttrType::Token, YES),
    (AttrType::Wrap, YES),
];

const PRIVATE_TOKEN_DATA: Given = &[
    (AttrType::Class, DATA),
    (AttrType::Token, YES),
    (AttrType::Private, YES),
];

const ONE: &[Row] = &[
    (A, OPEN, Told::Session(1)),
    (A, CreateObject(1, ONE_KEY), Told::Object(1)),
];

/// B has sessions and private objects, and has made and destroyed one of the token before A's key is made.
const OTHER: &[Row] = &[
    (B, OPEN, Told::Session(1)),
    (B, OPEN, Told::Session(2)),
    (B, Login(1, 1, b"user-pin"), OK),
    (B, CreateObject(1, TOKEN_KEY), Told::Object(1)),
    (B, DestroyObject(1, 1), OK),
    (B, CreateObject(1, PRIVATE_TOKEN_DATA), Told::Object(2)),
    (B, CreateObject(2, PRIVATE_DATA), Told::Object(3)),
    (B, CreateObject(2, SESSION_DATA), Told::Object(4)),
    (A, OPEN, Told::Session(1)),
    (A, CreateObject(1, OTHER_KEY), Told::Object(1)),
];

/// The calls of A that are compared, none of which returns a job.
const CALLS: &[Step] = &[
    GetSessionInfo(1),
    GetObjectSize(1, 1),
    GetAttributeValue(
        1,
        1,
        &[
            (VALUE, Some(64)),
            (VALUE_LEN, Some(8)),
            (UNIQUE_ID, Some(32)),
            (LABEL, None),
        ],
    ),
    FindObjectsInit(1, NOTHING),
    FindObjects(1, 9),
    FindObjectsFinal(1),
    FindObjectsInit(1, &[(AttrType::Value, KEY_BYTES)]),
    FindObjects(1, 9),
    OPEN_READ_ONLY,
    EncryptInit(1, ECB, 1),
    Encrypt(1, TEXT, None),
    Encrypt(1, TEXT, Some(3)),
    SignInit(1, AES_CMAC, 1),
    Sign(1, TEXT, None),
    WrapKey(1, AES_KEY_WRAP, 1, 1, None),
    CreateObject(1, TOKEN_DATA),
    DestroyObject(1, 2),
    GetObjectSize(1, 3),
];

#[derive(Clone, Copy)]
struct Worlds;

impl Comparison for Worlds {
    fn see<K: Keep>(&self, alloc: Global, one: K, other: K) -> Result<(), Fail> {
        let mut one = BenchOver::over(alloc, one)?;
        let seen = see_beside(alloc, &mut one, other);
        drop(one);
        seen
    }
}

fn see_beside<K: Keep>(alloc: Global, one: &mut BenchOver<K>, other: K) -> Result<(), Fail> {
    let mut other = BenchOver::over(alloc, other)?;
    let seen = expect_alike(one, &mut other);
    drop(other);
    seen
}

/// Sees that A gets the same on both, though the keys differ, as a result that A asks for depends on them.
fn expect_alike<K: Keep>(one: &mut BenchOver<K>, other: &mut BenchOver<K>) -> Result<(), Fail> {
    one.play(ONE)?;
    other.play(OTHER)?;
    for (number, step) in CALLS.iter().enumerate() {
        if !tell_alike(one, other, *step)? {
            return Err(Fail::new(format_args!(
                "call {number} tells them apart, or asks a question"
            )));
        }
    }
    const ENCRYPTS: Row = (A, Encrypt(1, TEXT, Some(16)), Told::Nothing);
    one.expect("a question", ENCRYPTS)?;
    other.expect("a question", ENCRYPTS)?;
    if tell_alike(one, other, Finish)? {
        return Err("both keys have one value".into());
    }
    Ok(())
}

/// Whether both return A the same, and at once.
fn tell_alike<K: Keep>(
    one: &mut BenchOver<K>,
    other: &mut BenchOver<K>,
    step: Step,
) -> Result<bool, Fail> {
    let told = one.told(A, step)?;
    match other.told(A, step) {
        Ok(got) => Ok(are_alike(told, got)),
        Err(fault) => {
            drop(told);
            Err(fault)
        }
    }
}

fn are_alike(told: Option<Reply>, got: Option<Reply>) -> bool {
    let alike = told.is_some() && told == got;
    drop(told);
    drop(got);
    alike
}

#[test]
fn what_an_application_cannot_see_is_in_none_of_its_replies(rt: HostRuntime) -> Result<(), Fail> {
    compare_over_each(rt.alloc(), record_with(0, 0)?, &Worlds)
}
