//! Applications beside one another.

use ck_calls::Reply;
use ck_types::AttrType;
use std::alloc::Global;
use std::process::Abort;
use std::test::*;
use test_scripts::given::*;
use test_scripts::{Bench, Given, Row, Step, Told, play};

#[test]
fn a_new_application_has_no_handle_for_the_objects_of_others(rt: HostRuntime) -> Result<(), Fail> {
    const ROWS: &[Row] = &[
        (A, OPEN, Told::Session(1)),
        (A, Step::CreateObject(1, TOKEN_DATA), Told::Object(1)),
        (A, Step::CreateObject(1, SESSION_DATA), Told::Object(2)),
        (B, OPEN, Told::Session(1)),
        (B, Step::DestroyObject(1, 1), NO_OBJECT),
        (B, Step::DestroyObject(1, 2), NO_OBJECT),
        (B, Step::CreateObject(1, SESSION_DATA), Told::Object(1)),
        (A, Step::DestroyObject(1, 1), OK),
    ];
    play(rt.alloc(), ROWS)
}

#[test]
fn a_done_of_another_application_changes_nothing(rt: HostRuntime) -> Result<(), Fail> {
    const ROWS: &[Row] = &[
        (A, OPEN, Told::Session(1)),
        (A, Step::CreateObject(1, TOKEN_KEY), Told::Object(1)),
        (A, Step::EncryptInit(1, ECB, 1), OK),
        (A, Step::Encrypt(1, TEXT, Some(16)), Told::Nothing),
        (A, OPEN, FAILED),
        (B, Step::FinishOf(A), FAILED),
        (A, OPEN, FAILED),
    ];
    play(rt.alloc(), ROWS)
}

#[test]
fn nothing_is_told_of_an_object_without_its_session_and_handle(
    rt: HostRuntime,
) -> Result<(), Fail> {
    const ROWS: &[Row] = &[
        (A, OPEN, Told::Session(1)),
        (A, Step::CreateObject(1, LABELLED_DATA), Told::Object(1)),
        (B, OPEN, Told::Session(1)),
        (A, Step::GetObjectSize(2, 1), NO_SESSION),
        (
            A,
            Step::GetAttributeValue(2, 1, &[(LABEL, None)]),
            NO_SESSION,
        ),
        (A, Step::GetObjectSize(1, 2), NO_OBJECT),
        (
            A,
            Step::GetAttributeValue(1, 2, &[(LABEL, None)]),
            NO_OBJECT,
        ),
        (B, Step::GetObjectSize(1, 1), NO_OBJECT),
        (
            B,
            Step::GetAttributeValue(1, 1, &[(LABEL, None)]),
            NO_OBJECT,
        ),
    ];
    play(rt.alloc(), ROWS)
}

/// A sensitive and unextractable key of the token that wraps and unwraps, and the same but for its value.
const ONE_KEY: Given = &[
    (AttrType::Class, SECRET_KEY),
    (AttrType::KeyType, AES),
    (AttrType::Value, KEY_BYTES),
    (AttrType::Private, NO),
    (AttrType::Token, YES),
    (AttrType::Wrap, YES),
    (AttrType::Unwrap, YES),
];

const OTHER_KEY: Given = &[
    (AttrType::Class, SECRET_KEY),
    (AttrType::KeyType, AES),
    (AttrType::Value, TEXT),
    (AttrType::Private, NO),
    (AttrType::Token, YES),
    (AttrType::Wrap, YES),
    (AttrType::Unwrap, YES),
];

/// What a key is unwrapped as.
const UNWRAPPED: Given = &[(AttrType::KeyType, AES), (AttrType::Private, NO)];

/// The calls of A that are compared.
const ASKED: &[Step] = &[
    Step::GetSessionInfo(1),
    Step::GetObjectSize(1, 1),
    Step::GetAttributeValue(
        1,
        1,
        &[
            (VALUE, Some(64)),
            (VALUE_LEN, Some(8)),
            (UNIQUE_ID, Some(32)),
            (LABEL, None),
        ],
    ),
    Step::FindObjectsInit(1, NOTHING),
    Step::FindObjects(1, 9),
    Step::FindObjectsFinal(1),
    Step::FindObjectsInit(1, &[(AttrType::Value, KEY_BYTES)]),
    Step::FindObjects(1, 9),
    OPEN_READ_ONLY,
    Step::EncryptInit(1, ECB, 1),
    Step::Encrypt(1, TEXT, None),
    Step::Encrypt(1, TEXT, Some(3)),
    Step::SignInit(1, AES_CMAC, 1),
    Step::Sign(1, TEXT, None),
    Step::Sign(1, TEXT, Some(3)),
    Step::VerifyInit(1, AES_CMAC, 1),
    Step::Verify(1, TEXT, b"short"),
    Step::WrapKey(1, AES_KEY_WRAP, 1, 1, None),
    Step::UnwrapKey(1, AES_KEY_WRAP, 1, b"short", UNWRAPPED),
    Step::CreateObject(1, TOKEN_DATA),
    Step::DestroyObject(1, 2),
    Step::GetObjectSize(1, 3),
];

/// A bench with a key of A.
fn with_key(alloc: Global, key: Given) -> Result<Bench, Fail> {
    let mut bench = Bench::new(alloc)?;
    open_with_key(&mut bench, key)?;
    Ok(bench)
}

fn open_with_key(bench: &mut Bench, key: Given) -> Result<(), Fail> {
    bench.expect(1, (A, OPEN, Told::Session(1)))?;
    bench.expect(2, (A, Step::CreateObject(1, key), Told::Object(1)))
}

/// A bench with such a key, after B has made token objects, so that other ids are given next, and has
/// other sessions and objects.
fn with_key_beside_others(alloc: Global, key: Given) -> Result<Bench, Fail> {
    let mut bench = Bench::new(alloc)?;
    const ROWS: &[Row] = &[
        (B, OPEN, Told::Session(1)),
        (B, OPEN_READ_ONLY, Told::Session(2)),
        (B, Step::CreateObject(1, TOKEN_KEY), Told::Object(1)),
        (B, Step::DestroyObject(1, 1), OK),
        (B, Step::CreateObject(1, SESSION_DATA), Told::Object(2)),
        (B, Step::CreateObject(2, SESSION_DATA), Told::Object(3)),
    ];
    bench.play(ROWS)?;
    open_with_key(&mut bench, key)?;
    Ok(bench)
}

/// What A gets for a text that is encrypted.
fn ciphertext(bench: &mut Bench) -> Result<Option<Reply>, Fail> {
    bench.expect(0, (A, Step::Encrypt(1, TEXT, Some(16)), Told::Nothing))?;
    bench.told(A, Step::Finish)
}

/// Sees that both return A the same for each call.
fn expect_same(rt: &impl Abort, one: &mut Bench, other: &mut Bench) -> Result<(), Fail> {
    for step in ASKED {
        let is_same = one.told(A, *step)? == other.told(A, *step)?;
        assert!(rt; is_same, "{step:?}");
    }
    Ok(())
}

/// Whether both encrypt a text alike.
fn encrypt_alike(one: &mut Bench, other: &mut Bench) -> Result<bool, Fail> {
    Ok(ciphertext(one)? == ciphertext(other)?)
}

#[test]
fn what_an_application_cannot_see_is_in_none_of_its_replies(rt: HostRuntime) -> Result<(), Fail> {
    let mut one = with_key(rt.alloc(), ONE_KEY)?;
    let mut other = with_key_beside_others(rt.alloc(), OTHER_KEY)?;
    expect_same(&rt, &mut one, &mut other)?;
    // The keys do differ, as a result that A asks for depends on them.
    let alike = encrypt_alike(&mut one, &mut other)?;
    assert!(rt; !alike);
    Ok(())
}
