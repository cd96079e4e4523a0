//! Private objects: who makes and sees them, and what a logout leaves of them.

use super::given::*;
use super::stored::{bench_over, play_and_run, record_with};
use keep::Keep;
use std::test::*;
use test_scripts::given::*;
use test_scripts::{Row, Step, Told};

/// A private object of the token and one of a session, and an object of a session for all to see.
const LOGGED_OUT: &[Row] = &[
    (A, OPEN, Told::Session(1)),
    (A, LOGIN, OK),
    (
        A,
        Step::CreateObject(1, PRIVATE_TOKEN_DATA),
        Told::Object(1),
    ),
    (A, Step::CreateObject(1, PRIVATE_DATA), Told::Object(2)),
    (A, Step::CreateObject(1, SESSION_DATA), Told::Object(3)),
    (A, Step::SetAttributeValue(1, 1, NEW_LABEL), OK),
    (A, Step::SetAttributeValue(1, 2, NEW_LABEL), OK),
    (A, LOGOUT, OK),
    (A, Step::GetObjectSize(1, 1), NO_OBJECT),
    (A, Step::GetObjectSize(1, 2), NO_OBJECT),
    (A, LOGIN, OK),
    (A, Step::GetObjectSize(1, 1), NO_OBJECT),
    (A, Step::GetObjectSize(1, 2), NO_OBJECT),
    (A, Step::CreateObject(1, PRIVATE_DATA), Told::Object(4)),
    (A, Step::DestroyObject(1, 3), OK),
];

#[test]
fn a_handle_of_a_private_object_never_comes_back(rt: HostRuntime) -> Result<(), Fail> {
    play_and_run(rt.alloc(), record_with(0, 0)?, LOGGED_OUT)
}

#[test]
fn a_logout_leaves_private_objects_of_the_token_in_the_store(rt: HostRuntime) -> Result<(), Fail> {
    let mut bench = bench_over(rt.alloc(), record_with(0, 0)?)?;
    bench.play(LOGGED_OUT)?;
    let ids = bench.into_keep().ids(rt.alloc())?;
    assert_eq!(rt; ids.len(), 1);
    Ok(())
}

#[test]
fn the_user_alone_makes_private_objects(rt: HostRuntime) -> Result<(), Fail> {
    const ROWS: &[Row] = &[
        (A, OPEN, Told::Session(1)),
        (A, Step::CreateObject(1, PRIVATE_KEY), NOT_LOGGED_IN),
        (A, Step::CreateObject(1, PRIVATE_TOKEN_DATA), NOT_LOGGED_IN),
        (A, LOGIN_SO, OK),
        (A, Step::CreateObject(1, PRIVATE_KEY), NOT_LOGGED_IN),
        (A, Step::CreateObject(1, PRIVATE_TOKEN_DATA), NOT_LOGGED_IN),
        (A, LOGOUT, OK),
        (A, LOGIN, OK),
        (A, Step::CreateObject(1, PRIVATE_KEY), Told::Object(1)),
        (
            A,
            Step::CreateObject(1, PRIVATE_TOKEN_DATA),
            Told::Object(2),
        ),
        (B, OPEN, Told::Session(1)),
        (B, Step::CreateObject(1, PRIVATE_KEY), NOT_LOGGED_IN),
    ];
    play_and_run(rt.alloc(), record_with(0, 0)?, ROWS)
}

#[test]
fn a_logout_ends_operations_under_private_keys(rt: HostRuntime) -> Result<(), Fail> {
    const ROWS: &[Row] = &[
        (A, OPEN, Told::Session(1)),
        (A, LOGIN, OK),
        (A, Step::CreateObject(1, PRIVATE_KEY), Told::Object(1)),
        (A, Step::EncryptInit(1, ECB, 1), OK),
        (A, Step::Encrypt(1, TEXT, Some(16)), CIPHERTEXT),
        (A, Step::EncryptInit(1, ECB, 1), OK),
        (A, LOGOUT, OK),
        (A, Step::Encrypt(1, TEXT, Some(16)), NO_OPERATION),
        (A, Step::EncryptInit(1, ECB, 1), NO_KEY),
    ];
    play_and_run(rt.alloc(), record_with(0, 0)?, ROWS)
}
