//! How what is found is returned (C_FindObjects, C_FindObjectsFinal; PKCS #11 v3.1, 5.7.8 and 5.7.9): a part at a time, and once.

use super::given::*;
use ck_calls::Reply;
use std::alloc::Global;
use std::process::Abort;
use std::test::*;
use test_scripts::given::*;
use test_scripts::{Bench, Row, Step, Told, play_and_run};

/// Five objects of the token.
const FIVE: &[Row] = &[
    (A, OPEN, Told::Session(1)),
    (A, OPEN, Told::Session(2)),
    (A, Step::CreateObject(1, TOKEN_DATA), Told::Object(1)),
    (A, Step::CreateObject(1, TOKEN_DATA), Told::Object(2)),
    (A, Step::CreateObject(1, TOKEN_DATA), Told::Object(3)),
    (A, Step::CreateObject(1, TOKEN_DATA), Told::Object(4)),
    (A, Step::CreateObject(1, TOKEN_DATA), Told::Object(5)),
];

#[test]
fn handles_are_told_a_part_at_a_time(rt: HostRuntime) -> Result<(), Fail> {
    const ROWS: &[Row] = &[
        (A, FINDS_ALL, OK),
        (A, Step::FindObjects(1, 2), Told::Objects(&[1, 2])),
        (A, Step::FindObjects(1, 0), NONE),
        (A, Step::FindObjects(1, 2), Told::Objects(&[3, 4])),
        (A, Step::FindObjects(1, 2), Told::Objects(&[5])),
        (A, Step::FindObjects(1, 2), NONE),
        (A, Step::FindObjects(1, 2), NONE),
        (A, ENDS, OK),
        (A, Step::FindObjects(1, 2), NO_OPERATION),
    ];
    play_and_run(rt.alloc(), FIVE, ROWS)
}

#[test]
fn what_is_found_is_fixed_where_the_search_begins(rt: HostRuntime) -> Result<(), Fail> {
    const ROWS: &[Row] = &[
        (A, FINDS_ALL, OK),
        (A, Step::DestroyObject(1, 2), OK),
        (A, Step::CreateObject(1, TOKEN_DATA), Told::Object(6)),
        (A, TELLS, Told::Objects(&[1, 2, 3, 4, 5])),
        (A, Step::GetObjectSize(1, 2), NO_OBJECT),
        (A, ENDS, OK),
        (A, FINDS_ALL, OK),
        (A, TELLS, Told::Objects(&[1, 3, 4, 5, 6])),
    ];
    play_and_run(rt.alloc(), FIVE, ROWS)
}

#[test]
fn a_session_has_one_search_and_another_session_its_own(rt: HostRuntime) -> Result<(), Fail> {
    const ROWS: &[Row] = &[
        (A, Step::FindObjects(1, 2), NO_OPERATION),
        (A, ENDS, NO_OPERATION),
        (A, FINDS_ALL, OK),
        (A, FINDS_ALL, OPERATION_ACTIVE),
        (A, Step::FindObjectsInit(2, BY_LABEL), OK),
        (A, Step::FindObjects(2, 9), NONE),
        (A, Step::FindObjects(1, 2), Told::Objects(&[1, 2])),
        (A, Step::FindObjectsFinal(2), OK),
        (A, Step::FindObjectsFinal(2), NO_OPERATION),
        (A, Step::FindObjects(1, 9), Told::Objects(&[3, 4, 5])),
        (A, ENDS, OK),
        (A, FINDS_ALL, OK),
        (A, Step::CloseSession(1), OK),
        (A, TELLS, NO_SESSION),
        (A, FINDS_ALL, NO_SESSION),
        (A, ENDS, NO_SESSION),
    ];
    play_and_run(rt.alloc(), FIVE, ROWS)
}

#[test]
fn a_search_and_a_cipher_stand_beside_each_other(rt: HostRuntime) -> Result<(), Fail> {
    const ROWS: &[Row] = &[
        (A, OPEN, Told::Session(1)),
        (A, Step::CreateObject(1, TOKEN_KEY), Told::Object(1)),
        (A, Step::EncryptInit(1, ECB, 1), OK),
        (A, FINDS_ALL, OK),
        (A, Step::Encrypt(1, TEXT, Some(16)), CIPHERTEXT),
        (A, TELLS, Told::Objects(&[1])),
        (A, Step::EncryptInit(1, ECB, 1), OK),
        (A, ENDS, OK),
        (A, Step::Encrypt(1, TEXT, Some(16)), CIPHERTEXT),
    ];
    play_and_run(rt.alloc(), &[], ROWS)
}

/// How many handles are returned of so many that are wanted, if the reply has some.
fn told_of(bench: &mut Bench, max_count: u64) -> Result<usize, Fail> {
    match bench.told(A, Step::FindObjects(1, max_count))? {
        Some(Reply::Objects(handles)) => Ok(handles.len()),
        _ => Err("no handles are told".into()),
    }
}

/// A bench with 1,030 objects of the token, all of which are found.
fn with_many(alloc: Global) -> Result<Bench, Fail> {
    let mut bench = Bench::new(alloc)?;
    bench.expect("a session", (A, OPEN, Told::Session(1)))?;
    bench.fill((A, Step::CreateObject(1, TOKEN_DATA)), 1, 1030)?;
    bench.expect("a search", (A, FINDS_ALL, OK))?;
    Ok(bench)
}

#[test]
fn at_most_1024_handles_are_told_at_once(rt: HostRuntime) -> Result<(), Fail> {
    let mut bench = with_many(rt.alloc())?;
    let most = told_of(&mut bench, 0xffff_ffff_ffff_ffff)?;
    assert_eq!(rt; most, 1024);
    bench.expect(
        "the rest",
        (
            A,
            Step::FindObjects(1, 2000),
            Told::Objects(&[1025, 1026, 1027, 1028, 1029, 1030]),
        ),
    )
}
