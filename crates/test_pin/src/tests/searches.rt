//! Private objects in a search: who finds them, and under which handles.

use super::given::*;
use super::stored::{play_and_run, record_with};
use ck_types::AttrType;
use std::test::*;
use test_scripts::given::*;
use test_scripts::{Given, Row, Step, Told};

const FINDS_ALL: Step = Step::FindObjectsInit(1, NOTHING);

const TELLS: Step = Step::FindObjects(1, 16);

const ENDS: Step = Step::FindObjectsFinal(1);

#[test]
fn private_objects_are_found_by_the_user_alone(rt: HostRuntime) -> Result<(), Fail> {
    const PRIVATE: Given = &[(AttrType::Private, YES)];
    const ROWS: &[Row] = &[
        (A, OPEN, Told::Session(1)),
        (B, OPEN, Told::Session(1)),
        (A, LOGIN, OK),
        (
            A,
            Step::CreateObject(1, PRIVATE_TOKEN_DATA),
            Told::Object(1),
        ),
        (A, Step::CreateObject(1, TOKEN_DATA), Told::Object(2)),
        (A, Step::CreateObject(1, PRIVATE_DATA), Told::Object(3)),
        (A, FINDS_ALL, OK),
        (A, TELLS, Told::Objects(&[1, 2, 3])),
        (B, FINDS_ALL, OK),
        (B, TELLS, Told::Objects(&[1])),
        (B, ENDS, OK),
        (B, Step::FindObjectsInit(1, PRIVATE), OK),
        (B, TELLS, Told::Objects(&[])),
        (B, ENDS, OK),
        (B, LOGIN_SO, OK),
        (B, FINDS_ALL, OK),
        (B, TELLS, Told::Objects(&[1])),
        (B, ENDS, OK),
        (B, LOGOUT, OK),
        (B, LOGIN, OK),
        // It is older than the one that has the first handle.
        (B, FINDS_ALL, OK),
        (B, TELLS, Told::Objects(&[2, 1])),
    ];
    play_and_run(rt.alloc(), record_with(0, 0)?, ROWS)
}

#[test]
fn a_private_object_has_a_new_handle_after_a_logout(rt: HostRuntime) -> Result<(), Fail> {
    const ROWS: &[Row] = &[
        (A, OPEN, Told::Session(1)),
        (A, LOGIN, OK),
        (
            A,
            Step::CreateObject(1, PRIVATE_TOKEN_DATA),
            Told::Object(1),
        ),
        (A, LOGOUT, OK),
        (A, Step::GetAttributeValue(1, 1, &[]), NO_OBJECT),
        (A, LOGIN, OK),
        (A, Step::GetAttributeValue(1, 1, &[]), NO_OBJECT),
        (A, FINDS_ALL, OK),
        (A, TELLS, Told::Objects(&[2])),
        (A, Step::GetAttributeValue(1, 1, &[]), NO_OBJECT),
        (A, Step::SetAttributeValue(1, 2, NEW_LABEL), OK),
        (A, Step::DestroyObject(1, 2), OK),
    ];
    play_and_run(rt.alloc(), record_with(0, 0)?, ROWS)
}

#[test]
fn a_logout_ends_a_search(rt: HostRuntime) -> Result<(), Fail> {
    const ROWS: &[Row] = &[
        (A, OPEN, Told::Session(1)),
        (A, LOGIN, OK),
        (
            A,
            Step::CreateObject(1, PRIVATE_TOKEN_DATA),
            Told::Object(1),
        ),
        (A, FINDS_ALL, OK),
        (A, LOGOUT, OK),
        (A, TELLS, NO_OPERATION),
        (A, FINDS_ALL, OK),
        (A, TELLS, Told::Objects(&[])),
    ];
    play_and_run(rt.alloc(), record_with(0, 0)?, ROWS)
}
