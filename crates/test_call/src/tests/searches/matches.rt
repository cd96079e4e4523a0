//! Which objects a template finds (C_FindObjectsInit; PKCS #11 v3.1, 5.7.7), and in which order they are returned.

use super::given::*;
use ck_types::AttrType;
use std::test::*;
use test_scripts::given::*;
use test_scripts::{Given, Row, Step, Told, play_and_run};

#[test]
fn token_objects_are_found_first_and_those_of_sessions_then(rt: HostRuntime) -> Result<(), Fail> {
    const ROWS: &[Row] = &[
        (A, Step::CreateObject(1, SESSION_DATA), Told::Object(1)),
        (B, Step::CreateObject(1, TOKEN_DATA), Told::Object(1)),
        (B, Step::CreateObject(1, TOKEN_DATA), Told::Object(2)),
        (A, FINDS_ALL, OK),
        (A, TELLS, Told::Objects(&[2, 3, 1])),
        (A, ENDS, OK),
        (B, FINDS_ALL, OK),
        (B, TELLS, Told::Objects(&[1, 2])),
    ];
    play_and_run(rt.alloc(), OPENED, ROWS)
}

#[test]
fn each_is_found_by_the_order_of_its_creation(rt: HostRuntime) -> Result<(), Fail> {
    const ROWS: &[Row] = &[
        (
            B,
            Step::CreateObject(1, LABELLED_OTHERWISE),
            Told::Object(1),
        ),
        (B, Step::CreateObject(1, LABELLED), Told::Object(2)),
        (A, Step::CreateObject(1, LABELLED_HERE), Told::Object(1)),
        (A, Step::FindObjectsInit(1, BY_LABEL), OK),
        (A, TELLS, Told::Objects(&[2, 1])),
        (A, ENDS, OK),
        // The other one is the older, and has the greater handle.
        (A, FINDS_ALL, OK),
        (A, TELLS, Told::Objects(&[3, 2, 1])),
        (A, ENDS, OK),
        (A, FINDS_ALL, OK),
        (A, TELLS, Told::Objects(&[3, 2, 1])),
    ];
    play_and_run(rt.alloc(), OPENED, ROWS)
}

#[test]
fn each_entry_of_a_template_has_to_match(rt: HostRuntime) -> Result<(), Fail> {
    const BOTH: Given = &[(AttrType::Label, b"k1"), (AttrType::Token, YES)];
    const LONGER: Given = &[(AttrType::Label, b"k12")];
    const SHORTER: Given = &[(AttrType::Label, b"k")];
    const KEYS: Given = &[(AttrType::Class, SECRET_KEY)];
    const ROWS: &[Row] = &[
        (A, Step::CreateObject(1, LABELLED), Told::Object(1)),
        (A, Step::CreateObject(1, LABELLED_HERE), Told::Object(2)),
        (A, Step::FindObjectsInit(1, BOTH), OK),
        (A, TELLS, Told::Objects(&[1])),
        (A, ENDS, OK),
        (A, Step::FindObjectsInit(1, LONGER), OK),
        (A, TELLS, NONE),
        (A, ENDS, OK),
        (A, Step::FindObjectsInit(1, SHORTER), OK),
        (A, TELLS, NONE),
        (A, ENDS, OK),
        (A, Step::FindObjectsInit(1, KEYS), OK),
        (A, TELLS, NONE),
    ];
    play_and_run(rt.alloc(), OPENED, ROWS)
}

#[test]
fn an_attribute_of_an_unknown_type_matches_nothing(rt: HostRuntime) -> Result<(), Fail> {
    const ROWS: &[Row] = &[
        (A, Step::CreateObject(1, LABELLED), Told::Object(1)),
        (A, Step::FindByNumber(1, 0x9999_9999, b""), OK),
        (A, TELLS, NONE),
        (A, ENDS, OK),
        (A, Step::FindByNumber(1, LABEL, b"k1"), OK),
        (A, TELLS, Told::Objects(&[1])),
    ];
    play_and_run(rt.alloc(), OPENED, ROWS)
}

#[test]
fn a_value_that_is_kept_back_is_never_a_match(rt: HostRuntime) -> Result<(), Fail> {
    const ROWS: &[Row] = &[
        (A, Step::CreateObject(1, SENSITIVE_KEY), Told::Object(1)),
        (A, Step::CreateObject(1, UNEXTRACTABLE_KEY), Told::Object(2)),
        (A, Step::FindObjectsInit(1, BY_VALUE), OK),
        (A, TELLS, NONE),
        (A, ENDS, OK),
        (A, Step::CreateObject(1, READABLE_KEY), Told::Object(3)),
        (A, Step::FindObjectsInit(1, BY_VALUE), OK),
        (A, TELLS, Told::Objects(&[3])),
        (A, ENDS, OK),
        // It is masked from now on.
        (
            A,
            Step::SetAttributeValue(1, 3, &[(AttrType::Sensitive, YES)]),
            OK,
        ),
        (A, Step::FindObjectsInit(1, BY_VALUE), OK),
        (A, TELLS, NONE),
    ];
    play_and_run(rt.alloc(), OPENED, ROWS)
}
