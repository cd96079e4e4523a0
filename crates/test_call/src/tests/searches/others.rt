//! Objects that applications share, which a search finds.

use super::given::*;
use ck_types::AttrType;
use std::test::*;
use test_scripts::given::*;
use test_scripts::{Given, Row, Step, Told, play_and_run};

/// A label that is changed, and what is returned of it.
const OTHER_LABEL: Given = &[(AttrType::Label, b"k2")];

const ASKS_LABEL: Step = Step::GetAttributeValue(1, 1, &[(LABEL, Some(16))]);

#[test]
fn what_one_changes_the_other_reads(rt: HostRuntime) -> Result<(), Fail> {
    const ROWS: &[Row] = &[
        (A, Step::CreateObject(1, SESSION_DATA), Told::Object(1)),
        (A, Step::CreateObject(1, LABELLED), Told::Object(2)),
        (B, Step::FindObjectsInit(1, BY_LABEL), OK),
        (B, TELLS, Told::Objects(&[1])),
        (
            B,
            ASKS_LABEL,
            Told::AttributeValues(ck_types::Rv::Ok, &[(2, Some(b"k1"))]),
        ),
        (A, Step::SetAttributeValue(1, 2, OTHER_LABEL), OK),
        (
            B,
            ASKS_LABEL,
            Told::AttributeValues(ck_types::Rv::Ok, &[(2, Some(b"k2"))]),
        ),
        (B, ENDS, OK),
        (B, Step::FindObjectsInit(1, BY_LABEL), OK),
        (B, TELLS, NONE),
        // It may be changed back by the other.
        (B, Step::SetAttributeValue(1, 1, BY_LABEL), OK),
        (A, Step::FindObjectsInit(1, BY_LABEL), OK),
        (A, TELLS, Told::Objects(&[2])),
    ];
    play_and_run(rt.alloc(), OPENED, ROWS)
}

#[test]
fn what_one_destroys_the_other_has_no_more(rt: HostRuntime) -> Result<(), Fail> {
    const ROWS: &[Row] = &[
        (A, Step::CreateObject(1, LABELLED), Told::Object(1)),
        (B, FINDS_ALL, OK),
        (B, TELLS, Told::Objects(&[1])),
        (
            B,
            Step::GetAttributeValue(1, 1, &[]),
            Told::AttributeValues(ck_types::Rv::Ok, &[]),
        ),
        (A, Step::DestroyObject(1, 1), OK),
        (B, Step::GetAttributeValue(1, 1, &[]), NO_OBJECT),
        (B, Step::SetAttributeValue(1, 1, OTHER_LABEL), NO_OBJECT),
        (B, Step::DestroyObject(1, 1), NO_OBJECT),
        (A, Step::CreateObject(1, LABELLED), Told::Object(2)),
        (B, Step::GetAttributeValue(1, 1, &[]), NO_OBJECT),
        (B, ENDS, OK),
        (B, FINDS_ALL, OK),
        (B, TELLS, Told::Objects(&[2])),
    ];
    play_and_run(rt.alloc(), OPENED, ROWS)
}

#[test]
fn an_object_that_goes_while_a_search_is_told_is_told_still(rt: HostRuntime) -> Result<(), Fail> {
    const ROWS: &[Row] = &[
        (A, Step::CreateObject(1, TOKEN_DATA), Told::Object(1)),
        (A, Step::CreateObject(1, TOKEN_DATA), Told::Object(2)),
        (B, FINDS_ALL, OK),
        (A, Step::DestroyObject(1, 1), OK),
        (A, Step::DestroyObject(1, 2), OK),
        (B, TELLS, Told::Objects(&[1, 2])),
        (B, Step::GetObjectSize(1, 1), NO_OBJECT),
        (B, Step::GetObjectSize(1, 2), NO_OBJECT),
    ];
    play_and_run(rt.alloc(), OPENED, ROWS)
}

#[test]
fn an_operation_keeps_its_copy_of_a_key_that_another_destroys(rt: HostRuntime) -> Result<(), Fail> {
    const ROWS: &[Row] = &[
        (B, Step::CreateObject(1, TOKEN_KEY), Told::Object(1)),
        (A, FINDS_ALL, OK),
        (A, TELLS, Told::Objects(&[1])),
        (A, Step::EncryptInit(1, ECB, 1), OK),
        (B, Step::DestroyObject(1, 1), OK),
        (A, Step::Encrypt(1, TEXT, Some(16)), CIPHERTEXT),
        (A, Step::GetObjectSize(1, 1), NO_OBJECT),
        (A, Step::EncryptInit(1, ECB, 1), NO_KEY),
    ];
    play_and_run(rt.alloc(), OPENED, ROWS)
}

#[test]
fn each_application_has_handles_of_its_own(rt: HostRuntime) -> Result<(), Fail> {
    const ROWS: &[Row] = &[
        (A, Step::CreateObject(1, TOKEN_DATA), Told::Object(1)),
        (A, Step::CreateObject(1, TOKEN_DATA), Told::Object(2)),
        (A, Step::CreateObject(1, SESSION_DATA), Told::Object(3)),
        (B, FINDS_ALL, OK),
        (B, TELLS, Told::Objects(&[1, 2])),
        (B, Step::GetObjectSize(1, 3), NO_OBJECT),
        (B, Step::CreateObject(1, SESSION_DATA), Told::Object(3)),
        (B, ENDS, OK),
        (B, Step::Goes, Told::Nothing),
        // A new application has none of the handles that the old one had.
        (B, OPEN, Told::Session(1)),
        (B, Step::GetObjectSize(1, 1), NO_OBJECT),
        (B, Step::FindObjects(1, 1), NO_OPERATION),
        (B, FINDS_ALL, OK),
        (B, TELLS, Told::Objects(&[1, 2])),
    ];
    play_and_run(rt.alloc(), OPENED, ROWS)
}
