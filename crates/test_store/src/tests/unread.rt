//! Objects that can't be read.

use ck_types::{AttrType, Rv};
use keep::ListKeep;
use pin_record::Record;
use std::test::*;
use test_keepers::UnreadKeep;
use test_scripts::Step::{
    CreateObject, FindObjects, FindObjectsFinal, FindObjectsInit, GetObjectSize,
};
use test_scripts::given::*;
use test_scripts::{Given, Row, Told, cached, run_over};

/// An object that was just made and can't be read.
const UNREAD: &[Row] = &[
    (A, OPEN, Told::Session(1)),
    (A, CreateObject(1, TOKEN_KEY), Told::Object(1)),
    (A, GetObjectSize(1, 1), Told::Code(Rv::DeviceError)),
    (A, GetObjectSize(1, 1), Told::Code(Rv::DeviceError)),
    (A, CreateObject(1, TOKEN_KEY), Told::Object(2)),
];

/// The cache has nothing to remember.
#[test]
fn an_object_that_cannot_be_read_is_a_failed_device_behind_a_cache(
    rt: HostRuntime,
) -> Result<(), Fail> {
    let unread = UnreadKeep::new(ListKeep::new(rt.alloc(), Record::new()));
    run_over(rt.alloc(), cached(rt.alloc(), unread, 128)?, UNREAD)
}

#[test]
fn an_object_that_cannot_be_read_is_a_failed_device(rt: HostRuntime) -> Result<(), Fail> {
    let unread = UnreadKeep::new(ListKeep::new(rt.alloc(), Record::new()));
    run_over(rt.alloc(), unread, UNREAD)
}

const SENSITIVE: Given = &[(AttrType::Sensitive, YES), (AttrType::Class, SECRET_KEY)];

const TRUSTED: Given = &[(AttrType::KeyType, AES), (AttrType::Trusted, YES)];

const OF_THAT_VALUE: Given = &[(AttrType::Class, SECRET_KEY), (AttrType::Value, KEY_BYTES)];

/// Searches for truth values, classes and key types, or for anything, read no object. One for another value does.
const SEARCHED: &[Row] = &[
    (A, OPEN, Told::Session(1)),
    (A, CreateObject(1, TOKEN_KEY), Told::Object(1)),
    (A, CreateObject(1, TOKEN_KEY), Told::Object(2)),
    (A, FindObjectsInit(1, NOTHING), OK),
    (A, FindObjects(1, 9), Told::Objects(&[1, 2])),
    (A, FindObjectsFinal(1), OK),
    (A, FindObjectsInit(1, SENSITIVE), OK),
    (A, FindObjects(1, 9), Told::Objects(&[1, 2])),
    (A, FindObjectsFinal(1), OK),
    (A, FindObjectsInit(1, TRUSTED), OK),
    (A, FindObjects(1, 9), Told::Objects(&[])),
    (A, FindObjectsFinal(1), OK),
    (
        A,
        FindObjectsInit(1, OF_THAT_VALUE),
        Told::Code(Rv::DeviceError),
    ),
];

#[test]
fn a_search_that_marks_decide_reads_no_object(rt: HostRuntime) -> Result<(), Fail> {
    let unread = UnreadKeep::new(ListKeep::new(rt.alloc(), Record::new()));
    run_over(rt.alloc(), unread, SEARCHED)
}
