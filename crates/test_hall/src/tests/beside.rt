//! Seats beside one another, over a list.

use super::seats::hold_rows;
use keep::ListKeep;
use pin_record::Record;
use std::alloc::Global;
use std::sync::Wait;
use std::test::*;
use std::thread::Threads;
use std::time::Clock;
use test_scripts::Step::{
    CreateObject, Encrypt, EncryptInit, FindObjects, FindObjectsInit, Finish, GetObjectSize,
    GetSessionInfo, Goes,
};
use test_scripts::given::*;
use test_scripts::{Row, Script, Step, Told};

/// Applications of the seats 0 and 3, and a second one of seat 1.
const C: u64 = 4;

const D: u64 = 7;

const SECOND: u64 = 5;

const ENCRYPT: Step = Encrypt(1, TEXT, Some(16));

fn hold_over_list<R: Threads + Wait + Clock + Copy + Send + Sync + Drop + 'static>(
    rt: R,
    alloc: Global,
    script: Script<'_>,
) -> Result<(), Fail> {
    hold_rows(rt, alloc, ListKeep::new(alloc, Record::new()), script)
}

/// B's job is returned, run and answered while A's waits at the gate.
#[test]
fn a_job_waits_for_no_other(rt: HostRuntime) -> Result<(), Fail> {
    const ROWS: &[Row] = &[
        (A, OPEN, Told::Session(1)),
        (A, CreateObject(1, TOKEN_KEY), Told::Object(1)),
        (A, EncryptInit(1, ECB, 1), OK),
        (B, OPEN, Told::Session(1)),
        (B, FindObjectsInit(1, NOTHING), OK),
        (B, FindObjects(1, 9), Told::Objects(&[1])),
        (B, EncryptInit(1, ECB, 1), OK),
        (A, ENCRYPT, Told::Nothing),
        (B, ENCRYPT, Told::Nothing),
        (B, Finish, CIPHERTEXT),
        (A, Finish, CIPHERTEXT),
    ];
    hold_over_list(rt, rt.alloc(), ("a job", ROWS))
}

/// The jobs of all four seats are returned, and then run, the last first.
#[test]
fn four_jobs_are_out_at_once(rt: HostRuntime) -> Result<(), Fail> {
    const ROWS: &[Row] = &[
        (C, OPEN, Told::Session(1)),
        (C, CreateObject(1, WRAPPING_KEY), Told::Object(1)),
        (C, EncryptInit(1, ECB, 1), OK),
        (A, OPEN, Told::Session(1)),
        (A, CreateObject(1, WRAPPING_KEY), Told::Object(1)),
        (A, EncryptInit(1, ECB, 1), OK),
        (B, OPEN, Told::Session(1)),
        (B, CreateObject(1, WRAPPING_KEY), Told::Object(1)),
        (B, EncryptInit(1, ECB, 1), OK),
        (D, OPEN, Told::Session(1)),
        (D, CreateObject(1, WRAPPING_KEY), Told::Object(1)),
        (D, EncryptInit(1, ECB, 1), OK),
        (C, ENCRYPT, Told::Nothing),
        (A, ENCRYPT, Told::Nothing),
        (B, ENCRYPT, Told::Nothing),
        (D, ENCRYPT, Told::Nothing),
        (D, Finish, CIPHERTEXT),
        (B, Finish, CIPHERTEXT),
        (A, Finish, CIPHERTEXT),
        (C, Finish, CIPHERTEXT),
    ];
    hold_over_list(rt, rt.alloc(), ("four jobs", ROWS))
}

/// What an application of a seat had is not there for the seat's next one, and what it made of the token is.
#[test]
fn an_application_goes_and_its_seat_stays(rt: HostRuntime) -> Result<(), Fail> {
    const ROWS: &[Row] = &[
        (A, OPEN, Told::Session(1)),
        (A, CreateObject(1, SESSION_DATA), Told::Object(1)),
        (A, CreateObject(1, TOKEN_DATA), Told::Object(2)),
        (A, Goes, Told::Nothing),
        (SECOND, GetSessionInfo(1), NO_SESSION),
        (SECOND, OPEN, Told::Session(1)),
        (SECOND, GetObjectSize(1, 1), NO_OBJECT),
        (SECOND, FindObjectsInit(1, NOTHING), OK),
        (SECOND, FindObjects(1, 9), Told::Objects(&[1])),
        (SECOND, GetObjectSize(1, 1), Told::ObjectSize(128)),
    ];
    hold_over_list(rt, rt.alloc(), ("an application goes", ROWS))
}
