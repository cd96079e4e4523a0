//! A token over a store that an older token left.

use ck_types::UserType;
use keep::Keep;
use keep_sql::SqlKeep;
use pin_record::Record;
use sqlite::{Alter, Connection, Error, MemStore, params};
use std::alloc::{AllocError, Global};
use std::process::Abort;
use std::test::*;
use test_scripts::given::*;
use test_scripts::{Row, Step, Told, play_over, record_with};

const SO: u64 = 0;

const USER: u64 = 1;

/// The record as an older token stored it: a byte 1, and no rounds.
fn old_body(alloc: Global, record: &Record) -> Result<Vec<u8>, AllocError> {
    let mut bytes = Vec::from_slice(alloc, &[1, 1])?;
    bytes.extend_from_slice(record.label().as_slice())?;
    for who in [UserType::So, UserType::User] {
        match record.verifier(who) {
            None => bytes.push(0)?,
            Some(verifier) => {
                bytes.push(1)?;
                bytes.extend_from_slice(verifier.salt())?;
                bytes.extend_from_slice(verifier.key())?;
            }
        }
        bytes.push(record.tries(who))?;
    }
    Ok(bytes)
}

fn put<S: Alter>(conn: &mut Connection<S>, body: &[u8]) -> Result<usize, Error> {
    conn.execute("UPDATE record SET body = ?1", params![body])
}

/// The store over a connection.
fn opened<S: Alter + Drop>(alloc: Global, conn: Connection<S>) -> Result<SqlKeep<S>, Fail> {
    match SqlKeep::from_connection(alloc, conn) {
        Ok(keep) => Ok(keep),
        Err((fault, _)) => Err(fault.into()),
    }
}

/// A store in memory with the record of an older token, opened.
fn older(alloc: Global) -> Result<SqlKeep<MemStore>, Fail> {
    let body = old_body(alloc, &record_with(0, 0)?)?;
    let mut conn = SqlKeep::in_memory(alloc)?.close();
    put(&mut conn, body.as_slice())?;
    opened(alloc, conn)
}

/// The rounds of the SO's PIN and of the user's.
fn rounds(record: &Record) -> [Option<u32>; 2] {
    [UserType::So, UserType::User].map(|who| record.verifier(who).map(|verifier| verifier.rounds()))
}

/// Sees that a token over the keeper goes as the rows are written, and that its record then has these rounds.
fn played<K: Keep>(alloc: Global, keep: K, rows: &[Row], wanted: [u32; 2]) -> Result<K, Fail> {
    let keep = play_over(alloc, keep, rows)?;
    if rounds(&keep.get_record()) == wanted.map(Some) {
        Ok(keep)
    } else {
        Err("other rounds".into())
    }
}

/// The old PINs are right, and keep their rounds until they are set.
#[test]
fn a_pin_of_an_older_store_gets_new_rounds_once_it_is_set(rt: HostRuntime) -> Result<(), Fail> {
    const BEFORE: &[Row] = &[
        (A, OPEN, Told::Session(1)),
        (A, Step::Login(1, SO, b"so-pin"), OK),
        (A, Step::Logout(1), OK),
        (A, Step::Login(1, USER, b"user-pin"), OK),
    ];
    const SETS: &[Row] = &[
        (A, OPEN, Told::Session(1)),
        (A, Step::Login(1, USER, b"user-pin"), OK),
        (A, Step::SetPin(1, b"user-pin", b"new-pin"), OK),
    ];
    const AFTER: &[Row] = &[
        (A, OPEN, Told::Session(1)),
        (A, Step::Login(1, USER, b"new-pin"), OK),
        (A, Step::Logout(1), OK),
        (A, Step::Login(1, SO, b"so-pin"), OK),
    ];
    let alloc = rt.alloc();
    let keep = played(alloc, older(alloc)?, BEFORE, [10_000, 10_000])?;
    let keep = played(alloc, keep, SETS, [10_000, 20_000])?;
    let keep = opened(alloc, keep.close())?;
    played(alloc, keep, AFTER, [10_000, 20_000])?;
    Ok(())
}
