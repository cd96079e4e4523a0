//! What is no token's store.

use super::given::{Change, data_object, make, seen};
use keep::KeepFault;
use keep_sql::SqlKeep;
use sqlite::{Connection, Error, MemStore, params};
use std::alloc::Global;
use std::process::Abort;
use std::test::Fail;

// These have no clause, so that the proof of a test does not carry the state of each call.
fn run(conn: &mut Connection<MemStore>, sql: &str) -> Result<usize, Error> {
    conn.execute(sql, &[])
}

fn run_with(conn: &mut Connection<MemStore>, sql: &str, body: &[u8]) -> Result<usize, Error> {
    conn.execute(sql, params![body])
}

fn number(conn: &mut Connection<MemStore>, sql: &str) -> Result<i64, Error> {
    conn.query_row(sql, &[])?.get(0)
}

/// The stored form of an object of the token or of a session.
fn body_of(alloc: Global, is_token: bool) -> Result<Vec<u8>, Fail> {
    let object = data_object(alloc, is_token, 9)?;
    Ok(attrs::encode(alloc, &object)?)
}

/// All but the last byte.
fn cut(bytes: &[u8]) -> &[u8] {
    match bytes {
        [front @ .., _] => front,
        [] => bytes,
    }
}

/// Whether the store is opened.
fn is_opened(alloc: Global, conn: Connection<MemStore>) -> bool {
    SqlKeep::from_connection(alloc, conn).is_ok()
}

/// A store of a record and two objects, as a connection.
fn store(alloc: Global) -> Result<Connection<MemStore>, Fail> {
    let mut keep = SqlKeep::in_memory(alloc)?;
    make(alloc, &mut keep, Change::SetRecord(1))?;
    make(alloc, &mut keep, Change::Insert(1))?;
    make(alloc, &mut keep, Change::Insert(2))?;
    Ok(keep.close())
}

/// Why the store isn't opened, and the connection that comes back.
fn refusal(
    alloc: Global,
    conn: Connection<MemStore>,
) -> Result<(KeepFault, Connection<MemStore>), Fail> {
    match SqlKeep::from_connection(alloc, conn) {
        Ok(_) => Err("a refusal".into()),
        Err(refused) => Ok(refused),
    }
}

/// Whether a store that is spoilt by one statement is damaged, and keeps so many objects.
fn is_damaged_by(alloc: Global, sql: &str, objects: i64) -> Result<bool, Fail> {
    let mut conn = store(alloc)?;
    run(&mut conn, sql)?;
    let (fault, mut back) = refusal(alloc, conn)?;
    Ok(fault == KeepFault::Damaged && number(&mut back, "SELECT count(*) FROM objects")? == objects)
}

#[test]
fn what_is_not_spoilt_is_opened(rt: HostRuntime) -> Result<(), Fail> {
    let alloc = rt.alloc();
    let mut conn = store(alloc)?;
    run(&mut conn, "UPDATE objects SET body = body")?;
    let Ok(mut keep) = SqlKeep::from_connection(alloc, conn) else {
        return Err("a store".into());
    };
    let (rows, _) = seen(alloc, &mut keep)?;
    assert!(rt; rows.as_slice() == [(1, 1), (2, 2)].as_slice());
    Ok(())
}

#[test]
fn a_body_that_is_no_object_is_damage(rt: HostRuntime) -> Result<(), Fail> {
    let alloc = rt.alloc();
    assert!(rt; is_damaged_by(alloc, "UPDATE objects SET body = x'' WHERE id = 2", 2)?);
    assert!(rt; is_damaged_by(alloc, "UPDATE objects SET body = x'0102' WHERE id = 1", 2)?);
    assert!(rt;
        is_damaged_by(
            alloc,
            "INSERT INTO objects (body) SELECT body FROM record",
            3
        )?
    );
    Ok(())
}

#[test]
fn an_object_cut_by_a_byte_is_damage(rt: HostRuntime) -> Result<(), Fail> {
    let alloc = rt.alloc();
    let body = body_of(alloc, true)?;
    let mut conn = store(alloc)?;
    let replace = "UPDATE objects SET body = ?1 WHERE id = 2";
    run_with(&mut conn, replace, cut(body.as_slice()))?;
    let (fault, mut back) = refusal(alloc, conn)?;
    assert_eq!(rt; fault, KeepFault::Damaged);
    run_with(&mut back, replace, body.as_slice())?;
    assert!(rt; is_opened(alloc, back));
    Ok(())
}

#[test]
fn a_session_object_is_damage(rt: HostRuntime) -> Result<(), Fail> {
    let alloc = rt.alloc();
    let body = body_of(alloc, false)?;
    let mut conn = store(alloc)?;
    run_with(
        &mut conn,
        "INSERT INTO objects (body) VALUES (?1)",
        body.as_slice(),
    )?;
    let (fault, mut back) = refusal(alloc, conn)?;
    assert_eq!(rt; fault, KeepFault::Damaged);
    assert_eq!(rt; number(&mut back, "SELECT count(*) FROM objects")?, 3);
    Ok(())
}

#[test]
fn a_bad_record_is_damage(rt: HostRuntime) -> Result<(), Fail> {
    let alloc = rt.alloc();
    assert!(rt; is_damaged_by(alloc, "UPDATE record SET body = x'02'", 2)?);
    assert!(rt; is_damaged_by(alloc, "DELETE FROM record", 2)?);
    Ok(())
}

#[test]
fn an_id_below_one_is_damage(rt: HostRuntime) -> Result<(), Fail> {
    let alloc = rt.alloc();
    assert!(rt; is_damaged_by(alloc, "UPDATE objects SET id = 0 WHERE id = 1", 2)?);
    assert!(rt; is_damaged_by(alloc, "UPDATE objects SET id = -1 WHERE id = 2", 2)?);
    Ok(())
}

/// A connection in a transaction is refused, and comes back in it.
#[test]
fn a_transaction_is_refused(rt: HostRuntime) -> Result<(), Fail> {
    let alloc = rt.alloc();
    let mut conn = store(alloc)?;
    run(&mut conn, "BEGIN")?;
    run(&mut conn, "DELETE FROM objects WHERE id = 1")?;
    let (fault, mut back) = refusal(alloc, conn)?;
    assert_eq!(rt; fault, KeepFault::Device);
    assert_eq!(rt; number(&mut back, "SELECT count(*) FROM objects")?, 1);
    run(&mut back, "ROLLBACK")?;
    assert_eq!(rt; number(&mut back, "SELECT count(*) FROM objects")?, 2);
    Ok(())
}

/// Where one table is there, the other is taken to be there, so a store with one alone is refused.
#[test]
fn half_a_store_is_refused(rt: HostRuntime) -> Result<(), Fail> {
    let alloc = rt.alloc();
    let mut conn = store(alloc)?;
    run(&mut conn, "DROP TABLE record")?;
    let (fault, mut back) = refusal(alloc, conn)?;
    assert_eq!(rt; fault, KeepFault::Device);
    assert_eq!(rt; number(&mut back, "SELECT count(*) FROM objects")?, 2);
    Ok(())
}
