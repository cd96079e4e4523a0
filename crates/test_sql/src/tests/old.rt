//! A store as an older token left it: a record with both PINs, a data object and two keys, in format 1.

use super::given::data_object;
use attrs::{AttributeRow, Form, Object, attributes};
use ck_types::{AttrType, Bytes, Entry, Items, ObjectClass};
use keep_sql::SqlKeep;
use pin_record::Record;
use sqlite::{Alter, Connection, Error, params};
use std::alloc::{AllocError, Global};
use std::test::Fail;

const LABEL: &[u8; 32] = b"a label of thirty-two characters";

/// The bodies of a store: that of the record, and those of the objects, by rising ids.
pub(super) type Bodies = (Vec<u8>, Vec<(i64, Vec<u8>)>);

fn key_value(row: &AttributeRow) -> &'static [u8] {
    match (row.attribute, row.form) {
        (AttrType::Class, _) => &[0, 0, 0, 0, 0, 0, 0, 4],
        (AttrType::KeyType, _) => &[0, 0, 0, 0, 0, 0, 0, 0x1f],
        (AttrType::Value, _) => b"sixteen bytes it",
        (AttrType::ValueLen, _) => &[0, 0, 0, 0, 0, 0, 0, 16],
        (AttrType::UniqueId, _) => b"0123456789abcdef0123456789abcdef",
        (AttrType::Token | AttrType::Sensitive, _) => &[1],
        (_, Form::Truth) => &[0],
        (_, Form::Number) => &[0; 8],
        (_, Form::Bytes) => &[],
    }
}

/// An AES key of 16 bytes, a token object with neither a label nor an id.
fn aes_key(alloc: Global) -> Result<Object, Fail> {
    let mut entries = Items::new(alloc);
    for row in attributes() {
        if row.is_held_by(ObjectClass::SecretKey) {
            let value = Bytes::from_slice(alloc, key_value(row))?;
            let number = row.attribute.number();
            entries.push(Entry {
                attr_type: number,
                value,
            })?;
        }
    }
    Ok(Object::from_entries(alloc, entries)?.ok_or("an object")?)
}

fn is_new(number: u64) -> bool {
    number == AttrType::Trusted.number() || number == AttrType::WrapWithTrusted.number()
}

/// What an older token stored of the object.
fn old_object(alloc: Global, object: &Object) -> Result<Vec<u8>, Fail> {
    let mut count: u8 = 0;
    let mut rest = Vec::new(alloc);
    for entry in object.entries() {
        if !is_new(entry.attr_type) {
            let number = u32::try_from(entry.attr_type)?;
            let len = u32::try_from(entry.value.len())?;
            rest.extend_from_slice(&number.to_be_bytes())?;
            rest.extend_from_slice(&len.to_be_bytes())?;
            rest.extend_from_slice(entry.value.as_slice())?;
            count = count.saturating_add(1);
        }
    }
    let mut bytes = Vec::from_slice(alloc, &[1, 0, count])?;
    bytes.extend_from_slice(rest.as_slice())?;
    Ok(bytes)
}

/// The stored form of a record with both PINs, in which the SO's has been wrong once and the user's three times.
fn record_body(alloc: Global, is_old: bool) -> Result<Vec<u8>, AllocError> {
    let mut bytes = Vec::from_slice(alloc, &[if is_old { 1 } else { 2 }, 1])?;
    bytes.extend_from_slice(LABEL)?;
    for (salt, key, tries) in [([0xa5; 16], [0x5a; 32], 1), ([0xb6; 16], [0x6b; 32], 3)] {
        bytes.push(1)?;
        bytes.extend_from_slice(&salt)?;
        if !is_old {
            bytes.extend_from_slice(&10_000u32.to_be_bytes())?;
        }
        bytes.extend_from_slice(&key)?;
        bytes.push(tries)?;
    }
    Ok(bytes)
}

fn object_body(alloc: Global, object: &Object, is_old: bool) -> Result<Vec<u8>, Fail> {
    if is_old {
        old_object(alloc, object)
    } else {
        Ok(attrs::encode(alloc, object)?)
    }
}

/// The bodies of the store, the record's and each object's in format 1 or in format 2. An object between
/// was removed, and so was the last.
pub(super) fn bodies(alloc: Global, old_record: bool, old: [bool; 3]) -> Result<Bodies, Fail> {
    let mut objects = Vec::new(alloc);
    push_key(alloc, &mut objects, 1, old[0])?;
    push_data(alloc, &mut objects, 3, old[1])?;
    push_key(alloc, &mut objects, 4, old[2])?;
    Ok((record_body(alloc, old_record)?, objects))
}

fn push_key(
    alloc: Global,
    objects: &mut Vec<(i64, Vec<u8>)>,
    id: i64,
    is_old: bool,
) -> Result<(), Fail> {
    let key = aes_key(alloc)?;
    objects.push((id, object_body(alloc, &key, is_old)?))?;
    Ok(())
}

fn push_data(
    alloc: Global,
    objects: &mut Vec<(i64, Vec<u8>)>,
    id: i64,
    is_old: bool,
) -> Result<(), Fail> {
    let data = data_object(alloc, true, 9)?;
    objects.push((id, object_body(alloc, &data, is_old)?))?;
    Ok(())
}

/// The same, each in format 1, and each in format 2.
pub(super) fn old_bodies(alloc: Global) -> Result<Bodies, Fail> {
    bodies(alloc, true, [true; 3])
}

pub(super) fn new_bodies(alloc: Global) -> Result<Bodies, Fail> {
    bodies(alloc, false, [false; 3])
}

/// Puts the bodies in the place of those of a new store, and gives the id 5 to an object that is removed again.
fn put<S: Alter>(conn: &mut Connection<S>, bodies: &Bodies) -> Result<(), Error> {
    conn.execute("UPDATE record SET body = ?1", params![bodies.0.as_slice()])?;
    for (id, body) in bodies.1.as_slice() {
        conn.execute(
            "INSERT INTO objects VALUES (?1, ?2)",
            params![*id, body.as_slice()],
        )?;
    }
    conn.execute("INSERT INTO objects VALUES (5, x'00')", &[])?;
    conn.execute("DELETE FROM objects WHERE id = 5", &[])?;
    Ok(())
}

/// A connection to a store with these bodies, over one to nothing.
pub(super) fn stored<S: Alter + Drop>(
    alloc: Global,
    conn: Connection<S>,
    bodies: &Bodies,
) -> Result<Connection<S>, Fail> {
    match SqlKeep::from_connection(alloc, conn) {
        Ok(keep) => {
            let mut conn = keep.close();
            put(&mut conn, bodies)?;
            Ok(conn)
        }
        Err((fault, _)) => Err(fault.into()),
    }
}

/// The bodies that a store has.
pub(super) fn bodies_in<S: Alter>(alloc: Global, conn: &mut Connection<S>) -> Result<Bodies, Fail> {
    let record = conn.query_row("SELECT body FROM record", &[])?.get(0)?;
    let mut objects = Vec::new(alloc);
    for row in &conn.query_all("SELECT id, body FROM objects ORDER BY id", &[])? {
        objects.push((row.get(0)?, row.get(1)?))?;
    }
    Ok((record, objects))
}

/// The rounds of both PINs.
pub(super) fn has_old_rounds(record: &Record) -> bool {
    use ck_types::UserType::{So, User};
    let rounds = |who| record.verifier(who).map(|verifier| verifier.rounds());
    rounds(So) == Some(10_000) && rounds(User) == Some(10_000)
}
