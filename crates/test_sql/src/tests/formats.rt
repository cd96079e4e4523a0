//! Stores of which some bodies, or all, have format 1.

use super::given::{Change, make};
use super::old::{Bodies, bodies, bodies_in, has_old_rounds, new_bodies, old_bodies, stored};
use keep::{Keep, KeepFault};
use keep_sql::SqlKeep;
use sqlite::{Alter, Connection, MemStore};
use std::alloc::Global;
use std::process::Abort;
use std::test::Fail;

/// A store in memory with these bodies.
fn store(alloc: Global, bodies: &Bodies) -> Result<Connection<MemStore>, Fail> {
    stored(alloc, Connection::open_in_memory(alloc)?, bodies)
}

/// The keeper that the connection is opened as.
fn opened<S: Alter + Drop>(alloc: Global, conn: Connection<S>) -> Result<SqlKeep<S>, Fail> {
    match SqlKeep::from_connection(alloc, conn) {
        Ok(keep) => Ok(keep),
        Err((fault, _)) => Err(fault.into()),
    }
}

/// Whether an open leaves each body in format 2, and returns the same as it does of a store that had them so.
fn is_taken_over<S: Alter + Drop>(alloc: Global, conn: Connection<S>) -> Result<bool, Fail> {
    let keep = opened(alloc, conn)?;
    let has_rounds = has_old_rounds(&keep.get_record());
    let mut conn = keep.close();
    Ok(has_rounds && bodies_in(alloc, &mut conn)? == new_bodies(alloc)?)
}

/// How long the bodies are.
fn lengths(alloc: Global, bodies: &Bodies) -> Result<Vec<usize>, Fail> {
    let mut lengths = Vec::new(alloc);
    lengths.push(bodies.0.len())?;
    for (_, body) in bodies.1.as_slice() {
        lengths.push(body.len())?;
    }
    Ok(lengths)
}

#[test]
fn bodies_of_either_format_have_their_lengths(rt: HostRuntime) -> Result<(), Fail> {
    let old = lengths(rt.alloc(), &old_bodies(rt.alloc())?)?;
    let new = lengths(rt.alloc(), &new_bodies(rt.alloc())?)?;
    assert!(rt;
        old.as_slice() == [134, 291, 129, 291].as_slice(),
        "{:?}",
        old
    );
    assert!(rt;
        new.as_slice() == [142, 309, 129, 309].as_slice(),
        "{:?}",
        new
    );
    Ok(())
}

/// Each of them in format 1 or in format 2.
#[test]
fn a_store_of_any_formats_is_taken_over(rt: HostRuntime) -> Result<(), Fail> {
    for old in 0..16u32 {
        let is_old = [old & 1 != 0, old & 2 != 0, old & 4 != 0];
        let conn = store(rt.alloc(), &bodies(rt.alloc(), old & 8 != 0, is_old)?)?;
        assert!(rt; is_taken_over(rt.alloc(), conn)?, "{old}");
    }
    Ok(())
}

/// The record of a new store has 38 bytes in either format.
#[test]
fn a_new_store_of_format_1_is_taken_over(rt: HostRuntime) -> Result<(), Fail> {
    let mut body = [0; 38];
    body[2..34].copy_from_slice(&[b' '; 32]);
    body[0] = 1;
    let old = (Vec::from_slice(rt.alloc(), &body)?, Vec::new(rt.alloc()));
    body[0] = 2;
    let new = (Vec::from_slice(rt.alloc(), &body)?, Vec::new(rt.alloc()));
    let mut conn = opened(rt.alloc(), store(rt.alloc(), &old)?)?.close();
    assert!(rt; bodies_in(rt.alloc(), &mut conn)? == new);
    Ok(())
}

/// The ids go on after the last that was given.
#[test]
fn a_store_that_was_taken_over_goes_on(rt: HostRuntime) -> Result<(), Fail> {
    let mut keep = opened(rt.alloc(), store(rt.alloc(), &old_bodies(rt.alloc())?)?)?;
    goes_on(&rt, rt.alloc(), &mut keep)
}

fn goes_on<K: Keep>(rt: &impl Abort, alloc: Global, keep: &mut K) -> Result<(), Fail> {
    assert!(rt; has_ids(alloc, keep, &[1, 3, 4])?);
    make(alloc, keep, Change::Insert(7))?;
    make(alloc, keep, Change::Replace(3, 8))?;
    make(alloc, keep, Change::Remove(1))?;
    assert!(rt; has_ids(alloc, keep, &[3, 4, 6])?);
    assert_eq!(rt; keep.failures(), 0);
    Ok(())
}

fn has_ids<K: Keep>(alloc: Global, keep: &mut K, ids: &[u64]) -> Result<bool, Fail> {
    Ok(keep.ids(alloc)?.as_slice() == ids)
}

/// All but the last byte.
fn cut(alloc: Global, body: &[u8]) -> Result<Vec<u8>, Fail> {
    let len = body.len().saturating_sub(1);
    Ok(Vec::from_slice(alloc, body.get(..len).unwrap_or(&[]))?)
}

/// Whether a store with these bodies is damaged, and keeps each of them.
fn is_left(alloc: Global, bodies: &Bodies) -> Result<bool, Fail> {
    match SqlKeep::from_connection(alloc, store(alloc, bodies)?) {
        Ok(_) => Ok(false),
        Err((fault, mut conn)) => {
            Ok(fault == KeepFault::Damaged && bodies_in(alloc, &mut conn)? == *bodies)
        }
    }
}

/// The body with another first byte.
fn marked(mut body: Vec<u8>) -> Vec<u8> {
    if let Some(first) = body.first_mut() {
        *first = 3;
    }
    body
}

/// The objects, of which the one at an index is a byte short, or has another first byte.
fn spoilt(
    alloc: Global,
    objects: Vec<(i64, Vec<u8>)>,
    place: usize,
    is_cut: bool,
) -> Result<Vec<(i64, Vec<u8>)>, Fail> {
    let mut spoilt = Vec::new(alloc);
    for (at, (id, body)) in objects.into_iter().enumerate() {
        let body = if at != place {
            body
        } else if is_cut {
            cut(alloc, body.as_slice())?
        } else {
            marked(body)
        };
        spoilt.push((id, body))?;
    }
    Ok(spoilt)
}

/// One body in neither format, a byte short or with another first byte.
#[test]
fn a_damaged_store_is_left_as_it_is(rt: HostRuntime) -> Result<(), Fail> {
    let alloc = rt.alloc();
    for at in 0..3 {
        for is_cut in [true, false] {
            let (record, objects) = old_bodies(alloc)?;
            let bodies = (record, spoilt(alloc, objects, at, is_cut)?);
            assert!(rt; is_left(alloc, &bodies)?, "{at}, {is_cut}");
        }
    }
    let (record, objects) = old_bodies(alloc)?;
    assert!(rt; is_left(alloc, &(cut(alloc, record.as_slice())?, objects))?);
    let (record, objects) = old_bodies(alloc)?;
    assert!(rt; is_left(alloc, &(marked(record), objects))?);
    Ok(())
}
