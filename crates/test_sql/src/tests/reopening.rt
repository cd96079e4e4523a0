//! What a store keeps, also over a reopening.

use super::given::{Change, are_same, initialized, make, seen};
use Change::{Insert, Remove, Replace, Reset, SetRecord};
use keep::{Keep, KeepFault, ListKeep};
use keep_sql::SqlKeep;
use pin_record::Record;
use sqlite::{Alter, Connection, MemStore};
use std::alloc::Global;
use std::process::Abort;
use std::test::Fail;

/// The store closed and opened again.
pub(super) fn reopened<S: Alter + Drop>(
    alloc: Global,
    keep: SqlKeep<S>,
) -> Result<SqlKeep<S>, KeepFault> {
    match SqlKeep::from_connection(alloc, keep.close()) {
        Ok(keep) => Ok(keep),
        Err((fault, _)) => Err(fault),
    }
}

#[test]
fn a_new_store_has_no_objects_and_no_pin(rt: HostRuntime) -> Result<(), Fail> {
    let alloc = rt.alloc();
    let mut keep = SqlKeep::in_memory(alloc)?;
    let (rows, record) = seen(alloc, &mut keep)?;
    assert!(rt; rows.is_empty());
    assert_eq!(rt; record, Record::new());
    assert_eq!(rt; keep.failures(), 0);
    Ok(())
}

/// Twenty changes. Objects are made under the ids 1 to 9.
const CHANGES: [Change; 20] = [
    SetRecord(1),
    Insert(10),
    Insert(11),
    Replace(1, 12),
    Insert(13),
    Remove(2),
    SetRecord(2),
    Replace(3, 14),
    Insert(15),
    Remove(4),
    Insert(16),
    Reset(3),
    Insert(17),
    Insert(18),
    Replace(6, 19),
    SetRecord(4),
    Insert(20),
    Remove(6),
    Insert(21),
    Replace(9, 22),
];

/// Each change, made with the store and with a keeper in memory, leaves the two the same.
#[test]
fn a_store_takes_each_change(rt: HostRuntime) -> Result<(), Fail> {
    let alloc = rt.alloc();
    let mut keep = SqlKeep::in_memory(alloc)?;
    let mut model = ListKeep::new(alloc, Record::new());
    for change in CHANGES {
        make(alloc, &mut keep, change)?;
        make(alloc, &mut model, change)?;
        assert!(rt; are_same(alloc, &mut keep, &mut model)?, "{:?}", change);
    }
    assert_eq!(rt; keep.failures(), 0);
    Ok(())
}

/// The same, where the store is closed and opened after each change.
#[test]
fn a_store_is_found_again(rt: HostRuntime) -> Result<(), Fail> {
    let alloc = rt.alloc();
    let mut keep = SqlKeep::in_memory(alloc)?;
    let mut model = ListKeep::new(alloc, Record::new());
    for change in CHANGES {
        make(alloc, &mut keep, change)?;
        make(alloc, &mut model, change)?;
        keep = reopened(alloc, keep)?;
        assert!(rt; are_same(alloc, &mut keep, &mut model)?, "{:?}", change);
    }
    Ok(())
}

/// An id that isn't there is a failure of the device, which is counted, and changes nothing.
#[test]
fn an_absent_object_is_counted(rt: HostRuntime) -> Result<(), Fail> {
    let alloc = rt.alloc();
    let mut keep = SqlKeep::in_memory(alloc)?;
    make(alloc, &mut keep, Insert(1))?;
    make(alloc, &mut keep, Insert(2))?;
    make(alloc, &mut keep, Remove(1))?;
    assert_eq!(rt; make(alloc, &mut keep, Remove(1)), Err(KeepFault::Device));
    assert_eq!(rt;
        make(alloc, &mut keep, Replace(1, 3)),
        Err(KeepFault::Device)
    );
    assert!(rt; keep.object(alloc, 1).is_err());
    assert!(rt; keep.object(alloc, 0).is_err());
    assert!(rt; keep.object(alloc, u64::MAX).is_err());
    assert_eq!(rt; keep.failures(), 5);
    let (rows, _) = seen(alloc, &mut keep)?;
    assert!(rt; rows.as_slice() == [(2, 2)].as_slice());
    Ok(())
}

/// The ids and the record are those of the store, and not those of the keeper that was closed.
#[test]
fn two_stores_are_apart(rt: HostRuntime) -> Result<(), Fail> {
    let alloc = rt.alloc();
    let mut first: SqlKeep<MemStore> = SqlKeep::in_memory(alloc)?;
    let mut second: SqlKeep<MemStore> = SqlKeep::in_memory(alloc)?;
    make(alloc, &mut first, SetRecord(7))?;
    make(alloc, &mut first, Insert(7))?;
    assert_eq!(rt; second.get_record(), Record::new());
    make(alloc, &mut second, Insert(8))?;
    assert_eq!(rt; first.get_record(), initialized(7));
    let (rows, _) = seen(alloc, &mut second)?;
    assert!(rt; rows.as_slice() == [(1, 8)].as_slice());
    Ok(())
}
