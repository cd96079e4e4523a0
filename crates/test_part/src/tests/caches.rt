//! Keepers behind a cache: each is as it would be without one.

use super::keepers::{
    Rows, expect_charges, expect_failures, has_rows, insert, inserted, record_with_tries, replace,
    rows_after_steps, rows_of, use_ids,
};
use cache::Cached;
use keep::*;
use pin_record::Record;
use std::alloc::Global;
use std::num::NonZeroUsize;
use std::process::Abort;
use std::test::Fail;
use test_keepers::{FailingKeep, Failure};

/// The keeper behind a cache of so many objects.
fn cached<K: Keep>(alloc: Global, keep: K, capacity: usize) -> Result<Cached<K>, Fail> {
    let capacity = NonZeroUsize::new(capacity).ok_or("a capacity")?;
    match Cached::new(alloc, keep, capacity) {
        Ok(keep) => Ok(keep),
        Err((fault, _)) => Err(fault.into()),
    }
}

/// A new keeper in memory behind a cache of so many objects.
fn cached_list(alloc: Global, capacity: usize) -> Result<Cached<ListKeep>, Fail> {
    cached(alloc, ListKeep::new(alloc, Record::new()), capacity)
}

#[test]
fn a_keeper_behind_a_cache_is_a_plain_list_under_300_steps(rt: HostRuntime) -> Result<(), Fail> {
    for capacity in [1, 3, 128] {
        let mut keep = cached_list(rt.alloc(), capacity)?;
        let count = rows_after_steps(&rt, rt.alloc(), &mut keep)?;
        assert_eq!(rt; (count, keep.failures()), (50, 0), "of {capacity}");
    }
    Ok(())
}

#[test]
fn a_keeper_behind_a_cache_is_a_keeper(rt: HostRuntime) -> Result<(), Fail> {
    let mut ids = cached_list(rt.alloc(), 2)?;
    use_ids(&rt, rt.alloc(), &mut ids)?;
    let mut absent = cached_list(rt.alloc(), 2)?;
    insert(rt.alloc(), &mut absent, 1)?;
    expect_failures(&rt, rt.alloc(), &mut absent)?;
    let record = record_with_tries(rt.alloc(), 8)?;
    let mut charged = cached(rt.alloc(), ListKeep::new(rt.alloc(), record), 2)?;
    insert(rt.alloc(), &mut charged, 7)?;
    expect_charges(&rt, rt.alloc(), &mut charged)
}

/// Inserts objects under the ids up to `last`. The value of each is its id.
fn insert_up_to<K: Keep>(alloc: Global, keep: &mut K, last: u8) -> Result<Rows, Fail> {
    let mut rows = Vec::new(alloc);
    for value in 1..=last {
        rows.push((insert(alloc, keep, value)?, value))?;
    }
    Ok(rows)
}

/// Sees that the keeper has just these, as often as it is read.
fn expect_twice<K: Keep>(
    rt: &impl Abort,
    alloc: Global,
    keep: &mut K,
    rows: &[(u64, u8)],
) -> Result<(), Fail> {
    for time in 0..2 {
        let got = rows_of(alloc, keep)?;
        assert!(rt; got.as_slice() == rows, "time {time}: {got:?}");
    }
    Ok(())
}

/// Replaces each object, by a value more.
fn replace_all<K: Keep>(alloc: Global, keep: &mut K, rows: &mut Rows) -> Result<(), Fail> {
    for row in rows.iter_mut() {
        row.1 = row.1.wrapping_add(1);
        replace(alloc, keep, row.0, row.1)??;
    }
    Ok(())
}

/// Removes each object with an even id.
fn remove_even<K: Keep>(keep: &mut K, rows: &mut Rows) -> Result<(), KeepFault> {
    for row in rows.iter() {
        if row.0 % 2 == 0 {
            keep.remove(row.0)?;
        }
    }
    rows.retain(|row| row.0 % 2 == 1);
    Ok(())
}

/// Replaces each object, by a value more, and then removes each second one.
fn change_all<K: Keep>(
    rt: &impl Abort,
    alloc: Global,
    keep: &mut K,
    rows: &mut Rows,
) -> Result<(), Fail> {
    replace_all(alloc, keep, rows)?;
    expect_twice(rt, alloc, keep, rows)?;
    remove_even(keep, rows)?;
    expect_twice(rt, alloc, keep, rows)
}

#[test]
fn one_object_more_than_the_cache_has_room_for(rt: HostRuntime) -> Result<(), Fail> {
    let alloc = rt.alloc();
    let mut keep = cached_list(alloc, 128)?;
    let mut rows = insert_up_to(alloc, &mut keep, 129)?;
    expect_twice(&rt, alloc, &mut keep, &rows)?;
    change_all(&rt, alloc, &mut keep, &mut rows)?;
    assert_eq!(rt; rows.len(), 65);
    keep.reset(Record::new())?;
    let is_empty = has_rows(alloc, &mut keep, &[])?;
    assert!(rt; is_empty);
    for (id, _) in &rows {
        let is_gone = keep.object(alloc, *id).is_err();
        assert!(rt; is_gone, "object {id}");
    }
    Ok(())
}

/// A keeper that fails once, behind a cache.
type Failing = Cached<FailingKeep<ListKeep>>;

const THREE: &[(u64, u8)] = &[(1, 1), (2, 2), (3, 3)];

/// Inserts three objects, and reads each.
fn insert_and_read<K: Keep>(alloc: Global, keep: &mut K) -> Result<(), Fail> {
    insert_up_to(alloc, keep, 3)?;
    if has_rows(alloc, keep, THREE)? {
        Ok(())
    } else {
        Err("three objects".into())
    }
}

/// Three objects that were read once, and a keeper whose next call fails.
fn failing_after_reads(alloc: Global) -> Result<Failing, Fail> {
    let list = ListKeep::new(alloc, Record::new());
    // after three inserts, the ids, and three reads
    let failing = FailingKeep::new(list, 8, Failure::Device);
    let mut keep = cached(alloc, failing, 3)?;
    match insert_and_read(alloc, &mut keep) {
        Ok(()) => Ok(keep),
        Err(fault) => {
            drop(keep);
            Err(fault)
        }
    }
}

/// Sees that objects are read, though the keeper's next call fails.
fn expect_remembered<K: Keep>(rt: &impl Abort, alloc: Global, keep: &mut K) -> Result<(), Fail> {
    for id in [3, 1, 2, 2] {
        keep.object(alloc, id)?;
    }
    assert_eq!(rt; keep.failures(), 0);
    let is_refused = keep.ids(alloc) == Err(KeepFault::Device);
    assert!(rt; is_refused && keep.failures() == 1);
    Ok(())
}

#[test]
fn an_object_that_was_read_is_read_from_memory(rt: HostRuntime) -> Result<(), Fail> {
    let mut keep = failing_after_reads(rt.alloc())?;
    let seen = expect_remembered(&rt, rt.alloc(), &mut keep);
    drop(keep);
    seen
}

/// A change of three objects: one more, another second one, no second one, or none.
#[derive(Clone, Copy, Debug)]
enum Change {
    Insert,
    Replace,
    Remove,
    Reset,
}

impl Change {
    fn made<K: Keep>(self, alloc: Global, keep: &mut K) -> Result<Result<(), KeepFault>, Fail> {
        match self {
            Change::Insert => Ok(inserted(alloc, keep, 4)?.map(|_| ())),
            Change::Replace => replace(alloc, keep, 2, 9),
            Change::Remove => Ok(keep.remove(2)),
            Change::Reset => Ok(keep.reset(Record::new())),
        }
    }
}

const CHANGES: &[(Change, &[(u64, u8)])] = &[
    (Change::Insert, &[(1, 1), (2, 2), (3, 3), (4, 4)]),
    (Change::Replace, &[(1, 1), (2, 9), (3, 3)]),
    (Change::Remove, &[(1, 1), (3, 3)]),
    (Change::Reset, &[]),
];

/// Sees that the change of three objects is refused, and then made.
fn expect_refused<K: Keep>(
    rt: &impl Abort,
    alloc: Global,
    keep: &mut K,
    change: Change,
    after: &[(u64, u8)],
) -> Result<(), Fail> {
    let refused = change.made(alloc, keep)?;
    let is_told = refused == Err(KeepFault::Device) && keep.failures() == 1;
    assert!(rt; is_told, "{change:?}");
    expect_twice(rt, alloc, keep, THREE)?;
    change.made(alloc, keep)??;
    expect_twice(rt, alloc, keep, after)
}

#[test]
fn a_refused_change_is_told_and_not_made(rt: HostRuntime) -> Result<(), Fail> {
    for (change, after) in CHANGES {
        let mut keep = failing_after_reads(rt.alloc())?;
        let seen = expect_refused(&rt, rt.alloc(), &mut keep, *change, after);
        drop(keep);
        seen?;
    }
    Ok(())
}

#[test]
fn the_keeper_is_taken_out_with_what_it_holds(rt: HostRuntime) -> Result<(), Fail> {
    let mut keep = cached_list(rt.alloc(), 2)?;
    insert_up_to(rt.alloc(), &mut keep, 3)?;
    expect_twice(&rt, rt.alloc(), &mut keep, THREE)?;
    let mut list = keep.into_keep();
    expect_twice(&rt, rt.alloc(), &mut list, THREE)
}
