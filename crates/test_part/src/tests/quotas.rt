//! Keepers with a limit of objects.

use super::keepers::{has_rows, insert, inserted};
use keep::*;
use pin_record::Record;
use quota::Quota;
use std::alloc::Global;
use std::process::Abort;
use std::test::Fail;

/// A keeper with a limit of so many objects.
fn limited<K: Keep>(alloc: Global, keep: K, most: u64) -> Result<Quota<K>, Fail> {
    match Quota::new(alloc, keep, most) {
        Ok(keep) => Ok(keep),
        Err((fault, _)) => Err(fault.into()),
    }
}

/// A new keeper in memory with a limit of so many objects.
fn limited_list(alloc: Global, most: u64) -> Result<Quota<ListKeep>, Fail> {
    limited(alloc, ListKeep::new(alloc, Record::new()), most)
}

/// Sees that an object is refused as the device's failure, which is the n-th.
fn expect_refusal<K: Keep>(
    rt: &impl Abort,
    alloc: Global,
    keep: &mut K,
    number: u64,
) -> Result<(), Fail> {
    let refused = inserted(alloc, keep, 9)?;
    assert!(rt; refused == Err(KeepFault::Device));
    assert_eq!(rt; keep.failures(), number);
    Ok(())
}

#[test]
fn an_object_beyond_the_limit_is_refused_until_one_is_removed(rt: HostRuntime) -> Result<(), Fail> {
    let alloc = rt.alloc();
    let mut keep = limited_list(alloc, 2)?;
    insert(alloc, &mut keep, 1)?;
    insert(alloc, &mut keep, 2)?;
    expect_refusal(&rt, alloc, &mut keep, 1)?;
    expect_refusal(&rt, alloc, &mut keep, 2)?;
    keep.remove(1)?;
    let id = insert(alloc, &mut keep, 3)?;
    let has_both = has_rows(alloc, &mut keep, &[(2, 2), (3, 3)])?;
    assert!(rt; id == 3 && has_both);
    expect_refusal(&rt, alloc, &mut keep, 3)?;
    let mut stricter = limited(alloc, keep.into_keep(), 1)?;
    assert_eq!(rt; stricter.count(), 2);
    expect_refusal(&rt, alloc, &mut stricter, 1)?;
    stricter.reset(Record::new())?;
    assert_eq!(rt; insert(alloc, &mut stricter, 4)?, 4);
    Ok(())
}
