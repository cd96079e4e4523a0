//! The keepers over which scripts run, beside a list.

use cache::Cached;
use keep::{Keep, ListKeep};
use pin_record::Record;
use std::alloc::Global;
use std::num::NonZeroUsize;
use std::test::Fail;

/// The keeper behind a cache of so many objects.
pub fn cached<K: Keep>(alloc: Global, keep: K, capacity: usize) -> Result<Cached<K>, Fail> {
    let capacity = NonZeroUsize::new(capacity).ok_or("a capacity")?;
    match Cached::new(alloc, keep, capacity) {
        Ok(keep) => Ok(keep),
        Err((fault, _)) => Err(fault.into()),
    }
}

/// A list with this record behind a cache of two objects, so that scripts meet those that it has forgotten too.
pub fn cached_list(alloc: Global, record: Record) -> Result<Cached<ListKeep>, Fail> {
    cached(alloc, ListKeep::new(alloc, record), 2)
}
