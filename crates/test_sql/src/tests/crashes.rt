//! What a crash leaves, over files in memory that fail after so many calls.

use super::disks::{FRAMES, MANY, OverStore, endings, new_files, store_in};
use super::given::{Change, are_same, make};
use Change::{Insert, Remove, Replace, Reset, SetRecord};
use keep::{Keep, KeepFault, ListKeep};
use pin_record::Record;
use std::alloc::Global;
use std::process::Abort;
use std::test::Fail;

const CHANGES: [Change; 8] = [
    SetRecord(1),
    Insert(1),
    Insert(2),
    Replace(1, 3),
    Remove(2),
    SetRecord(2),
    Reset(3),
    Insert(4),
];

/// Makes the changes up to the first that is refused. Returns how many were made, and whether the refusal was counted.
fn make_all<K: Keep>(alloc: Global, keep: &mut K) -> (usize, bool) {
    for (at, change) in CHANGES.iter().enumerate() {
        match make(alloc, keep, *change) {
            Ok(()) => {}
            Err(fault) => {
                return (at, fault == KeepFault::Device && keep.failures() == 1);
            }
        }
    }
    (CHANGES.len(), true)
}

/// The changes that were made, up to the first that is refused, and whether the refusal was counted: none where the store isn't
/// opened.
#[derive(Clone, Copy)]
struct Made {
    changes: usize,
    is_counted: bool,
}

impl OverStore for Made {
    fn over<K: Keep>(&mut self, alloc: Global, mut keep: K) -> Result<K, Fail> {
        (self.changes, self.is_counted) = make_all(alloc, &mut keep);
        Ok(keep)
    }
}

/// Whether a keeper has what so many changes make.
fn has_changes<K: Keep>(alloc: Global, keep: &mut K, changes: usize) -> Result<bool, Fail> {
    let mut model = ListKeep::new(alloc, Record::new());
    for change in CHANGES.iter().take(changes) {
        make(alloc, &mut model, *change)?;
    }
    are_same(alloc, keep, &mut model)
}

/// Whether a keeper has what so many changes make, or these and the next.
fn has_changes_or_one<K: Keep>(alloc: Global, keep: &mut K, changes: usize) -> Result<bool, Fail> {
    if has_changes(alloc, keep, changes)? {
        return Ok(true);
    }
    if changes >= CHANGES.len() {
        return Ok(false);
    }
    has_changes(alloc, keep, changes + 1)
}

/// Whether the store has what so many changes make, or these and the next: not so where it isn't opened.
#[derive(Clone, Copy)]
struct Kept {
    changes: usize,
    is_kept: bool,
}

impl OverStore for Kept {
    fn over<K: Keep>(&mut self, alloc: Global, mut keep: K) -> Result<K, Fail> {
        self.is_kept = has_changes_or_one(alloc, &mut keep, self.changes)?;
        Ok(keep)
    }
}

/// Whether a run made all changes, where the log is copied once it has so many frames. However the machine ends, the store has what
/// was acknowledged, or that and the next change.
fn is_whole(
    rt: &impl Abort,
    alloc: Global,
    frames: usize,
    log: u64,
    db: u64,
) -> Result<bool, Fail> {
    let mut made = Made {
        changes: 0,
        is_counted: true,
    };
    let (left, _) = store_in(alloc, new_files(alloc, log, db), frames, &mut made)?;
    assert!(rt; made.is_counted, "log {log}, db {db}");
    for (ending, files) in endings(alloc, left)?.into_iter().enumerate() {
        let mut kept = Kept {
            changes: made.changes,
            is_kept: false,
        };
        let (_files, fault) = store_in(alloc, files, frames, &mut kept)?;
        assert!(rt;
            kept.is_kept,
            "log {log}, db {db}, ending {ending}: {fault:?}"
        );
    }
    Ok(made.changes == CHANGES.len())
}

#[test]
fn a_stop_of_the_log_leaves_whole_changes(rt: HostRuntime) -> Result<(), Fail> {
    let alloc = rt.alloc();
    for frames in FRAMES {
        let mut is_done = false;
        for calls in 0..1000 {
            if !is_done {
                is_done = is_whole(&rt, alloc, frames, calls, MANY)?;
            }
        }
        assert!(rt; is_done, "each run with {frames} frames stopped");
    }
    Ok(())
}

#[test]
fn a_stop_of_the_database_file_leaves_whole_changes(rt: HostRuntime) -> Result<(), Fail> {
    let alloc = rt.alloc();
    for frames in FRAMES {
        let mut is_done = false;
        for calls in 0..1000 {
            if !is_done {
                is_done = is_whole(&rt, alloc, frames, MANY, calls)?;
            }
        }
        assert!(rt; is_done, "each run with {frames} frames stopped");
    }
    Ok(())
}
