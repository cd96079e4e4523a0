//! A stop of the machine while a store of format 1 is taken over, as the daemon opens it.

use super::disks::{FRAMES, MANY, OverStore, Work, endings, fused, new_files, store_in, work_in};
use super::old::{bodies_in, new_bodies, old_bodies, stored};
use keep::Keep;
use sqlite::{Alter, Connection, Files};
use sqlite_disk::{Fuse, Memory};
use std::alloc::Global;
use std::process::Abort;
use std::test::Fail;

/// Gives a new store the bodies of format 1.
#[derive(Clone, Copy)]
struct Old;

impl Work for Old {
    fn over<S: Alter + Drop>(
        &mut self,
        alloc: Global,
        conn: Connection<S>,
    ) -> Result<Connection<S>, Fail> {
        stored(alloc, conn, &old_bodies(alloc)?)
    }
}

/// The files of a store of format 1.
fn old_files(alloc: Global) -> Result<Files<Fuse<Memory>>, Fail> {
    work_in(alloc, new_files(alloc, MANY, MANY), &mut Old)
}

/// Whether the store was opened, and so taken over.
#[derive(Clone, Copy)]
struct TakenOver(bool);

impl OverStore for TakenOver {
    fn over<K: Keep>(&mut self, _alloc: Global, keep: K) -> Result<K, Fail> {
        self.0 = true;
        Ok(keep)
    }
}

/// Whether the bodies are all as they were, and whether they are all in format 2.
#[derive(Clone, Copy)]
struct Formats {
    are_old: bool,
    are_new: bool,
}

impl Work for Formats {
    fn over<S: Alter + Drop>(
        &mut self,
        alloc: Global,
        mut conn: Connection<S>,
    ) -> Result<Connection<S>, Fail> {
        let found = bodies_in(alloc, &mut conn)?;
        self.are_old = found == old_bodies(alloc)?;
        self.are_new = found == new_bodies(alloc)?;
        Ok(conn)
    }
}

/// The files, and the formats of the bodies in them.
fn formats_in(alloc: Global, files: Files<Memory>) -> Result<(Files<Memory>, Formats), Fail> {
    let mut found = Formats {
        are_old: false,
        are_new: false,
    };
    let files = work_in(alloc, files, &mut found)?;
    Ok((files, found))
}

/// Whether files have one format, format 2 if the store was opened, and the next opening takes it over.
fn have_one_format(
    alloc: Global,
    files: Files<Memory>,
    frames: usize,
    was_open: bool,
) -> Result<bool, Fail> {
    let (files, found) = formats_in(alloc, files)?;
    let mut again = TakenOver(false);
    let (files, _) = store_in(alloc, files, frames, &mut again)?;
    let (_files, at_last) = formats_in(alloc, files)?;
    let is_one = found.are_new || (found.are_old && !was_open);
    Ok(is_one && again.0 && at_last.are_new)
}

/// Sees what a stop leaves, however the machine ends. Whether nothing stopped.
fn expect_whole(
    rt: &impl Abort,
    alloc: Global,
    frames: usize,
    log: u64,
    db: u64,
) -> Result<bool, Fail> {
    let mut taken = TakenOver(false);
    let files = fused(alloc, &old_files(alloc)?, log, db)?;
    let (left, _) = store_in(alloc, files, frames, &mut taken)?;
    for (ending, files) in endings(alloc, left)?.into_iter().enumerate() {
        let is_so = have_one_format(alloc, files, frames, taken.0)?;
        assert!(rt; is_so, "log {log}, db {db}, ending {ending}");
    }
    Ok(taken.0)
}

#[test]
fn a_stop_of_the_log_leaves_one_format(rt: HostRuntime) -> Result<(), Fail> {
    let alloc = rt.alloc();
    for frames in FRAMES {
        let mut stops = None;
        for calls in 0..1000 {
            if stops.is_none() && expect_whole(&rt, alloc, frames, calls, MANY)? {
                stops = Some(calls);
            }
        }
        assert!(rt;
            stops.is_some_and(|stops| stops > 3),
            "{frames} frames: {stops:?}"
        );
    }
    Ok(())
}

#[test]
fn a_stop_of_the_database_leaves_one_format(rt: HostRuntime) -> Result<(), Fail> {
    let alloc = rt.alloc();
    for frames in FRAMES {
        let mut stops = None;
        for calls in 0..1000 {
            if stops.is_none() && expect_whole(&rt, alloc, frames, MANY, calls)? {
                stops = Some(calls);
            }
        }
        assert!(rt;
            stops.is_some_and(|stops| stops > 1),
            "{frames} frames: {stops:?}"
        );
    }
    Ok(())
}
