//! Files of disks in memory that stop after so many calls, and work over stores on them. What is done to a store is generic in
//! its keeper. So the one function that names the store of files costs its proof once.

use keep::Keep;
use keep_sql::{SqlKeep, store_options};
use sqlite::Files;
use sqlite_disk::{Crash, Disk, Fuse, Memory};
use std::alloc::{AllocError, Global};
use std::test::Fail;

pub(super) type Disks = Files<Fuse<Memory>>;

/// More calls than any run makes.
pub(super) const ENDLESS: u64 = 1 << 40;

/// What is done over a keeper, which comes back.
pub(super) trait Work {
    fn over<K: Keep>(&mut self, alloc: Global, keep: K) -> Result<K, Fail>;
}

/// New files. The log stops after so many calls, and the database.
pub(super) fn disks(alloc: Global, log_calls: u64, db_calls: u64) -> Disks {
    Files {
        log: Fuse::new(Memory::new(alloc), log_calls),
        db: Fuse::new(Memory::new(alloc), db_calls),
    }
}

/// A file in memory with these bytes, which are synced.
fn disk_of(alloc: Global, bytes: &[u8]) -> Result<Memory, Fail> {
    let mut disk = Memory::new(alloc);
    disk.set_len(bytes.len())?;
    disk.write_at(0, bytes)?;
    disk.sync()?;
    Ok(disk)
}

fn files_of(alloc: Global, log: &[u8], db: &[u8]) -> Result<Files<Memory>, Fail> {
    let log = disk_of(alloc, log)?;
    let db = disk_of(alloc, db)?;
    Ok(Files { log, db })
}

/// What was written, where every other sector of 512 bytes is as it was synced.
fn torn(alloc: Global, synced: &[u8], written: &[u8], kept: usize) -> Result<Vec<u8>, AllocError> {
    let mut bytes = Vec::new(alloc);
    for (at, byte) in written.iter().enumerate() {
        let old = synced.get(at).copied().unwrap_or(0);
        bytes.push(if at / 512 % 2 == kept { *byte } else { old })?;
    }
    Ok(bytes)
}

/// The files as the machine may find them when it comes back: without the writes that were not synced, with all of them, and with every
/// other sector of them.
pub(super) fn endings(alloc: Global, mut files: Disks) -> Result<Vec<Files<Memory>>, Fail> {
    let log = Vec::from_slice(alloc, files.log.inner().bytes())?;
    let db = Vec::from_slice(alloc, files.db.inner().bytes())?;
    files.log.crash();
    files.db.crash();
    let synced_log = files.log.inner().bytes();
    let synced_db = files.db.inner().bytes();
    let mut endings = Vec::new(alloc);
    endings.push(files_of(alloc, synced_log, synced_db)?)?;
    endings.push(files_of(alloc, log.as_slice(), db.as_slice())?)?;
    for kept in 0..2 {
        let torn_log = torn(alloc, synced_log, log.as_slice(), kept)?;
        let torn_db = torn(alloc, synced_db, db.as_slice(), kept)?;
        endings.push(files_of(alloc, torn_log.as_slice(), torn_db.as_slice())?)?;
    }
    Ok(endings)
}

/// Does the work over the store in the files, unless it isn't opened, and gives the files back. The log is copied once it has so many
/// frames.
pub(super) fn work_in<D: Disk + Drop, W: Work>(
    alloc: Global,
    files: Files<D>,
    frames: usize,
    work: &mut W,
) -> Result<Files<D>, Fail> {
    if !files.may_be_used() {
        return Ok(files);
    }
    let mut options = store_options(1);
    options.checkpoint_frames = frames;
    match SqlKeep::open_files(alloc, files, options) {
        Ok(keep) => Ok(work.over(alloc, keep)?.close().into_store().close()),
        Err(refused) => match refused.left.into_files() {
            Some(files) => Ok(files),
            None => Err("the files".into()),
        },
    }
}
