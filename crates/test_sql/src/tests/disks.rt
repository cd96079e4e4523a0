//! Files of disks in memory that stop after so many calls, and work over stores in them. What is done to a store is generic in
//! what it is on. So the one function that names the store of files costs its proof once.

use keep::Keep;
use keep_sql::{OpenFault, Refused, SqlKeep, store_options};
use sqlite::{Alter, Connection, Files, Options};
use sqlite_disk::{Crash, Disk, Fuse, Memory};
use std::alloc::{AllocError, Global};
use std::test::Fail;

/// More calls than a run makes.
pub(super) const MANY: u64 = 1 << 40;

/// How many frames the log has before it is copied: as the daemon has it, and few, so that it is copied between the changes.
pub(super) const FRAMES: [usize; 2] = [64, 3];

/// What is done over a connection to a store, which comes back.
pub(super) trait Work {
    fn over<S: Alter + Drop>(
        &mut self,
        alloc: Global,
        conn: Connection<S>,
    ) -> Result<Connection<S>, Fail>;
}

/// Does the work over the store in the files, unless these can't be opened, and gives the files back.
pub(super) fn work_in<D: Disk + Drop, W: Work>(
    alloc: Global,
    files: Files<D>,
    work: &mut W,
) -> Result<Files<D>, Fail> {
    if !files.may_be_used() {
        return Ok(files);
    }
    match Connection::open_files(alloc, files, Options::new(1)) {
        Ok(conn) => Ok(work.over(alloc, conn)?.into_store().close()),
        Err((_, left)) => Ok(left.into_files()),
    }
}

/// New files, of which the log stops after so many calls, and the database.
pub(super) fn new_files(alloc: Global, log: u64, db: u64) -> Files<Fuse<Memory>> {
    Files {
        log: Fuse::new(Memory::new(alloc), log),
        db: Fuse::new(Memory::new(alloc), db),
    }
}

/// Files with the same bytes, which stop after so many calls.
pub(super) fn fused(
    alloc: Global,
    files: &Files<Fuse<Memory>>,
    log: u64,
    db: u64,
) -> Result<Files<Fuse<Memory>>, Fail> {
    let log = Fuse::new(copied(alloc, files.log.inner())?, log);
    let db = Fuse::new(copied(alloc, files.db.inner())?, db);
    Ok(Files { log, db })
}

/// A disk with the same bytes.
fn copied(alloc: Global, disk: &Memory) -> Result<Memory, Fail> {
    let mut copy = Memory::new(alloc);
    copy.set_len(disk.bytes().len())?;
    copy.write_at(0, disk.bytes())?;
    copy.sync()?;
    Ok(copy)
}

/// What is done over a keeper, which comes back.
pub(super) trait OverStore {
    fn over<K: Keep>(&mut self, alloc: Global, keep: K) -> Result<K, Fail>;
}

/// Does the work over the store in the files, and gives them back, and why the store isn't opened. The log is copied once it has so
/// many frames.
pub(super) fn store_in<D: Disk + Drop, W: OverStore>(
    alloc: Global,
    files: Files<D>,
    frames: usize,
    work: &mut W,
) -> Result<(Files<D>, Option<OpenFault>), Fail> {
    if !files.may_be_used() {
        return Ok((files, None));
    }
    let mut options = store_options(1);
    options.checkpoint_frames = frames;
    match SqlKeep::open_files(alloc, files, options) {
        Ok(keep) => Ok((work.over(alloc, keep)?.close().into_store().close(), None)),
        Err(refused) => given_back(refused),
    }
}

fn given_back<D: Disk + Drop>(refused: Refused<D>) -> Result<(Files<D>, Option<OpenFault>), Fail> {
    let Refused {
        fault,
        left,
        log: _,
    } = refused;
    match left.into_files() {
        Some(files) => Ok((files, Some(fault))),
        None => Err("the files".into()),
    }
}

/// A file in memory with these bytes, which are synced.
pub(super) fn disk_of(alloc: Global, bytes: &[u8]) -> Result<Memory, Fail> {
    let mut disk = Memory::new(alloc);
    disk.set_len(bytes.len())?;
    disk.write_at(0, bytes)?;
    disk.sync()?;
    Ok(disk)
}

/// Files in memory with these bytes.
pub(super) fn files_of(alloc: Global, log: &[u8], db: &[u8]) -> Result<Files<Memory>, Fail> {
    let log = disk_of(alloc, log)?;
    let db = disk_of(alloc, db)?;
    Ok(Files { log, db })
}

/// What was written, where every other sector of 512 bytes is as it was synced.
fn torn(alloc: Global, synced: &[u8], written: &[u8], kept: usize) -> Result<Vec<u8>, AllocError> {
    let mut bytes = Vec::new(alloc);
    for (at, byte) in written.iter().enumerate() {
        let old = synced.get(at).copied().unwrap_or(0);
        bytes.push(if at / 512 % 2 == kept { *byte } else { old })?;
    }
    Ok(bytes)
}

/// The files as a machine that stopped may leave them: without the writes that were not synced, with all of them, and with every other
/// sector of them.
pub(super) fn endings(
    alloc: Global,
    mut files: Files<Fuse<Memory>>,
) -> Result<Vec<Files<Memory>>, Fail> {
    let log = Vec::from_slice(alloc, files.log.inner().bytes())?;
    let db = Vec::from_slice(alloc, files.db.inner().bytes())?;
    files.log.crash();
    files.db.crash();
    let synced_log = files.log.inner().bytes();
    let synced_db = files.db.inner().bytes();
    let mut endings = Vec::new(alloc);
    endings.push(files_of(alloc, synced_log, synced_db)?)?;
    endings.push(files_of(alloc, log.as_slice(), db.as_slice())?)?;
    for kept in 0..2 {
        let torn_log = torn(alloc, synced_log, log.as_slice(), kept)?;
        let torn_db = torn(alloc, synced_db, db.as_slice(), kept)?;
        endings.push(files_of(alloc, torn_log.as_slice(), torn_db.as_slice())?)?;
    }
    Ok(endings)
}
