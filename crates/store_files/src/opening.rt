//! A store in a file: kept from other users, opened and closed, and why it can't be.

use crate::ballast::{Ballast, remove_ballast};
use crate::copying::is_busy;
use crate::examining::examine;
use crate::fault::{StoreCause, StoreFault};
use crate::mark::Mark;
use crate::marked::Marked;
use crate::renewal::{file_is_in_use, renew};
use crate::snapshot::read_store;
use crate::spare_logs::SpareLogs;
use journal::Journal;
use keep::KeepFault;
use keep_sql::{OpenFault, SqlKeep, own_mode};
use log::{LevelFilter, Log, warn};
use reserve::{Explains, SpareRoom};
use sqlite::{Error, ErrorCode, FileFrom, FileStore};
use sqlite_disk::Wary;
use std::fs::{File, OpenOptions, Permissions};
use std::io::ErrorKind;
use std::os::unix::fs::{MetadataExt, OpenOptionsExt, PermissionsExt};
use std::{fs, io};

/// The keeper over a store in a file, and the mark beside that.
pub type FileKeep = Marked<OpenKeep>;

/// The keeper over a store in a file.
pub type OpenKeep = SqlKeep<FileStore<FileFrom<Wary>>>;

/// The permission bits of group and others.
const SHARED_BITS: u32 = 0o077;

/// The bits by which group and others may write.
const WRITE_BITS: u32 = 0o022;

fn refused(error: io::Error) -> StoreFault {
    StoreFault::Store(StoreCause::File(error))
}

/// Takes the permission bits of group and others from the file of a store that is open, and from its log. Returns whether there
/// were any.
pub fn keep_private(rt: &HostRuntime, path: &str) -> Result<bool, StoreFault> {
    let log = match log_of(rt, path) {
        Ok(log) => log,
        Err(error) => return Err(refused(error)),
    };
    let was_shared = narrow(rt, path)?;
    Ok(narrow(rt, &log)? || was_shared)
}

/// The path of the log beside a store: where a link leads, as sqlite takes it.
fn log_of(rt: &HostRuntime, path: &str) -> io::Result<String> {
    let real = fs::canonicalize(rt, path)?;
    Ok(format!(in rt.alloc(); "{}-wal", real.as_str())?)
}

/// Takes the bits of group and others from a file, if it is there and has any, and returns whether it had.
fn narrow(rt: &HostRuntime, path: &str) -> Result<bool, StoreFault> {
    let Ok(found) = fs::metadata(rt, path) else {
        return Ok(false);
    };
    let mode = found.permissions().mode();
    if !found.is_file() || mode & SHARED_BITS == 0 {
        return Ok(false);
    }
    match fs::set_permissions(rt, path, Permissions::from_mode(mode & own_mode())) {
        Ok(()) => Ok(true),
        Err(error) => Err(StoreFault::Store(StoreCause::Mode(error))),
    }
}

/// Refused where the store or its log belongs to another user than the process runs as.
pub fn see_owner(rt: &HostRuntime, path: &str) -> Result<(), StoreFault> {
    let user = libc::geteuid();
    if let Ok(found) = fs::metadata(rt, path) {
        if found.uid() != user {
            return Err(StoreFault::Store(StoreCause::Foreign(found.uid(), user)));
        }
    }
    let Ok(log) = log_of(rt, path) else {
        return Ok(());
    };
    if let Ok(found) = fs::symlink_metadata(rt, log.as_str()) {
        if found.uid() != user {
            return Err(StoreFault::Store(StoreCause::ForeignLog(found.uid(), user)));
        }
    }
    Ok(())
}

/// Whether others than the owner may write the folder of a store that is open.
pub fn is_in_open_folder(rt: &HostRuntime, path: &str) -> bool {
    let Ok(mut folder) = fs::canonicalize(rt, path) else {
        return false;
    };
    folder.pop();
    match fs::metadata(rt, folder.as_str()) {
        Ok(found) => found.permissions().mode() & WRITE_BITS != 0,
        Err(_) => false,
    }
}

/// Opens the store, which is made where there is none. A refusal leaves its files as they were.
///
/// A store whose mark is missing, or whose file doesn't say that it is in use, is written anew first. Where that can't be done, as
/// on a disk that is full, it is opened all the same, and a line reports it.
pub fn open_store(
    rt: &HostRuntime,
    path: &str,
    level: LevelFilter,
) -> Result<FileKeep, StoreFault> {
    let (keep, is_clean) = seen_clean(rt, path, open_once(rt, path)?)?;
    if is_clean {
        return watched(rt, path, level, keep);
    }
    if let Err(fault) = renew(rt, path, keep) {
        say_kept(rt, level, &fault);
        return watched(rt, path, level, open_once(rt, path)?);
    }
    let keep = open_once(rt, path)?;
    watched(rt, path, level, marked(rt, path, keep)?)
}

/// Reports that a store's file stays as it is, with what was destroyed.
fn say_kept(rt: &HostRuntime, level: LevelFilter, fault: &StoreFault) {
    let log = Journal::new(rt.stderr(), level);
    match fault {
        StoreFault::Store(cause) | StoreFault::Copy(cause) => {
            warn!(log; "what was destroyed may still be in the store: {cause}");
        }
        StoreFault::Memory => {
            warn!(log; "what was destroyed may still be in the store: out of memory");
        }
    }
}

/// Refused where there is no store: an empty file, which the daemon would make a new store of, is none.
fn see_store(rt: &HostRuntime, path: &str) -> Result<(), StoreFault> {
    match fs::metadata(rt, path) {
        Ok(found) if found.len() > 0 => Ok(()),
        Ok(_) => Err(OpenFault::NoTables.into()),
        Err(error) => Err(refused(error)),
    }
}

/// Opens a store that is there.
pub(crate) fn open_there(rt: &HostRuntime, path: &str) -> Result<FileKeep, StoreFault> {
    see_store(rt, path)?;
    open_store(rt, path, LevelFilter::Warn)
}

/// Writes the file of a store anew.
pub fn renew_store(rt: &HostRuntime, path: &str) -> Result<(), StoreFault> {
    see_store(rt, path)?;
    renew(rt, path, open_once(rt, path)?)?;
    set_mark(rt, path)
}

/// Whether nothing was destroyed since the file was written anew.
fn is_clean(rt: &HostRuntime, path: &str) -> Result<bool, StoreFault> {
    match Mark::find(rt, path, LevelFilter::Off).and_then(|mark| Ok(
        mark.is_set() && file_is_in_use(rt, path)?,
    )) {
        Ok(is_clean) => Ok(is_clean),
        Err(error) => Err(refused(error)),
    }
}

/// The keeper of an open store, and whether nothing was destroyed since its file was written anew.
fn seen_clean<K: Drop>(rt: &HostRuntime, path: &str, keep: K) -> Result<(K, bool), StoreFault> {
    let is_clean = is_clean(rt, path)?;
    Ok((keep, is_clean))
}

/// The keeper of a store whose file was written anew, which is marked so.
fn marked<K: Drop>(rt: &HostRuntime, path: &str, keep: K) -> Result<K, StoreFault> {
    set_mark(rt, path)?;
    Ok(keep)
}

fn set_mark(rt: &HostRuntime, path: &str) -> Result<(), StoreFault> {
    // (without it the next start takes longer)
    match Mark::find(rt, path, LevelFilter::Off) {
        Ok(mut mark) => {
            let _ = mark.set();
            Ok(())
        }
        Err(error) => Err(refused(error)),
    }
}

/// The keeper, which looks after what stands beside the store.
fn watched<K: Explains>(
    rt: &HostRuntime,
    path: &str,
    level: LevelFilter,
    keep: K,
) -> Result<Marked<K>, StoreFault> {
    match (Mark::find(rt, path, level), SpareLogs::find(rt, path)) {
        (Ok(mark), Ok(logs)) => Ok(Marked::new(keep, mark, logs)),
        (Err(error), _) | (_, Err(error)) => Err(refused(error)),
    }
}

/// Closes a store at a clean end: its log is copied into its file.
pub fn close_store(keep: FileKeep) -> Result<(), StoreFault> {
    match keep.close().close() {
        Ok(()) => Ok(()),
        Err(error) => Err(error.into()),
    }
}

/// The room beside a store, which is set aside now where there is some.
pub fn room_beside(
    rt: &HostRuntime,
    path: &str,
    level: LevelFilter,
) -> Result<Ballast, StoreFault> {
    match Ballast::find(rt, path, level) {
        Ok(mut room) => {
            let _ = room.fill();
            Ok(room)
        }
        Err(error) => Err(refused(error)),
    }
}

/// The device and the number of the file that has the name.
fn file_named(rt: &HostRuntime, path: &str) -> Option<(u64, u64)> {
    match fs::metadata(rt, path) {
        Ok(found) => Some((found.dev(), found.ino())),
        Err(_) => None,
    }
}

/// Opens the store as it is. Refused where its log is lost, or where another file got the name meanwhile, which another program
/// wrote anew.
fn open_once(rt: &HostRuntime, path: &str) -> Result<OpenKeep, StoreFault> {
    if lacks_log(rt, path)? {
        return Err(StoreFault::Store(StoreCause::LogLost));
    }
    let before = file_named(rt, path);
    match open_in_room(rt, path) {
        Ok(keep) => {
            if before.is_some() && before != file_named(rt, path) {
                return Err(StoreFault::Store(StoreCause::Busy));
            }
            Ok(keep)
        }
        Err(fault) => Err(why_refused(rt, path, fault)),
    }
}

/// Opens the store. Where the disk has no room for that, the room beside the store is given up first.
fn open_in_room(rt: &HostRuntime, path: &str) -> Result<OpenKeep, OpenFault> {
    let fault = match open_files_at(rt, path) {
        Ok(keep) => return Ok(keep),
        Err(fault) => fault,
    };
    if is_full(fault) && remove_ballast(rt, path).unwrap_or(false) {
        open_files_at(rt, path)
    } else {
        Err(fault)
    }
}

fn is_full(fault: OpenFault) -> bool {
    matches!(
        fault,
        OpenFault::Sqlite(Error::SqliteFailure(ErrorCode::DiskFull))
    )
}

fn open_files_at(rt: &HostRuntime, path: &str) -> Result<OpenKeep, OpenFault> {
    match SqlKeep::open(rt, path, Wary) {
        Ok(keep) => Ok(keep),
        Err(refused) => Err(refused.given_back(rt.alloc()).fault),
    }
}

/// Whether the file says that it is in use, and no log is beside it.
fn lacks_log(rt: &HostRuntime, path: &str) -> Result<bool, StoreFault> {
    let Ok(log) = log_of(rt, path) else {
        return Ok(false);
    };
    match fs::symlink_metadata(rt, &log) {
        Err(error) if error.kind() == ErrorKind::NotFound => {}
        _ => return Ok(false),
    }
    match file_is_in_use(rt, path) {
        Ok(is_in_use) => Ok(is_in_use),
        Err(error) => Err(refused(error)),
    }
}

/// What a refusal is, with what the system or a look through a copy adds to it.
fn why_refused(rt: &HostRuntime, path: &str, fault: OpenFault) -> StoreFault {
    match fault {
        OpenFault::Keeper(KeepFault::Damaged) => why_damaged(rt, path),
        OpenFault::Sqlite(Error::SqliteFailure(ErrorCode::CannotOpen)) => why_shut_out(rt, path),
        _ => fault.into(),
    }
}

/// Which body is damaged.
fn why_damaged(rt: &HostRuntime, path: &str) -> StoreFault {
    let looked = read_store(rt, path).and_then(|copy| examine(rt.alloc(), &copy));
    match looked {
        Ok(found) => match found.verdict() {
            Ok(()) => KeepFault::Damaged.into(),
            Err(fault) => fault,
        },
        Err(fault) => fault,
    }
}

/// Opens the file, or makes an empty one where there is nothing at the path.
fn open_or_make(rt: &HostRuntime, path: &str) -> io::Result<File> {
    let is_there = fs::symlink_metadata(rt, path).is_ok();
    OpenOptions::new()
        .read(true)
        .write(true)
        .create_new(!is_there)
        .mode(own_mode())
        .open(rt, path)
}

/// Why the system lets sqlite open no file there.
fn why_shut_out(rt: &HostRuntime, path: &str) -> StoreFault {
    match open_or_make(rt, path) {
        Err(error) => refused(error),
        Ok(file) => {
            if is_busy(&file) {
                return StoreFault::Store(StoreCause::Busy);
            }
            if file.metadata().is_ok_and(|found| found.nlink() > 1) {
                return StoreFault::Store(StoreCause::HardLink);
            }
            match can_have_log(rt, path) {
                Err(error) => StoreFault::Store(StoreCause::Folder(error)),
                Ok(()) => StoreFault::Store(StoreCause::Sqlite(Error::SqliteFailure(
                    ErrorCode::CannotOpen,
                ))),
            }
        }
    }
}

/// Opens the log, or makes an empty one.
fn can_have_log(rt: &HostRuntime, path: &str) -> io::Result<()> {
    let log = log_of(rt, path)?;
    let opened = OpenOptions::new()
        .read(true)
        .write(true)
        .create(true)
        .mode(own_mode())
        .open(rt, &log);
    opened.map(|_| ())
}
