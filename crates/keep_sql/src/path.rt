//! The store in a file, by its path.

ghost use Rattle.std.specs.Prelude.{◌≡◌, ◌⊎◌, codes, true, false, IfOk, IfErr, IsErrAnd, IsTrue};
ghost use Rattle.sqlite.specs.declared.error.ErrorCode.TheVariants.{CannotOpen};
ghost use Rattle.sqlite.specs.declared.error.Error.TheVariants.{SqliteFailure};
ghost use Rattle.sqlite_wal.specs.Files.{image_at};
ghost use Rattle.sqlite_std_file.specs.File.{file_is_usable, IsFresh};
ghost use Rattle.keep_sql_model.specs.OpenedFile.{OpenedFile};
ghost use Rattle.keep_sql.specs.Modes.{owner_alone};
ghost use Rattle.keep_sql.specs.Reasons.{IsOfSystem};
ghost use Rattle.keep_sql.specs.Refusal.{Leaves};

use crate::files::store_options;
use crate::refusal::{Left, OpenFault, Refused};
use crate::sql_keep::SqlKeep;
use sqlite::{Error, ErrorCode, FileFrom, FileStore, Files, Start};
use sqlite_disk::Disk;
use sqlite_std_file::OpenError;
use std::fs::{self, OpenOptions};
use std::hash::{BuildHasher, RandomState};
use std::io::{self, ErrorKind};
use std::os::unix::fs::OpenOptionsExt;
use std::rt::HostRuntime;

const CANNOT_OPEN: OpenFault = OpenFault::Sqlite(Error::SqliteFailure(ErrorCode::CannotOpen));

const NO_MEMORY: OpenFault = OpenFault::Sqlite(Error::SqliteFailure(ErrorCode::OutOfMemory));

const BUSY: OpenFault = OpenFault::Sqlite(Error::SqliteFailure(ErrorCode::DatabaseBusy));

/// The permission bits of a file that is made: its owner may read and write it, and nobody else (POSIX, `sys/stat.h`).
pub fn own_mode() -> u32
    ensures { result ≡ owner_alone }
{
    0o600
}

/// Whether there is no file at the path, and a log beside it that is not empty.
fn is_log_alone(rt: &HostRuntime, path: &str) -> Result<bool, OpenFault>
    ensures { IfErr result IsOfSystem }
{
    match fs::symlink_metadata(rt, path) {
        Err(error) if error.kind() == ErrorKind::NotFound => {}
        _ => return Ok(false),
    }
    let Ok(log) = format!(in rt.alloc(); "{path}-wal") else {
        return Err(NO_MEMORY);
    };
    match fs::symlink_metadata(rt, log.as_str()) {
        Ok(found) => Ok(found.len() > 0),
        Err(_) => Ok(false),
    }
}

/// Makes an empty file where there is none, for its owner alone. sqlite gives its log the same permission bits.
fn make_private(rt: &HostRuntime, path: &str) -> Result<(), OpenFault>
    ensures { IfErr result IsOfSystem }
{
    let made = OpenOptions::new()
        .read(true)
        .write(true)
        .create_new(true)
        .mode(own_mode())
        .open(rt, path);
    match made {
        Ok(_) => Ok(()),
        Err(error) if error.kind() == ErrorKind::OutOfMemory => Err(NO_MEMORY),
        // A link that leads nowhere is refused: sqlite would make the file for other users too.
        Err(error) if error.kind() == ErrorKind::AlreadyExists && fs::metadata(rt, path).is_ok() =>
            Ok(()),
        Err(_) => Err(CANNOT_OPEN),
    }
}

fn open_pair<S: Start>(
    rt: &HostRuntime,
    path: &str,
    start: S,
) -> Result<Files<FileFrom<S>>, OpenFault>
    ensures memory { path.now ≡ codes ":memory:" → result ≡ Err (OpenFault.Sqlite (SqliteFailure CannotOpen)) }
    ensures usable { IfOk result (λ files. IsTrue (file_is_usable S.Start files.log) × IsTrue (file_is_usable S.Start files.db)) }
    ensures fresh { IfOk result (λ files. IsFresh true files.log × IsFresh false files.db) }
    ensures cause { IfErr result IsOfSystem }
{
    if path == ":memory:" || path.starts_with("file:") {
        return Err(CANNOT_OPEN);
    }
    if is_log_alone(rt, path)? {
        return Err(OpenFault::FileLost);
    }
    make_private(rt, path)?;
    match sqlite_std_file::open(rt, path, start) {
        Ok(files) => Ok(files),
        Err(OpenError::OutOfMemory) => Err(NO_MEMORY),
        Err(OpenError::Busy) => Err(BUSY),
        Err(OpenError::Io(error)) if error.kind() == ErrorKind::OutOfMemory => Err(NO_MEMORY),
        Err(_) => Err(CANNOT_OPEN),
    }
}

/// A random number for the salts of the log.
fn random(rt: &HostRuntime) -> Result<u64, OpenFault>
    ensures { IfErr result IsOfSystem }
{
    match RandomState::new(rt) {
        Ok(state) => Ok(state.hash_one(&0u8)),
        Err(_) => Err(CANNOT_OPEN),
    }
}

fn unopened<S: Start>(fault: OpenFault) -> Refused<FileFrom<S>>
    ensures { (result.fault ≡ fault) × (result.left ≡ Left.Nothing) }
{
    Refused {
        fault,
        left: Left::Nothing,
        log: None,
    }
}

impl<S: Start> SqlKeep<FileStore<FileFrom<S>>> {
    /// Opens the store in a file, or makes it, as `open_files` does, for its owner alone (mode 0600). Nobody else may write the
    /// file and the log beside it while the store is open; sqlite holds a lock on it. `start` is what is assumed of the file:
    /// `Wary`, that a torn write may leave any bytes, so each commit syncs twice, or `Unknown`, that it leaves each byte old or
    /// new.
    ///
    /// `CannotOpen` where the path can't be opened, and `DatabaseBusy` where another handle has it. A file that is not there is not
    /// made where a log stands beside it (`FileLost`).
    pub fn open(rt: &HostRuntime, path: &str, start: S) -> Result<Self, Refused<FileFrom<S>>>
        ensures opened { IfOk result (OpenedFile (image_at S.Start)) }
        ensures memory { path.now ≡ codes ":memory:" → IsErrAnd result (λ r. r.fault ≡ OpenFault.Sqlite (SqliteFailure CannotOpen)) }
        ensures leaves { IfErr result (λ r. ((r.left ≡ Left.Nothing) × IsOfSystem r.fault)
            ⊎ ((files : _) × IsFresh true files.log × IsFresh false files.db × Leaves files r.fault r.left)) }
    {
        let files = match open_pair(rt, path, start) {
            Ok(files) => files,
            Err(fault) => return Err(unopened(fault)),
        };
        match random(rt) {
            Ok(seed) => SqlKeep::open_files(rt.alloc(), files, store_options(seed)),
            Err(fault) => Err(unopened(fault)),
        }
    }
}
