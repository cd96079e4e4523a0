//! What the files are before sqlite opens them. Nothing is written.

ghost use Rattle.std.specs.Prelude.{◌≡◌, ◌≢◌, ◌↔◌, ◌⊎◌, ◌≤◌, ℕ, List, length, IsTrue, IfOk, IfErr, OnOk};
ghost use Rattle.std.specs.IoError.{error_kind};
ghost use Rattle.std.specs.declared.io.ErrorKind.TheVariants.{OutOfMemory};
ghost use Rattle.sqlite.specs.declared.error.Error.TheVariants.{SqliteFailure};
ghost use Rattle.sqlite.specs.declared.error.ErrorCode.TheVariants as code;
ghost use Rattle.sqlite.specs.Files.{image_of};
ghost use Rattle.sqlite_wal.specs.Reads.{AreClean, OnlyReads};
ghost use Rattle.sql_log.specs.Damage.{IsDamaged, IsFirst, IsPlainlyDamaged};
ghost use Rattle.keep_sql.specs.Reasons.{ExcusesReading};

use crate::refusal::OpenFault;
use sql_log::{bytes_of, has_commits_behind, is_begun, is_unwritten};
use sqlite::{Error, ErrorCode, Files};
use sqlite_disk::Disk;
use std::alloc::Global;
use std::io;

/// The bytes of the log, and whether the files are what a first opening that was cut off may leave.
#[derive(Drop)]
pub(crate) struct Inspected {
    pub(crate) log: Vec<u8>,
    pub(crate) is_first: bool,
}

/// What a file that can't be read is told as.
fn read_fault(error: &io::Error) -> OpenFault
    ensures memory { error_kind error.now ≡ OutOfMemory → result ≡ OpenFault.Sqlite (SqliteFailure code.OutOfMemory) }
    ensures disk { error_kind error.now ≢ OutOfMemory → result ≡ OpenFault.Sqlite (SqliteFailure code.SystemIoFailure) }
{
    let code = if error.kind() == io::ErrorKind::OutOfMemory {
        ErrorCode::OutOfMemory
    } else {
        ErrorCode::SystemIoFailure
    };
    OpenFault::Sqlite(Error::SqliteFailure(code))
}

/// Whether a database file of such a length beside such a log is the first that was made. `FileLost` where it has a byte at most
/// and the log was written for another one. `LogDamaged` where commits stand behind damage in the log.
fn is_first(log: &[u8], db_len: usize) -> Result<bool, OpenFault>
    ensures first { IfOk result (λ b. (db : List ℕ) → length db ≡ db_len → (IsTrue b ↔ IsFirst (record { log = log.now; db = db }))) }
    ensures sound { OnOk result (¬ IsPlainlyDamaged log.now) }
    ensures only { IfErr result (λ fault. (fault ≡ OpenFault.FileLost) ⊎ (fault ≡ OpenFault.LogDamaged)) }
    ensures lost { result ≡ Err OpenFault.FileLost → (db : List ℕ) → length db ≡ db_len → (length db ≤ 1) × (¬ IsFirst (record { log = log.now; db = db })) }
    ensures damaged { result ≡ Err OpenFault.LogDamaged → IsDamaged log.now }
{
    if has_commits_behind(log) {
        return Err(OpenFault::LogDamaged);
    }
    if is_begun(log) {
        return Ok(true);
    }
    if db_len > 1 {
        return Ok(false);
    }
    if is_unwritten(log) {
        Ok(true)
    } else {
        Err(OpenFault::FileLost)
    }
}

/// Inspects the files.
pub(crate) fn inspect<D: Disk>(alloc: Global, files: &mut Files<D>) -> Result<Inspected, OpenFault>
    requires log { IsTrue (D.Disk.is_usable files.old.log) }
    requires db { IsTrue (D.Disk.is_usable files.old.db) }
    ensures bytes { IfOk result (λ it. AreClean D.Disk files.new.log files.new.db → it.log.items ≡ D.Disk.seen files.old.log) }
    ensures first { IfOk result (λ it. AreClean D.Disk files.new.log files.new.db → (IsTrue it.is_first ↔ IsFirst (image_of D.Disk files.old))) }
    ensures sound { OnOk result (AreClean D.Disk files.new.log files.new.db → ¬ IsPlainlyDamaged (D.Disk.seen files.old.log)) }
    ensures cause { IfErr result (λ fault. AreClean D.Disk files.new.log files.new.db → ExcusesReading D.Disk files.old files.new fault) }
    ensures log { OnlyReads D.Disk files.old.log files.new.log }
    ensures db { OnlyReads D.Disk files.old.db files.new.db }
{
    let log = match bytes_of(alloc, &mut files.log) {
        Ok(bytes) => bytes,
        Err(error) => return Err(read_fault(&error)),
    };
    let db_len = match files.db.len() {
        Ok(len) => len,
        Err(error) => return Err(read_fault(&error)),
    };
    match is_first(log.as_slice(), db_len) {
        Ok(is_first) => Ok(Inspected { log, is_first }),
        Err(fault) => Err(fault),
    }
}
