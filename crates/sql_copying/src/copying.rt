//! Copying the log of an open store into its file.

ghost use Rattle.std.specs.Prelude.{◌≡◌, ◌⊎◌, ◌≤◌, [], IfOk, IfErr, IsTrue};
ghost use Rattle.sqlite.specs.Tree.{Trees};
ghost use Rattle.sqlite.specs.State.{HasCleanDisk, IsLive, Opens};
ghost use Rattle.sqlite.specs.Steps.{IsFresh};
ghost use Rattle.sqlite_trees.specs.View.{IsClean, IsQuiet, doubt};
ghost use Rattle.sqlite_store.specs.FileStore.{faults, is_shielded, recovers, view};
ghost use Rattle.sqlite.specs.Files.{file_state};
ghost use Rattle.keep_sql_model.specs.OpenedFile.{HasNoRoom, IsCopy, IsInFile};
ghost use Rattle.sql_copying.specs.Copying.{FailsToCopy};

use sql_vacuum::error_of;
use sqlite::{Connection, Error, ErrorCode, FileStore};
use sqlite_disk::Disk;
use sqlite_trees::error::StoreError;
use sqlite_trees::store::Store;
use std::alloc::Global;

/// What a disk without room is told as.
const FULL: Error = Error::SqliteFailure(ErrorCode::DiskFull);

/// Whether a store is open still. A mark can be set in an open one alone, and it goes again at once.
fn is_open<D: Disk + Drop>(store: &mut FileStore<D>) -> bool
    ensures open { IsTrue result → IsClean (view store.new) → IsTrue (view store.old).is_open }
    ensures same { IsTrue result → IsClean (view store.new) → (view store.old).marks ≡ [] → view store.new ≡ view store.old }
    ensures quiet { IsQuiet view faults recovers is_shielded store.old store.new }
{
    match store.savepoint() {
        Ok(()) => match store.release() {
            Ok(()) => true,
            Err(_) => false,
        },
        Err(_) => false,
    }
}

/// The connection over a store whose log has no room in its file, if the store is open still. It has what was committed.
fn uncopied<D: Disk + Drop>(
    alloc: Global,
    mut store: FileStore<D>,
) -> Result<Connection<FileStore<D>>, (Error, FileStore<D>)>
    requires { IsClean (view store) → IsTrue (view store).is_open → IsFresh (view store) }
    ensures open { IfOk result (λ c. HasCleanDisk (file_state c) → IsTrue (view store).is_open) }
    ensures clean { IfOk result (λ c. doubt (view store).is_clean ≤ doubt (file_state c).is_clean) }
    ensures opens { IfOk result (λ c. HasCleanDisk (file_state c) → Opens (file_state c) × IsLive (file_state c)) }
    ensures trees { IfOk result (λ c. HasCleanDisk (file_state c) → (file_state c).now.trees ≡ (view store).trees) }
    ensures full { IfErr result (λ e. e.0 ≡ Error.SqliteFailure ErrorCode.DiskFull) }
    ensures doubts { IfErr result (λ e. doubt (view store).is_clean ≤ doubt (view e.1).is_clean) }
    ensures counts { IfErr result (λ e. faults store ≤ faults e.1) }
    ensures left { IfErr result (λ e. (trees : Trees) → recovers e.1 trees → recovers store trees) }
{
    if is_open(&mut store) {
        match Connection::over(alloc, store) {
            Ok(conn) => Ok(conn),
            Err((_, store)) => Err((FULL, store)),
        }
    } else {
        Err((FULL, store))
    }
}

/// The connection once its log is copied into its file, or where the disk has no room for that, as it was. Where it can be neither, a
/// crash leaves what it could leave before.
pub fn copied<D: Disk + Drop>(
    alloc: Global,
    conn: Connection<FileStore<D>>,
) -> Result<Connection<FileStore<D>>, (Error, FileStore<D>)>
    ensures ok { IfOk result (λ c. IsCopy (file_state conn) (file_state c)) }
    ensures file { IfOk result (λ c. IsInFile c ⊎ HasNoRoom c) }
    ensures cause { IfErr result (λ e. FailsToCopy conn e.1 e.0) }
    ensures left { IfErr result (λ e. (trees : Trees) → recovers e.1 trees → (file_state conn).may_leave trees) }
{
    let mut store = conn.into_store();
    // Again, for what only this store's rollback says of the log.
    store.rollback();
    match store.checkpoint() {
        Ok(()) => match Connection::over(alloc, store) {
            Ok(conn) => Ok(conn),
            Err((error, store)) => Err((error, store)),
        },
        Err(StoreError::Full) => match uncopied(alloc, store) {
            Ok(conn) => Ok(conn),
            Err((error, store)) => Err((error, store)),
        },
        Err(error) => Err((error_of(error), store)),
    }
}
