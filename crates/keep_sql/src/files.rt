//! Keepers over files and in memory.

ghost use Rattle.std.specs.Prelude.{◌≡◌, ◌⊎◌, true, false, IfOk, IfErr, IsErrOf, IsTrue};
ghost use Rattle.sqlite.specs.State.{HasCleanDisk};
ghost use Rattle.sqlite.specs.Held.{state};
ghost use Rattle.sqlite.specs.Files.{file_state, image_of, over_files};
ghost use Rattle.pin_record.specs.Records.{new_record};
ghost use Rattle.keep.specs.Contents.{Contents, new_contents};
ghost use Rattle.keep.specs.Keeping.{Begins};
ghost use Rattle.keep.specs.declared.keep.KeepFault.TheVariants.{Damaged};
ghost use Rattle.sql_statements.specs.Tables.{no_schema};
ghost use Rattle.keep_sql_model.specs.Formats.{HoldsEither};
ghost use Rattle.keep_sql_model.specs.Opening.{Adopts, Opened, is_blank};
ghost use Rattle.keep_sql_model.specs.OpenedFile.{HasNoRoom, IsInFile, OpenedFile};
ghost use Rattle.keep_sql_model.specs.SqlState.{sql_terms};
ghost use Rattle.keep_sql.specs.Refusal.{Leaves, LeavesConnection};

use crate::inspecting::inspect;
use crate::opening::lacks_tables;
use crate::refusal::{Left, OpenFault, Refused};
use crate::sql_keep::{SqlKeep, with_record};
use keep::{Keep, KeepFault};
use sql_copying::copied;
use sqlite::{Alter, Connection, FileStore, Files, MemStore, Options};
use sqlite_disk::Disk;
use std::alloc::Global;

/// How many frames the log has, at most, before a change first copies it into the file.
pub const LOG_FRAMES: usize = 64;

/// The keeper over a connection that nobody wants back.
fn adopt<S: Alter + Drop>(alloc: Global, conn: Connection<S>) -> Result<SqlKeep<S>, KeepFault>
    ensures opened { IfOk result (λ k. Opened (state S.Store conn) (state S.Store k.conn) k.token_record) }
    ensures found { (c : Contents) → HoldsEither (state S.Store conn) c
        → IfOk result (λ k. HasCleanDisk (state S.Store k.conn) → Adopts (sql_terms S.Store) k c) }
    ensures fresh { (state S.Store conn).now.schema ≡ no_schema
        → IfOk result (λ k. HasCleanDisk (state S.Store k.conn) → Adopts (sql_terms S.Store) k (new_contents new_record)) }
    ensures counts { IfOk result (λ k. (k.failures ≡ 0) × (k.tried ≡ 0)) }
    ensures undamaged { (state S.Store conn).now.schema ≡ no_schema → ((h : _) → HasCleanDisk (state S.Store h)) → IsErrOf result Damaged → ⊥ }
{
    match SqlKeep::from_connection(alloc, conn) {
        Ok(keep) => Ok(keep),
        Err((fault, _)) => Err(fault),
    }
}

/// The options of a connection to a token's store.
pub fn store_options(seed: u64) -> Options
    ensures seed { result.seed ≡ seed }
    ensures log { result.checkpoint_frames ≡ 64 }
{
    let mut options = Options::new(seed);
    options.checkpoint_frames = LOG_FRAMES;
    options
}

/// The keeper over a connection to files, once the log is copied into the database file, if the disk has room for that.
fn settle<D: Disk + Drop>(
    alloc: Global,
    conn: Connection<FileStore<D>>,
) -> Result<SqlKeep<FileStore<D>>, (OpenFault, Left<D>)>
    ensures opened { IfOk result (λ k. Opened (file_state conn) (file_state k.conn) k.token_record) }
    ensures found { (c : Contents) → HoldsEither (file_state conn) c → IfOk result (λ k. HasCleanDisk (file_state k.conn) → Adopts (sql_terms over_files) k c) }
    ensures fresh { (file_state conn).now.schema ≡ no_schema
        → IfOk result (λ k. HasCleanDisk (file_state k.conn) → Adopts (sql_terms over_files) k (new_contents new_record)) }
    ensures file { IfOk result (λ k. IsInFile k.conn ⊎ HasNoRoom k.conn) }
    ensures counts { IfOk result (λ k. (k.failures ≡ 0) × (k.tried ≡ 0)) }
    ensures leaves { IfErr result (λ e. LeavesConnection conn e.0 e.1) }
{
    let keep = match SqlKeep::from_connection(alloc, conn) {
        Ok(keep) => keep,
        Err((fault, conn)) => return Err((OpenFault::Keeper(fault), Left::Connection(conn))),
    };
    let (conn, token_record) = keep.into_parts();
    match copied(alloc, conn) {
        Ok(conn) => Ok(with_record(alloc, conn, token_record)),
        Err((error, store)) => Err((OpenFault::Sqlite(error), Left::Store(store))),
    }
}

/// Whether a connection is one to a store, or to files that a first opening left.
fn is_ours<S: Alter>(conn: &Connection<S>, is_first: bool) -> bool
    ensures ours { IsTrue result → (state S.Store conn.now).now.schema ≡ no_schema → IsTrue is_first }
    ensures not_ours { result ≡ false → (is_first ≡ false) × (is_blank (state S.Store conn.now).now.schema ≡ true) }
{
    is_first || !lacks_tables(conn)
}

impl<D: Disk + Drop> SqlKeep<FileStore<D>> {
    /// Opens the store in two files, or makes it where they are what a first opening leaves. New files get the sums of SQLite's
    /// cksumvfs on their pages; older ones go on without. The log is copied into the file before this returns, if the disk has room for that.
    ///
    /// A refusal is why, and what is left of the files. For what the files hold: `FileLost`, `LogDamaged`, `NoTables`, what sqlite
    /// returns for files that are no sound database, and `Damaged` as `from_connection` has it. The database file is not written then.
    pub fn open_files(
        alloc: Global,
        mut files: Files<D>,
        options: Options,
    ) -> Result<Self, Refused<D>>
        requires log { IsTrue (D.Disk.is_usable files.log) }
        requires db { IsTrue (D.Disk.is_usable files.db) }
        ensures opened { IfOk result (OpenedFile (image_of D.Disk files)) }
        ensures leaves { IfErr result (λ r. Leaves files r.fault r.left) }
    {
        let found = match inspect(alloc, &mut files) {
            Ok(found) => found,
            Err(fault) => {
                return Err(Refused {
                    fault,
                    left: Left::Files(files),
                    log: None,
                });
            }
        };
        let conn = match Connection::open_files_with(alloc, files, options, true) {
            Ok(conn) => conn,
            Err((error, left)) => {
                return Err(Refused {
                    fault: OpenFault::Sqlite(error),
                    left: Left::Sqlite(left),
                    log: Some(found.log),
                });
            }
        };
        if !is_ours(&conn, found.is_first) {
            return Err(Refused {
                fault: OpenFault::NoTables,
                left: Left::Connection(conn),
                log: Some(found.log),
            });
        }
        match settle(alloc, conn) {
            Ok(keep) => Ok(keep),
            Err((fault, left)) => Err(Refused {
                fault,
                left,
                log: Some(found.log),
            }),
        }
    }
}

impl SqlKeep<MemStore> {
    /// A new store in memory.
    pub fn in_memory(alloc: Global) -> Result<Self, KeepFault>
        ensures undamaged { IsErrOf result Damaged → ⊥ }
        ensures begins { IfOk result (λ k. Begins ⟦<SqlKeep<MemStore> as Keep>⟧.terms k (new_contents new_record)) }
    {
        match Connection::open_in_memory(alloc) {
            Ok(conn) => adopt(alloc, conn),
            Err(_) => Err(KeepFault::Memory),
        }
    }
}
