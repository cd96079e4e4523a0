//! A new database in memory, with the rows of a store's tables.

ghost use Rattle.std.specs.Prelude.{◌≡◌, ◌≤◌, IsTrue, IfOk, OnOk};
ghost use Rattle.sqlite.specs.Files.{file_state, over_files};
ghost use Rattle.sqlite.specs.Held.{state};
ghost use Rattle.sqlite.specs.State.{HasCleanDisk};
ghost use Rattle.sqlite.specs.Steps.{IsFresh};
ghost use Rattle.sqlite_store.specs.FileStore.{view};
ghost use Rattle.sqlite_trees.specs.Objects.{version_rows, version_tree};
ghost use Rattle.sqlite_trees.specs.View.{IsClean, IsQuiet, doubt};
ghost use Rattle.sql_statements.specs.Bodies.{Bodies};
ghost use Rattle.sql_statements.specs.Store.{HasRows, IsAtRows};
ghost use Rattle.sql_statements.specs.Tables.{no_schema};
ghost use Rattle.sql_vacuum.specs.Filled.{IsNewStore, PutsTables};

use crate::copying::copy_trees;
use crate::faults::error_of;
use sql_tables::make_tables;
use sqlite::{Alter, Connection, Error, ErrorCode, FileStore, Files, Options};
use sqlite_disk::Memory;
use sqlite_trees::error::StoreError;
use sqlite_trees::store::Store;
use std::alloc::Global;

const NOT_MADE: Error = Error::SqliteFailure(ErrorCode::NotADatabase);

/// How many trees there are: the two tables, and sqlite's table of counters.
const TREES: u32 = 3;

/// Whether there is no table, index or view.
fn is_empty<S: Alter>(conn: &Connection<S>) -> bool
    ensures { IsTrue result → (state S.Store conn.now).now.schema ≡ no_schema }
{
    let schema = conn.schema();
    schema.tables.as_slice().is_empty()
        && schema.indexes.as_slice().is_empty()
        && schema.views.as_slice().is_empty()
}

fn if_empty(conn: Connection<FileStore<Memory>>) -> Result<Connection<FileStore<Memory>>, Error>
    ensures { IfOk result (λ conn. (file_state conn).now.schema ≡ no_schema) }
{
    if is_empty(&conn) {
        Ok(conn)
    } else {
        Err(NOT_MADE)
    }
}

/// A connection to a new database in memory, whose pages are to end in sums.
fn new_database(alloc: Global) -> Result<Connection<FileStore<Memory>>, Error>
    ensures { IfOk result (λ conn. (file_state conn).now.schema ≡ no_schema) }
{
    let files = Files {
        log: Memory::new(alloc),
        db: Memory::new(alloc),
    };
    match Connection::open_files_with(alloc, files, Options::new(0), true) {
        Ok(conn) => if_empty(conn),
        Err((error, _left)) => Err(error),
    }
}

/// The store of a connection, with its log copied into its file.
fn settled(conn: Connection<FileStore<Memory>>) -> Result<FileStore<Memory>, Error>
    ensures clean { IfOk result (λ store. doubt (file_state conn).is_clean ≤ doubt (view store).is_clean) }
    ensures fresh { IfOk result (λ store. IsClean (view store) → IsFresh (view store)) }
    ensures trees { IfOk result (λ store. IsClean (view store) → (view store).trees ≡ (file_state conn).committed.trees) }
{
    let mut store = conn.into_store();
    match store.checkpoint() {
        Ok(()) => Ok(store),
        Err(error) => {
            drop(store.close());
            Err(error_of(error))
        }
    }
}

/// The same with the two tables, and a row of the record whose body has no bytes.
fn new_store(alloc: Global) -> Result<FileStore<Memory>, Error>
    ensures { IfOk result (λ store. IsClean (view store) → IsNewStore (view store)) }
{
    let mut conn = new_database(alloc)?;
    match make_tables(&mut conn, &[]) {
        Ok(true) => settled(conn),
        Ok(false) => Err(NOT_MADE),
        Err(error) => Err(error),
    }
}

/// Puts the rows of a store's tables into another one, with a user version, and commits.
fn fill<A: Store, B: Alter>(
    alloc: Global,
    from: &mut A,
    to: &mut B,
    version: u32,
) -> Result<(), StoreError>
    ensures ok { OnOk result (IsClean (A.Store.view from.new) → IsClean (B.Store.view to.new)
        → PutsTables (A.Store.view from.old) (B.Store.view to.old) (B.Store.view to.new) version) }
    ensures fresh { OnOk result (IsClean (B.Store.view to.new) → IsFresh (B.Store.view to.old) → IsFresh (B.Store.view to.new)) }
    ensures from { IsQuiet A.Store.view A.Store.faults A.Store.recovers A.Store.is_shielded from.old from.new }
    ensures clean { doubt (B.Store.view to.old).is_clean ≤ doubt (B.Store.view to.new).is_clean }
{
    copy_trees(alloc, from, to, TREES)?;
    to.set_version(version)?;
    to.commit()
}

/// A connection to a new database in memory that has the rows of a store's tables and a user version, and nothing else of the store.
pub(crate) fn filled<A: Store>(
    alloc: Global,
    from: &mut A,
    version: u32,
) -> Result<Connection<FileStore<Memory>>, Error>
    ensures ok { IfOk result (λ conn. HasCleanDisk (file_state conn) → IsClean (A.Store.view from.new) → (b : Bodies)
        → HasRows (A.Store.view from.old).trees b → IsAtRows (file_state conn) b) }
    ensures version { IfOk result (λ conn. HasCleanDisk (file_state conn) → IsClean (A.Store.view from.new)
        → (file_state conn).now.trees version_tree ≡ version_rows version) }
    ensures from { IsQuiet A.Store.view A.Store.faults A.Store.recovers A.Store.is_shielded from.old from.new }
{
    let mut to = new_store(alloc)?;
    if let Err(error) = fill(alloc, from, &mut to, version) {
        return Err(error_of(error));
    }
    match Connection::over(alloc, to) {
        Ok(conn) => Ok(conn),
        Err((error, _store)) => Err(error),
    }
}
