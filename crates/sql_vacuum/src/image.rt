//! The bytes of a new database file.

ghost use Rattle.std.specs.Prelude.{◌≡◌, IfOk};
ghost use Rattle.sqlite_trees.specs.View.{IsClean, IsQuiet};
ghost use Rattle.sql_statements.specs.Bodies.{Bodies};
ghost use Rattle.sql_statements.specs.Store.{HasRows};
ghost use Rattle.sql_vacuum.specs.FileOf.{IsFileOf};

use crate::filling::filled;
use sqlite::{Error, ErrorCode};
use sqlite_trees::store::Store;
use std::alloc::Global;

/// A copy of the bytes.
fn copy_of(alloc: Global, bytes: &[u8]) -> Result<Vec<u8>, Error>
    ensures { IfOk result (λ copy. copy.items ≡ bytes.now) }
{
    match Vec::from_slice(alloc, bytes) {
        Ok(copy) => Ok(copy),
        Err(_) => Err(Error::SqliteFailure(ErrorCode::OutOfMemory)),
    }
}

/// The bytes of a new database file with the rows of a token's store and a user version, and nothing else of the store. With no log
/// beside it the file is a database with these rows. An error of the store, or for memory.
pub fn vacuumed<A: Store>(alloc: Global, from: &mut A, version: u32) -> Result<Vec<u8>, Error>
    ensures file { IfOk result (λ bytes. IsClean (A.Store.view from.new) → (b : Bodies) → HasRows (A.Store.view from.old).trees b
        → IsFileOf bytes.items b version) }
    ensures from { IsQuiet A.Store.view A.Store.faults A.Store.recovers A.Store.is_shielded from.old from.new }
{
    let conn = filled(alloc, from, version)?;
    match conn.close_files() {
        Ok(files) => copy_of(alloc, files.db.bytes()),
        Err((error, store)) => {
            drop(store.close());
            Err(error)
        }
    }
}
