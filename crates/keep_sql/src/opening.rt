//! Opening a store: a new one is made, and another one is taken over.

ghost use Rattle.std.specs.Prelude.{◌≡◌, ◌≤◌, ◌⊎◌, true, IsTrue, IfOk, IfErr, OnOk, OnErr, IsErrOf};
ghost use Rattle.sqlite.specs.Effect.{Database};
ghost use Rattle.sqlite.specs.Tree.{Trees};
ghost use Rattle.sqlite_trees.specs.View.{doubt};
ghost use Rattle.sqlite.specs.State.{HasCleanDisk};
ghost use Rattle.sqlite.specs.Held.{state};
ghost use Rattle.pin_record.specs.Records.{new_record};
ghost use Rattle.keep.specs.declared.keep.KeepFault.TheVariants.{Damaged};
ghost use Rattle.keep.specs.Contents.{new_contents};
ghost use Rattle.sql_statements.specs.Tables.{no_schema};
ghost use Rattle.sql_statements.specs.Store.{IsReady, Sees, ShowsNow};
ghost use Rattle.keep_sql_model.specs.Store.{IsAt, IsStore};
ghost use Rattle.keep_sql_model.specs.Opening.{NotOpened, Opened, has_tables as has_tables_in, is_blank, is_token_table as is_one_of_two};

use crate::taking::take_over;
use keep::KeepFault;
use pin_record::Record;
use sql_tables::{ensure_open, make_tables};
use sqlite::{Alter, Connection};
use sqlite_schema::schema::Table;
use std::alloc::Global;

fn is_token_table(table: &Table) -> bool
    ensures { result ≡ is_one_of_two table.now }
{
    let name = table.name.as_slice();
    name == b"record".as_slice() || name == b"objects".as_slice()
}

/// Whether one of the two tables is there, by its name.
fn has_tables<S: Alter>(conn: &Connection<S>) -> bool
    ensures { result ≡ has_tables_in (state S.Store conn.now).now.schema }
{
    let tables = conn.schema().tables.as_slice();
    tables.iter().any(|table| is_token_table(table))
}

/// Whether there is no table, index or view.
pub(crate) fn lacks_tables<S: Alter>(conn: &Connection<S>) -> bool
    ensures { result ≡ is_blank (state S.Store conn.now).now.schema }
{
    let schema = conn.schema();
    schema.tables.as_slice().is_empty()
        && schema.indexes.as_slice().is_empty()
        && schema.views.as_slice().is_empty()
}

/// Makes both tables and a record that isn't initialised, and returns it.
fn create<S: Alter>(alloc: Global, conn: &mut Connection<S>) -> Result<Record, KeepFault>
    ensures clean { doubt (state S.Store conn.old).is_clean ≤ doubt (state S.Store conn.new).is_clean }
    ensures made { (state S.Store conn.old).now.schema ≡ no_schema → HasCleanDisk (state S.Store conn.new)
        → IfOk result (λ r. IsTrue (state S.Store conn.new).is_open × IsAt (state S.Store conn.new) (new_contents new_record) × (r ≡ new_record)) }
    ensures same { (db : Database) → IsReady (state S.Store conn.old) → Sees (state S.Store conn.old) db
        → HasCleanDisk (state S.Store conn.new) → IsTrue (state S.Store conn.new).is_open
        → OnErr result (ShowsNow (state S.Store conn.new) db) }
    ensures crash { (state S.Store conn.old).now.schema ≡ no_schema → HasCleanDisk (state S.Store conn.new) → (left : Trees)
        → (state S.Store conn.new).may_leave left
        → (state S.Store conn.old).may_leave left ⊎ IsStore left (new_contents new_record) }
    ensures undamaged { IsErrOf result Damaged → ⊥ }
{
    let record = Record::new();
    let bytes = pin_record::encode(alloc, &record)?;
    match make_tables(conn, bytes.as_slice()) {
        Ok(true) => Ok(record),
        Ok(false) => Err(KeepFault::Device),
        Err(_) => Err(KeepFault::Device),
    }
}

/// Makes a new store where there is no table at all. `Damaged` where the tables are another program's.
fn make_new<S: Alter>(alloc: Global, conn: &mut Connection<S>) -> Result<Record, KeepFault>
    ensures clean { doubt (state S.Store conn.old).is_clean ≤ doubt (state S.Store conn.new).is_clean }
    ensures made { (state S.Store conn.old).now.schema ≡ no_schema → HasCleanDisk (state S.Store conn.new)
        → IfOk result (λ r. IsTrue (state S.Store conn.new).is_open × IsAt (state S.Store conn.new) (new_contents new_record) × (r ≡ new_record)) }
    ensures only { OnOk result (is_blank (state S.Store conn.old).now.schema ≡ true) }
    ensures same { (db : Database) → IsReady (state S.Store conn.old) → Sees (state S.Store conn.old) db
        → HasCleanDisk (state S.Store conn.new) → IsTrue (state S.Store conn.new).is_open
        → OnErr result (ShowsNow (state S.Store conn.new) db) }
    ensures crash { (state S.Store conn.old).now.schema ≡ no_schema → HasCleanDisk (state S.Store conn.new) → (left : Trees)
        → (state S.Store conn.new).may_leave left
        → (state S.Store conn.old).may_leave left ⊎ IsStore left (new_contents new_record) }
    ensures unwritten { IsErrOf result Damaged → conn.new ≡ conn.old }
    ensures undamaged { (state S.Store conn.old).now.schema ≡ no_schema → IsErrOf result Damaged → ⊥ }
{
    if lacks_tables(conn) {
        create(alloc, conn)
    } else {
        Err(KeepFault::Damaged)
    }
}

/// Opens a store over a connection that is open.
fn open_ready<S: Alter>(alloc: Global, conn: &mut Connection<S>) -> Result<Record, KeepFault>
    ensures opened { IsReady (state S.Store conn.old) → Sees (state S.Store conn.old) (state S.Store conn.old).now
        → IfOk result (Opened (state S.Store conn.old) (state S.Store conn.new)) }
    ensures not_opened { IsReady (state S.Store conn.old) → Sees (state S.Store conn.old) (state S.Store conn.old).now
        → IfErr result (NotOpened (state S.Store conn.old) (state S.Store conn.new)) }
{
    if has_tables(conn) {
        take_over(alloc, conn)
    } else {
        make_new(alloc, conn)
    }
}

/// Opens a store, and returns its record.
pub(crate) fn open_store<S: Alter>(
    alloc: Global,
    conn: &mut Connection<S>,
) -> Result<Record, KeepFault>
    ensures opened { IfOk result (Opened (state S.Store conn.old) (state S.Store conn.new)) }
    ensures not_opened { IfErr result (NotOpened (state S.Store conn.old) (state S.Store conn.new)) }
{
    if !conn.is_autocommit() {
        return Err(KeepFault::Device);
    }
    match ensure_open(conn, "SELECT 1") {
        Ok(()) => open_ready(alloc, conn),
        Err(_) => Err(KeepFault::Device),
    }
}
