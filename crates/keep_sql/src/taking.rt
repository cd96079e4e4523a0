//! Taking over a store that is there: each body is read, and those of format 1 are written again in format 2.

ghost use Rattle.std.specs.Prelude.{◌≡◌, ◌≤◌, ◌⊎◌, true, false, All, IsTrue, IfOk, IfErr, OnOk, OnErr, IsErrOf};
ghost use Rattle.sqlite.specs.Effect.{Database};
ghost use Rattle.sqlite.specs.Tree.{Trees};
ghost use Rattle.sqlite_trees.specs.View.{doubt};
ghost use Rattle.sqlite.specs.State.{HasCleanDisk};
ghost use Rattle.sqlite.specs.Held.{state};
ghost use Rattle.pin_record.specs.Records.{TokenRecord};
ghost use Rattle.keep.specs.declared.keep.KeepFault.TheVariants.{Damaged};
ghost use Rattle.keep.specs.Contents.{Contents};
ghost use Rattle.sql_statements.specs.Store.{IsReady, OnlyReads, Sees, SeesTables, ShowsNow};
ghost use Rattle.keep_sql_model.specs.Store.{IsAt, IsStore};
ghost use Rattle.keep_sql_model.specs.Formats.{IsAtEither};
ghost use Rattle.keep_sql_model.specs.Rows.{ShowRecordEither, ShowsEither};
ghost use Rattle.keep_sql_model.specs.Renewals.{FindsRecord, IsCovered, IsOfRow};
ghost use Rattle.keep_sql.specs.Found.{TablesFind, is_current as is_current_in};
ghost use Rattle.sql_statements.specs.Rows.{bodies, ids_and_bodies};
ghost use Rattle.keep_sql_model.specs.Opening.{AllDecode, NotOpened, Opened, has_tables};

use crate::rows::{check_rows, only_record};
use keep::KeepFault;
use pin_record::Record;
use sql_tables::{Renewal, read_ids_and_bodies, read_record_bodies, renew_bodies};
use sqlite::{Alter, Connection};
use std::alloc::Global;

/// What was read of a store.
#[derive(Drop)]
pub(crate) struct Found {
    pub(crate) token_record: Record,
    /// The record's body has format 1.
    pub(crate) is_old: bool,
    pub(crate) renewals: Vec<Renewal>,
}

/// The record, which stands in the only row of its table, and whether its body has format 1.
fn read_record<S: Alter>(conn: &mut Connection<S>) -> Result<(Record, bool), KeepFault>
    ensures same { OnlyReads (state S.Store conn.old) (state S.Store conn.new) }
    ensures ok { HasCleanDisk (state S.Store conn.new) → (db : Database) → SeesTables (state S.Store conn.old) db
        → IfOk result (λ r. FindsRecord (bodies (db.trees 0)) r.0 r.1) }
    ensures undamaged { HasCleanDisk (state S.Store conn.new) → (db : Database) → SeesTables (state S.Store conn.old) db → (r : TokenRecord)
        → ShowRecordEither (bodies (db.trees 0)) r → IsErrOf result Damaged → ⊥ }
{
    match read_record_bodies(conn) {
        Ok(rows) => only_record(rows.as_slice()),
        Err(_) => Err(KeepFault::Device),
    }
}

/// Tests the id and the body of each object, and returns the renewals of those of format 1.
fn read_objects<S: Alter>(
    alloc: Global,
    conn: &mut Connection<S>,
) -> Result<Vec<Renewal>, KeepFault>
    ensures same { OnlyReads (state S.Store conn.old) (state S.Store conn.new) }
    ensures open { HasCleanDisk (state S.Store conn.new) → (db : Database) → SeesTables (state S.Store conn.old) db
        → OnOk result (IsTrue (state S.Store conn.new).is_open) }
    ensures covered { HasCleanDisk (state S.Store conn.new) → (db : Database) → SeesTables (state S.Store conn.old) db
        → IfOk result (λ es. All (IsCovered es.items) (ids_and_bodies (db.trees 1))) }
    ensures own { HasCleanDisk (state S.Store conn.new) → (db : Database) → SeesTables (state S.Store conn.old) db
        → IfOk result (λ es. All (IsOfRow (ids_and_bodies (db.trees 1))) es.items) }
    ensures undamaged { HasCleanDisk (state S.Store conn.new) → (db : Database) → SeesTables (state S.Store conn.old) db
        → All ShowsEither (ids_and_bodies (db.trees 1)) → IsErrOf result Damaged → ⊥ }
{
    match read_ids_and_bodies(conn) {
        Ok(rows) => check_rows(alloc, rows.as_slice()),
        Err(_) => Err(KeepFault::Device),
    }
}

/// Reads the whole store.
fn read_store<S: Alter>(alloc: Global, conn: &mut Connection<S>) -> Result<Found, KeepFault>
    ensures same { OnlyReads (state S.Store conn.old) (state S.Store conn.new) }
    ensures ok { HasCleanDisk (state S.Store conn.new) → (db : Database) → SeesTables (state S.Store conn.old) db
        → IfOk result (λ f. IsTrue (state S.Store conn.new).is_open × TablesFind db.trees f) }
    ensures undamaged { HasCleanDisk (state S.Store conn.new) → (db : Database) → SeesTables (state S.Store conn.old) db → (r : TokenRecord)
        → AllDecode db.trees r → IsErrOf result Damaged → ⊥ }
{
    let (token_record, is_old) = read_record(conn)?;
    let renewals = read_objects(alloc, conn)?;
    Ok(Found {
        token_record,
        is_old,
        renewals,
    })
}

/// Whether each body has format 2.
fn is_current(found: &Found) -> bool
    ensures { result ≡ is_current_in found.now }
{
    !found.is_old && found.renewals.is_empty()
}

/// Writes the bodies of format 1 again, and the record, in one transaction.
fn renew<S: Alter>(alloc: Global, conn: &mut Connection<S>, found: &Found) -> Result<(), KeepFault>
    ensures clean { doubt (state S.Store conn.old).is_clean ≤ doubt (state S.Store conn.new).is_clean }
    ensures made { (c : Contents) → IsAtEither (state S.Store conn.old) c → TablesFind (state S.Store conn.old).now.trees found.now
        → HasCleanDisk (state S.Store conn.new)
        → OnOk result (IsTrue (state S.Store conn.new).is_open × IsAt (state S.Store conn.new) c) }
    ensures up { HasCleanDisk (state S.Store conn.new) → OnOk result (IsTrue (state S.Store conn.new).is_open) }
    ensures same { (db : Database) → IsReady (state S.Store conn.old) → Sees (state S.Store conn.old) db
        → HasCleanDisk (state S.Store conn.new) → IsTrue (state S.Store conn.new).is_open
        → OnErr result (ShowsNow (state S.Store conn.new) db) }
    ensures crash { (c : Contents) → IsAtEither (state S.Store conn.old) c → TablesFind (state S.Store conn.old).now.trees found.now
        → HasCleanDisk (state S.Store conn.new) → (left : Trees) → (state S.Store conn.new).may_leave left
        → (state S.Store conn.old).may_leave left ⊎ IsStore left c }
    ensures undamaged { IsErrOf result Damaged → ⊥ }
{
    let bytes = pin_record::encode(alloc, &found.token_record)?;
    match renew_bodies(conn, found.renewals.as_slice(), bytes.as_slice()) {
        Ok(true) => Ok(()),
        Ok(false) => Err(KeepFault::Device),
        Err(_) => Err(KeepFault::Device),
    }
}

/// Leaves each body in format 2, and returns the record.
fn make_current<S: Alter>(
    alloc: Global,
    conn: &mut Connection<S>,
    found: &Found,
) -> Result<Record, KeepFault>
    ensures record { IfOk result (λ r. r ≡ found.now.token_record) }
    ensures clean { doubt (state S.Store conn.old).is_clean ≤ doubt (state S.Store conn.new).is_clean }
    ensures made { (c : Contents) → IsReady (state S.Store conn.old) → IsAtEither (state S.Store conn.old) c
        → TablesFind (state S.Store conn.old).now.trees found.now → HasCleanDisk (state S.Store conn.new)
        → OnOk result (IsTrue (state S.Store conn.new).is_open × IsAt (state S.Store conn.new) c) }
    ensures up { IsReady (state S.Store conn.old) → HasCleanDisk (state S.Store conn.new) → OnOk result (IsTrue (state S.Store conn.new).is_open) }
    ensures same { (db : Database) → IsReady (state S.Store conn.old) → Sees (state S.Store conn.old) db
        → HasCleanDisk (state S.Store conn.new) → IsTrue (state S.Store conn.new).is_open
        → OnErr result (ShowsNow (state S.Store conn.new) db) }
    ensures crash { (c : Contents) → IsAtEither (state S.Store conn.old) c → TablesFind (state S.Store conn.old).now.trees found.now
        → HasCleanDisk (state S.Store conn.new) → (left : Trees) → (state S.Store conn.new).may_leave left
        → (state S.Store conn.old).may_leave left ⊎ IsStore left c }
    ensures old { OnErr result (is_current_in found.now ≡ false) }
    ensures undamaged { IsErrOf result Damaged → ⊥ }
{
    if is_current(found) {
        return Ok(found.token_record);
    }
    renew(alloc, conn, found)?;
    Ok(found.token_record)
}

/// Reads the whole store, leaves each body in format 2, and returns the record.
pub(crate) fn take_over<S: Alter>(
    alloc: Global,
    conn: &mut Connection<S>,
) -> Result<Record, KeepFault>
    ensures opened { IsReady (state S.Store conn.old) → Sees (state S.Store conn.old) (state S.Store conn.old).now
        → has_tables (state S.Store conn.old).now.schema ≡ true → IfOk result (Opened (state S.Store conn.old) (state S.Store conn.new)) }
    ensures not_opened { IsReady (state S.Store conn.old) → Sees (state S.Store conn.old) (state S.Store conn.old).now
        → has_tables (state S.Store conn.old).now.schema ≡ true → IfErr result (NotOpened (state S.Store conn.old) (state S.Store conn.new)) }
{
    let found = read_store(alloc, conn)?;
    make_current(alloc, conn, &found)
}
