//! The statements on one row, one a function, and the reset.
//!
//! Each is sent only where the connection was found open: of a connection that is shut sqlite says nothing.

ghost use Rattle.std.specs.Prelude.{◌≡◌, ◌+◌, ◌<◌, ◌≤◌, ◌^◌, false, true, ℕ, List, pos, IfOk, IfErr, OnOk, OnErr, IsTrue};
ghost use Rattle.std.specs.Prelude.{[], ◌∷◌};
ghost use Rattle.sqlite.specs.declared.types.Value.TheVariants.{Blob, Int};
ghost use Rattle.sqlite.specs.declared.error.Error.TheVariants.{SqliteFailure};
ghost use Rattle.sqlite.specs.declared.error.ErrorCode.TheVariants.{Closed};
ghost use Rattle.sqlite.specs.State.{HasCleanDisk, Executes, QueriesRow, Survives, CommitsBy, CommitsShowing};
ghost use Rattle.sqlite.specs.Held.{state};
ghost use Rattle.sql_statements.specs.Bodies.{Bodies, bodies_after_reset, greatest_row_id, with_body, with_body_at, bodies_with_record, without_body};
ghost use Rattle.sql_statements.specs.Store.{Committed, HoldsRows, IsReady, RowsChanged, RowsFailed, RowsStayed, ShowsBody, Uncommitted, Unwritten};

use crate::transactions::{TwoStatements, run_all};
use sql_statements::{
    CLEAR_OBJECTS, INSERT_OBJECT, READ_OBJECT, REMOVE_OBJECT, REPLACE_OBJECT, SET_RECORD,
};
use sqlite::{Alter, Connection, Error, Row, params};

fn insert_row<S: Alter>(conn: &mut Connection<S>, bytes: &[u8]) -> Result<usize, Error>
    ensures ok { OnOk result (Committed (state S.Store conn.old) (state S.Store conn.new) (with_body bytes.now)) }
    ensures err { OnErr result (Uncommitted (state S.Store conn.old) (state S.Store conn.new) (with_body bytes.now)) }
    ensures id { HasCleanDisk (state S.Store conn.new) → (b : Bodies) → IsReady (state S.Store conn.old)
        → HoldsRows (state S.Store conn.old) b → OnOk result ((state S.Store conn.new).last_rowid ≡ pos (b.last_id + 1)) }
{
    conn.execute(INSERT_OBJECT, params![bytes])
}

fn set_row<S: Alter>(conn: &mut Connection<S>, bytes: &[u8]) -> Result<usize, Error>
    ensures ok { OnOk result (Committed (state S.Store conn.old) (state S.Store conn.new) (bodies_with_record bytes.now)) }
    ensures err { OnErr result (Uncommitted (state S.Store conn.old) (state S.Store conn.new) (bodies_with_record bytes.now)) }
{
    conn.execute(SET_RECORD, params![bytes])
}

// The cast of an id is hidden by these clauses.
fn delete_by<S: Alter>(conn: &mut Connection<S>, id: u64) -> Result<usize, Error>
    requires { id < 2 ^ 63 }
    ensures runs { HasCleanDisk (state S.Store conn.new)
        → Executes REMOVE_OBJECT.now (Int (pos id) ∷ []) (state S.Store conn.old) (state S.Store conn.new) result }
    ensures survives { Survives (state S.Store conn.old) (state S.Store conn.new) (CommitsBy REMOVE_OBJECT.now (Int (pos id) ∷ []) (state S.Store conn.old)) }
{
    let id = id as i64;
    conn.execute(REMOVE_OBJECT, params![id])
}

fn replace_by<S: Alter>(conn: &mut Connection<S>, id: u64, bytes: &[u8]) -> Result<usize, Error>
    requires { id < 2 ^ 63 }
    ensures runs { HasCleanDisk (state S.Store conn.new)
        → Executes REPLACE_OBJECT.now (Int (pos id) ∷ Blob bytes.now ∷ []) (state S.Store conn.old) (state S.Store conn.new) result }
    ensures survives { Survives (state S.Store conn.old) (state S.Store conn.new)
        (CommitsBy REPLACE_OBJECT.now (Int (pos id) ∷ Blob bytes.now ∷ []) (state S.Store conn.old)) }
{
    let id = id as i64;
    conn.execute(REPLACE_OBJECT, params![id, bytes])
}

fn read_by<S: Alter>(conn: &mut Connection<S>, id: u64) -> Result<Row, Error>
    requires { id < 2 ^ 63 }
    ensures row { HasCleanDisk (state S.Store conn.new)
        → QueriesRow READ_OBJECT.now (Int (pos id) ∷ []) (state S.Store conn.old) (state S.Store conn.new) result }
    ensures survives { Survives (state S.Store conn.old) (state S.Store conn.new)
        (CommitsShowing READ_OBJECT.now (Int (pos id) ∷ []) (state S.Store conn.old)) }
{
    let id = id as i64;
    conn.query_row(READ_OBJECT, params![id])
}

fn remove_row<S: Alter>(conn: &mut Connection<S>, id: u64) -> Result<usize, Error>
    requires { id < 2 ^ 63 }
    ensures ok { OnOk result (Committed (state S.Store conn.old) (state S.Store conn.new) (without_body id)) }
    ensures err { OnErr result (Uncommitted (state S.Store conn.old) (state S.Store conn.new) (without_body id)) }
{
    delete_by(conn, id)
}

fn replace_row<S: Alter>(conn: &mut Connection<S>, id: u64, bytes: &[u8]) -> Result<usize, Error>
    requires { id < 2 ^ 63 }
    ensures ok { OnOk result (Committed (state S.Store conn.old) (state S.Store conn.new) (with_body_at id bytes.now)) }
    ensures err { OnErr result (Uncommitted (state S.Store conn.old) (state S.Store conn.new) (with_body_at id bytes.now)) }
{
    replace_by(conn, id, bytes)
}

/// Prepares a statement that is not run. An error where the connection is shut (`Closed`), where an allocation
/// fails, or where sqlite refuses the text. It writes nothing.
pub fn ensure_open<S: Alter>(conn: &mut Connection<S>, sql: &str) -> Result<(), Error>
    ensures kept { Unwritten (state S.Store conn.old) (state S.Store conn.new) }
    ensures open { OnOk result (IsReady (state S.Store conn.new)) }
    ensures shut { HasCleanDisk (state S.Store conn.new) → IfErr result (λ e. e ≡ SqliteFailure Closed → (state S.Store conn.old).is_open ≡ false) }
    ensures mode { conn.old.in_transaction ≡ false → conn.new.in_transaction ≡ false }
{
    conn.prepare(sql)?;
    Ok(())
}

/// The id of the object that was inserted last.
fn last_id<S: Alter>(conn: &Connection<S>) -> u64
    ensures value { (n : ℕ) → (state S.Store conn.now).last_rowid ≡ pos n → result ≡ n }
    ensures limit { result ≤ greatest_row_id }
{
    let id = conn.last_insert_rowid();
    if id < 0 { 0 } else { id as u64 }
}

/// Adds a row with a body to the objects' table, and returns its id, which is one more than the greatest ever
/// given. An error where the connection is shut or sqlite refused; the tables are as they were then.
pub fn insert_object<S: Alter>(conn: &mut Connection<S>, bytes: &[u8]) -> Result<u64, Error>
    ensures ok { OnOk result (RowsChanged (state S.Store conn.old) (state S.Store conn.new) (with_body bytes.now)) }
    ensures err { OnErr result (RowsFailed (state S.Store conn.old) (state S.Store conn.new) (with_body bytes.now)) }
    ensures id { HasCleanDisk (state S.Store conn.new) → (b : Bodies) → HoldsRows (state S.Store conn.old) b → IfOk result (λ id. id ≡ b.last_id + 1) }
    ensures limit { IfOk result (λ id. id ≤ greatest_row_id) }
{
    ensure_open(conn, INSERT_OBJECT)?;
    insert_row(conn, bytes)?;
    Ok(last_id(conn))
}

/// Takes out the rows of all objects, and puts another body in the row of the record, in one transaction.
/// `false` where a transaction was open. An error where the connection is shut or sqlite refused. The
/// tables are as they were in both cases.
pub fn reset_rows<S: Alter>(conn: &mut Connection<S>, bytes: &[u8]) -> Result<bool, Error>
    ensures made { IfOk result (λ done. IsTrue done → RowsChanged (state S.Store conn.old) (state S.Store conn.new) (bodies_after_reset bytes.now)) }
    ensures busy { IfOk result (λ done. done ≡ false → conn.old.in_transaction ≡ true) }
    ensures refused { IfOk result (λ done. done ≡ false → RowsFailed (state S.Store conn.old) (state S.Store conn.new) (bodies_after_reset bytes.now)) }
    ensures err { OnErr result (RowsFailed (state S.Store conn.old) (state S.Store conn.new) (bodies_after_reset bytes.now)) }
{
    ensure_open(conn, CLEAR_OBJECTS)?;
    run_all(
        conn,
        &TwoStatements {
            first: CLEAR_OBJECTS,
            second: SET_RECORD,
            bytes,
        },
    )
}

/// Puts another body in the row of the record. An error where the connection is shut or sqlite refused; the
/// tables are as they were then.
pub fn put_record<S: Alter>(conn: &mut Connection<S>, bytes: &[u8]) -> Result<(), Error>
    ensures ok { OnOk result (RowsChanged (state S.Store conn.old) (state S.Store conn.new) (bodies_with_record bytes.now)) }
    ensures err { OnErr result (RowsFailed (state S.Store conn.old) (state S.Store conn.new) (bodies_with_record bytes.now)) }
{
    ensure_open(conn, SET_RECORD)?;
    set_row(conn, bytes)?;
    Ok(())
}

/// Takes out the row with an id, where it is there. An error where the connection is shut or sqlite refused;
/// the tables are as they were then.
pub fn remove_object<S: Alter>(conn: &mut Connection<S>, id: u64) -> Result<(), Error>
    requires { id < 2 ^ 63 }
    ensures ok { OnOk result (RowsChanged (state S.Store conn.old) (state S.Store conn.new) (without_body id)) }
    ensures err { OnErr result (RowsFailed (state S.Store conn.old) (state S.Store conn.new) (without_body id)) }
{
    ensure_open(conn, REMOVE_OBJECT)?;
    remove_row(conn, id)?;
    Ok(())
}

/// Puts another body in the row with an id, where it is there. An error where the connection is shut or
/// sqlite refused; the tables are as they were then.
pub fn replace_object<S: Alter>(
    conn: &mut Connection<S>,
    id: u64,
    bytes: &[u8],
) -> Result<(), Error>
    requires { id < 2 ^ 63 }
    ensures ok { OnOk result (RowsChanged (state S.Store conn.old) (state S.Store conn.new) (with_body_at id bytes.now)) }
    ensures err { OnErr result (RowsFailed (state S.Store conn.old) (state S.Store conn.new) (with_body_at id bytes.now)) }
{
    ensure_open(conn, REPLACE_OBJECT)?;
    replace_row(conn, id, bytes)?;
    Ok(())
}

/// The body in the row with an id, as a row of one column. An error where no row has the id, and where the
/// connection is shut or sqlite refused. It writes nothing.
pub fn read_row<S: Alter>(conn: &mut Connection<S>, id: u64) -> Result<Row, Error>
    requires { id < 2 ^ 63 }
    ensures found { HasCleanDisk (state S.Store conn.new) → (b : Bodies) → HoldsRows (state S.Store conn.old) b → IfOk result (λ row. ShowsBody b id row) }
    ensures open { HasCleanDisk (state S.Store conn.new) → OnOk result (IsTrue (state S.Store conn.old).is_open) }
    ensures same { RowsStayed (state S.Store conn.old) (state S.Store conn.new) }
{
    ensure_open(conn, READ_OBJECT)?;
    read_by(conn, id)
}
