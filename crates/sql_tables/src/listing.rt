//! Whole tables as rows.

ghost use Rattle.std.specs.Prelude.{◌≡◌, [], ◌∷◌, map, pos, IfOk, OnOk, IsTrue};
ghost use Rattle.std.specs.List.Sorted.{IsPermutation};
ghost use Rattle.sqlite.specs.declared.types.Value.TheVariants.{Int};
ghost use Rattle.sqlite.specs.Effect.{Database, Reads};
ghost use Rattle.sqlite.specs.State.{HasCleanDisk};
ghost use Rattle.sqlite.specs.Held.{state};
ghost use Rattle.sql_statements.specs.Bodies.{Bodies, row_ids};
ghost use Rattle.sql_statements.specs.Store.{HoldsRows, IsQuery, OnlyReads, RowsStayed, SeesTables, command};
ghost use Rattle.sql_statements.specs.Rows.{bodies, ids_and_bodies};

use crate::statements::ensure_open;
use sql_statements::{READ_IDS, READ_OBJECTS, READ_RECORD};
use sqlite::{Alter, Connection, Error, Row};

/// All rows of a query, at once.
fn read_all<S: Alter>(conn: &mut Connection<S>, sql: &str) -> Result<Vec<Row>, Error>
    ensures rows { IsQuery sql.now → HasCleanDisk (state S.Store conn.new) → (db : Database) → SeesTables (state S.Store conn.old) db
        → IfOk result (λ rows. Reads (command sql.now) db [] rows.items) }
    ensures open { IsQuery sql.now → HasCleanDisk (state S.Store conn.new) → (db : Database) → SeesTables (state S.Store conn.old) db
        → OnOk result (IsTrue (state S.Store conn.new).is_open) }
    ensures same { IsQuery sql.now → OnlyReads (state S.Store conn.old) (state S.Store conn.new) }
{
    ensure_open(conn, sql)?;
    conn.query_all(sql, &[])
}

/// The ids of all objects, in order, one a row. It writes nothing.
pub fn read_ids<S: Alter>(conn: &mut Connection<S>) -> Result<Vec<Row>, Error>
    ensures ids { HasCleanDisk (state S.Store conn.new) → (b : Bodies) → HoldsRows (state S.Store conn.old) b
        → IfOk result (λ rows. rows.items ≡ map (λ id. Int (pos id) ∷ []) (row_ids b)) }
    ensures open { HasCleanDisk (state S.Store conn.new) → (b : Bodies) → HoldsRows (state S.Store conn.old) b
        → OnOk result (IsTrue (state S.Store conn.new).is_open) }
    ensures same { RowsStayed (state S.Store conn.old) (state S.Store conn.new) }
{
    read_all(conn, READ_IDS)
}

/// The body in each row of the record's table, in any order. It writes nothing.
pub fn read_record_bodies<S: Alter>(conn: &mut Connection<S>) -> Result<Vec<Row>, Error>
    ensures rows { HasCleanDisk (state S.Store conn.new) → (db : Database) → SeesTables (state S.Store conn.old) db
        → IfOk result (λ rows. IsPermutation (bodies (db.trees 0)) rows.items) }
    ensures open { HasCleanDisk (state S.Store conn.new) → (db : Database) → SeesTables (state S.Store conn.old) db
        → OnOk result (IsTrue (state S.Store conn.new).is_open) }
    ensures same { OnlyReads (state S.Store conn.old) (state S.Store conn.new) }
{
    read_all(conn, READ_RECORD)
}

/// The id and the body in each row of the objects' table, in any order. It writes nothing.
pub fn read_ids_and_bodies<S: Alter>(conn: &mut Connection<S>) -> Result<Vec<Row>, Error>
    ensures rows { HasCleanDisk (state S.Store conn.new) → (db : Database) → SeesTables (state S.Store conn.old) db
        → IfOk result (λ rows. IsPermutation (ids_and_bodies (db.trees 1)) rows.items) }
    ensures open { HasCleanDisk (state S.Store conn.new) → (db : Database) → SeesTables (state S.Store conn.old) db
        → OnOk result (IsTrue (state S.Store conn.new).is_open) }
    ensures same { OnlyReads (state S.Store conn.old) (state S.Store conn.new) }
{
    read_all(conn, READ_OBJECTS)
}
