//! A new store.

ghost use Rattle.std.specs.Prelude.{◌≡◌, ◌≤◌, ◌⊎◌, false, true, IsTrue, IfOk, OnErr};
ghost use Rattle.sqlite.specs.Effect.{Database};
ghost use Rattle.sqlite.specs.Tree.{Trees};
ghost use Rattle.sqlite_trees.specs.View.{doubt};
ghost use Rattle.sqlite.specs.State.{HasCleanDisk};
ghost use Rattle.sqlite.specs.Held.{state};
ghost use Rattle.sql_statements.specs.Bodies.{new_bodies};
ghost use Rattle.sql_statements.specs.Tables.{no_schema};
ghost use Rattle.sql_statements.specs.Store.{HasTables, IsAtRows, IsReady, Sees, ShowsNow};

use crate::transactions::{ThreeStatements, run_all};
use sql_statements::{FIRST_RECORD, MAKE_OBJECTS, MAKE_RECORD};
use sqlite::{Alter, Connection, Error};

/// Makes both tables, with a body in the row of the record, in one transaction. It returns `false` where a transaction
/// was open, and an error where sqlite refused one of the statements; nothing was made then.
pub fn make_tables<S: Alter>(conn: &mut Connection<S>, bytes: &[u8]) -> Result<bool, Error>
    ensures clean { doubt (state S.Store conn.old).is_clean ≤ doubt (state S.Store conn.new).is_clean }
    ensures made { (state S.Store conn.old).now.schema ≡ no_schema → HasCleanDisk (state S.Store conn.new)
        → IfOk result (λ done. IsTrue done → IsTrue (state S.Store conn.new).is_open × IsAtRows (state S.Store conn.new) (new_bodies bytes.now)) }
    ensures busy { IfOk result (λ done. done ≡ false → conn.old.in_transaction ≡ true) }
    ensures refused { (db : Database) → IsReady (state S.Store conn.old) → Sees (state S.Store conn.old) db → HasCleanDisk (state S.Store conn.new)
        → IfOk result (λ done. done ≡ false → ShowsNow (state S.Store conn.new) db) }
    ensures same { (db : Database) → IsReady (state S.Store conn.old) → Sees (state S.Store conn.old) db
        → HasCleanDisk (state S.Store conn.new) → IsTrue (state S.Store conn.new).is_open
        → OnErr result (ShowsNow (state S.Store conn.new) db) }
    ensures crash { (state S.Store conn.old).now.schema ≡ no_schema → HasCleanDisk (state S.Store conn.new)
        → (left : Trees) → (state S.Store conn.new).may_leave left → (state S.Store conn.old).may_leave left ⊎ HasTables left (new_bodies bytes.now) }
{
    run_all(
        conn,
        &ThreeStatements {
            first: MAKE_RECORD,
            second: MAKE_OBJECTS,
            third: FIRST_RECORD,
            bytes,
        },
    )
}
