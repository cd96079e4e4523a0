//! Bodies that are written again, in one transaction.

ghost use Rattle.std.specs.Prelude.{◌≡◌, ◌≤◌, ◌⊎◌, [], ◌∷◌, false, true, IsTrue, IfOk, OnOk, OnErr};
ghost use Rattle.sqlite.specs.Effect.{Database};
ghost use Rattle.sqlite.specs.Tree.{Trees};
ghost use Rattle.sqlite_trees.specs.View.{doubt};
ghost use Rattle.sqlite.specs.declared.types.Value.TheVariants.{Blob, Int};
ghost use Rattle.sqlite.specs.State.{ExecutesInside, HasCleanDisk, KeepsCommit, Survives};
ghost use Rattle.sqlite.specs.Held.{state};
ghost use Rattle.sql_statements.specs.Bodies.{Bodies};
ghost use Rattle.sql_statements.specs.Store.{HasTables, IsAtRows, IsReady, Sees, ShowsNow};
ghost use Rattle.sql_tables.specs.RanEach.{RanEach, RanRenewals};
ghost use Rattle.sql_tables.specs.Renewed.{AreNatural, renewed};

use crate::transactions::{Statements, run_all};
use sql_statements::{REPLACE_OBJECT, SET_RECORD};
use sqlite::{Alter, Connection, Error, Transaction, params};

/// A body that is written again, and the row that it goes into.
#[derive(Drop)]
pub struct Renewal {
    /// The id of its row.
    pub id: i64,
    /// The body that it has then.
    pub body: Vec<u8>,
}

fn write_one<S: Alter>(tx: &mut Transaction<'_, S>, renewal: &Renewal) -> Result<usize, Error>
    ensures same_reference { tx.new.conn.ghost_name ≡ tx.old.conn.ghost_name }
    ensures runs { HasCleanDisk (state S.Store tx.new.conn.now) → IsTrue (state S.Store tx.old.conn.now).in_transaction
        → ExecutesInside 0 REPLACE_OBJECT.now (Int renewal.now.id ∷ Blob renewal.now.body.items ∷ []) (state S.Store tx.old.conn.now)
        (state S.Store tx.new.conn.now) result }
    ensures survives { Survives (state S.Store tx.old.conn.now) (state S.Store tx.new.conn.now) (λ _. ⊥) }
{
    tx.execute(REPLACE_OBJECT, params![renewal.id, renewal.body.as_slice()])
}

/// Writes each body, up to the first that sqlite refuses.
fn write_each<S: Alter>(tx: &mut Transaction<'_, S>, renewals: &[Renewal]) -> Result<(), Error>
    ensures same_reference { tx.new.conn.ghost_name ≡ tx.old.conn.ghost_name }
    ensures ran { HasCleanDisk (state S.Store tx.new.conn.now) → IsTrue (state S.Store tx.old.conn.now).in_transaction
        → OnOk result (IsTrue (state S.Store tx.new.conn.now).in_transaction × RanEach S.Store renewals.now tx.old.conn.now tx.new.conn.now) }
    ensures kept { HasCleanDisk (state S.Store tx.new.conn.now) → IsTrue (state S.Store tx.old.conn.now).in_transaction
        → KeepsCommit (state S.Store tx.old.conn.now) (state S.Store tx.new.conn.now) }
    ensures survives { Survives (state S.Store tx.old.conn.now) (state S.Store tx.new.conn.now) (λ _. ⊥) }
{
    for renewal in renewals {
        write_one(tx, renewal)?;
    }
    Ok(())
}

/// Bodies that are written again, and then that of the record.
#[derive(Drop)]
struct Renewals<'a> {
    each: &'a [Renewal],
    bytes: &'a [u8],
}

impl<S: Alter> Statements<S> for Renewals<'_> {
    ghost ran = { λ all. RanRenewals S.Store all.each.now all.bytes.now };

    fn run(&self, tx: &mut Transaction<'_, S>) -> Result<usize, Error> {
        write_each(tx, self.each)?;
        tx.execute(SET_RECORD, params![self.bytes])
    }
}

/// Writes each body into the row of its id, and `bytes` into that of the record, all in one transaction, or
/// none. It returns `false` where a transaction was open, and an error where sqlite refused one of the statements;
/// nothing was written then.
pub fn renew_bodies<S: Alter>(
    conn: &mut Connection<S>,
    renewals: &[Renewal],
    bytes: &[u8],
) -> Result<bool, Error>
    ensures clean { doubt (state S.Store conn.old).is_clean ≤ doubt (state S.Store conn.new).is_clean }
    ensures made { (b : Bodies) → IsAtRows (state S.Store conn.old) b → AreNatural renewals.now → HasCleanDisk (state S.Store conn.new)
        → IfOk result (λ done. IsTrue done → IsTrue (state S.Store conn.new).is_open × IsAtRows (state S.Store conn.new) (renewed renewals.now bytes.now b)) }
    ensures up { HasCleanDisk (state S.Store conn.new) → IfOk result (λ done. IsTrue done → IsTrue (state S.Store conn.new).is_open) }
    ensures busy { IfOk result (λ done. done ≡ false → conn.old.in_transaction ≡ true) }
    ensures refused { (db : Database) → IsReady (state S.Store conn.old) → Sees (state S.Store conn.old) db → HasCleanDisk (state S.Store conn.new)
        → IfOk result (λ done. done ≡ false → ShowsNow (state S.Store conn.new) db) }
    ensures same { (db : Database) → IsReady (state S.Store conn.old) → Sees (state S.Store conn.old) db
        → HasCleanDisk (state S.Store conn.new) → IsTrue (state S.Store conn.new).is_open
        → OnErr result (ShowsNow (state S.Store conn.new) db) }
    ensures crash { (b : Bodies) → IsAtRows (state S.Store conn.old) b → AreNatural renewals.now → HasCleanDisk (state S.Store conn.new)
        → (left : Trees) → (state S.Store conn.new).may_leave left
        → (state S.Store conn.old).may_leave left ⊎ HasTables left (renewed renewals.now bytes.now b) }
{
    run_all(
        conn,
        &Renewals {
            each: renewals,
            bytes,
        },
    )
}
