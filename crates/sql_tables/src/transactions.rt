//! Statements that are committed together.

ghost use Rattle.std.specs.Prelude.{◌≡◌, false, true, IsOk, IsTrue, OnOk, OnErr};
ghost use Rattle.sqlite.specs.State.{HasCleanDisk, KeepsCommit, Shows, Survives};
ghost use Rattle.sqlite.specs.Effect.{Database};
ghost use Rattle.sqlite.specs.Held.{Held, state};
ghost use Rattle.sql_statements.specs.Ran.{RanPair, RanThree};
ghost use Rattle.sql_tables.specs.OneTransaction.{IsOneTransaction};

use sqlite::{Alter, Connection, Error, Transaction, params};

/// Commits what was done, and undoes it where a statement was refused.
fn finish<S: Alter>(tx: Transaction<'_, S>, done: Result<usize, Error>) -> Result<(), Error>
    ensures ended { tx.exit.0.now.in_transaction ≡ false }
    ensures whole { OnOk result (IsOk done) }
    ensures shows { HasCleanDisk (state S.Store tx.exit.0.now)
        → OnOk result
        (Shows (state S.Store tx.entry.conn.now) (state S.Store tx.exit.0.now) (state S.Store tx.entry.conn.now).now
        (state S.Store tx.entry.conn.now).now false) }
    ensures undone { HasCleanDisk (state S.Store tx.exit.0.now) → IsTrue (state S.Store tx.exit.0.now).is_open
        → OnOk done (IsTrue (state S.Store tx.entry.conn.now).in_transaction)
        → OnErr result (IsTrue (state S.Store tx.entry.conn.now).is_open
        × ((state S.Store tx.exit.0.now).now ≡ (state S.Store tx.entry.conn.now).committed)
        × ((state S.Store tx.exit.0.now).committed ≡ (state S.Store tx.entry.conn.now).committed)) }
    ensures survives { Survives (state S.Store tx.entry.conn.now) (state S.Store tx.exit.0.now) (λ trees. IsOk done
        × (trees ≡ (state S.Store tx.entry.conn.now).now.trees)) }
{
    done?;
    tx.commit()
}

/// Statements that are run in a transaction, one after the other, up to the first that sqlite refuses.
pub(crate) trait Statements<S: Alter> {
    /// All of them ran: from the connection before the transaction, what they made of its database.
    ghost ran: { Self → Held S → Database → Type 0 };

    fn run(&self, tx: &mut Transaction<'_, S>) -> Result<usize, Error>
        ensures same_reference { tx.new.conn.ghost_name ≡ tx.old.conn.ghost_name }
        ensures ran { HasCleanDisk (state S.Store tx.new.conn.now) → (before : _) → tx.old.conn.now ≡ record before { in_transaction = true }
            → OnOk result (ran self.now before (state S.Store tx.new.conn.now).now) }
        ensures inside { HasCleanDisk (state S.Store tx.new.conn.now) → IsTrue (state S.Store tx.old.conn.now).in_transaction
            → OnOk result (IsTrue (state S.Store tx.new.conn.now).in_transaction) }
        ensures kept { HasCleanDisk (state S.Store tx.new.conn.now) → IsTrue (state S.Store tx.old.conn.now).in_transaction
            → KeepsCommit (state S.Store tx.old.conn.now) (state S.Store tx.new.conn.now) }
        ensures survives { Survives (state S.Store tx.old.conn.now) (state S.Store tx.new.conn.now) (λ _. ⊥) };
}

/// Runs all the statements or none. `false` where a transaction was open.
pub(crate) fn run_all<S: Alter, T: Statements<S>>(
    conn: &mut Connection<S>,
    statements: &T,
) -> Result<bool, Error>
    ensures { IsOneTransaction S.Store (T.ran statements.now) conn.old conn.new result }
{
    if !conn.is_autocommit() {
        return Ok(false);
    }
    let mut tx = conn.transaction();
    let done = statements.run(&mut tx);
    finish(tx, done)?;
    let _ended = conn.is_autocommit(); // brings its clause
    Ok(true)
}

/// Two statements, of which the last has a parameter.
#[derive(Drop)]
pub(crate) struct TwoStatements<'a> {
    pub(crate) first: &'a str,
    pub(crate) second: &'a str,
    pub(crate) bytes: &'a [u8],
}

impl<S: Alter> Statements<S> for TwoStatements<'_> {
    ghost ran = { λ both. RanPair S.Store both.first.now both.second.now both.bytes.now };

    fn run(&self, tx: &mut Transaction<'_, S>) -> Result<usize, Error> {
        tx.execute(self.first, &[])?;
        tx.execute(self.second, params![self.bytes])
    }
}

/// Three statements, of which the last has a parameter.
#[derive(Drop)]
pub(crate) struct ThreeStatements<'a> {
    pub(crate) first: &'a str,
    pub(crate) second: &'a str,
    pub(crate) third: &'a str,
    pub(crate) bytes: &'a [u8],
}

impl<S: Alter> Statements<S> for ThreeStatements<'_> {
    ghost ran = { λ all. RanThree S.Store all.first.now all.second.now all.third.now all.bytes.now };

    fn run(&self, tx: &mut Transaction<'_, S>) -> Result<usize, Error> {
        tx.execute(self.first, &[])?;
        tx.execute(self.second, &[])?;
        tx.execute(self.third, params![self.bytes])
    }
}
