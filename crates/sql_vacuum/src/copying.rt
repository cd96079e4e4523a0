//! From a tree to a tree, by its rows.

ghost use Rattle.std.specs.Prelude.{◌≡◌, ◌≤◌, IsTrue, IfOk, OnOk};
ghost use Rattle.sqlite_trees.specs.declared.store.Shape.{Shape as Kind};
ghost use Rattle.sqlite_trees.specs.Tree.{put_row, rowid};
ghost use Rattle.sqlite_trees.specs.View.{IsClean, IsQuiet, KeepsSchema, OnlyWrites, SetsTree, is_int};
ghost use Rattle.sql_vacuum.specs.Copies.{OnlyCursorsMove, PutsEach, PutsTrees};

use sqlite_trees::error::StoreError;
use sqlite_trees::store::{Direction, Shape, Store};
use sqlite_value::row::Row;
use sqlite_value::value::ValueRef;
use std::alloc::Global;

/// All entries of a tree, in order.
fn rows_of<S: Store>(alloc: Global, store: &mut S, tree: u32) -> Result<Vec<Row>, StoreError>
    ensures rows { IfOk result (λ rows. IsClean (S.Store.view store.new) → rows.items ≡ (S.Store.view store.old).trees tree) }
    ensures same { OnOk result (IsClean (S.Store.view store.new) → OnlyCursorsMove (S.Store.view store.old) (S.Store.view store.new)) }
    ensures quiet { IsQuiet S.Store.view S.Store.faults S.Store.recovers S.Store.is_shielded store.old store.new }
{
    let mut row = Row::new(alloc);
    store.seek(0, tree, &row, Direction::Forward)?;
    let mut rows = Vec::new(alloc);
    'rows: for _ in 0..u64::MAX {
        if !store.next(0, &mut row)? {
            return Ok(rows);
        }
        rows.push(row.copy(alloc)?)?;
    }
    // No sound store has this many entries.
    Err(StoreError::OutOfMemory)
}

/// Puts a row into a table, in the place of the one that has its rowid. `Corrupt` where it has none.
fn put_one<S: Store>(store: &mut S, table: u32, row: &Row) -> Result<(), StoreError>
    requires { IsClean (S.Store.view store.old) → (S.Store.view store.old).shape table ≡ Kind.Table }
    ensures ok { OnOk result (IsClean (S.Store.view store.new) → SetsTree (S.Store.view store.old) (S.Store.view store.new) table (put_row row.now)) }
    ensures schema { KeepsSchema (S.Store.view store.old) (S.Store.view store.new) }
    ensures quiet { IsQuiet S.Store.view S.Store.faults S.Store.recovers S.Store.is_shielded store.old store.new }
{
    match row.get(0) {
        ValueRef::Int(_) => store.put(table, row),
        _ => Err(StoreError::Corrupt),
    }
}

/// Puts each row into a table, up to the first that is refused. `Corrupt` where the tree is no table.
fn put_each<S: Store>(store: &mut S, table: u32, rows: &[Row]) -> Result<(), StoreError>
    ensures ok { OnOk result (IsClean (S.Store.view store.new) → PutsEach (S.Store.view store.old) (S.Store.view store.new) table rows.now) }
    ensures quiet { IsQuiet S.Store.view S.Store.faults S.Store.recovers S.Store.is_shielded store.old store.new }
{
    if store.shape(table) != Shape::Table {
        return Err(StoreError::Corrupt);
    }
    for row in rows {
        put_one(store, table, row)?;
    }
    Ok(())
}

/// Puts the rows of a tree into the table with the same number in another store, in the place of those with their rowids. An error
/// of either store, or `Corrupt` where a tree is no table. Nothing is committed.
fn copy_tree<A: Store, B: Store>(
    alloc: Global,
    from: &mut A,
    to: &mut B,
    tree: u32,
) -> Result<(), StoreError>
    ensures ok { OnOk result (IsClean (A.Store.view from.new) → IsClean (B.Store.view to.new)
        → PutsEach (B.Store.view to.old) (B.Store.view to.new) tree ((A.Store.view from.old).trees tree)) }
    ensures same { OnOk result (IsClean (A.Store.view from.new) → OnlyCursorsMove (A.Store.view from.old) (A.Store.view from.new)) }
    ensures writes { OnOk result (IsClean (B.Store.view to.new) → OnlyWrites (B.Store.view to.old) (B.Store.view to.new)) }
    ensures from { IsQuiet A.Store.view A.Store.faults A.Store.recovers A.Store.is_shielded from.old from.new }
    ensures to { IsQuiet B.Store.view B.Store.faults B.Store.recovers B.Store.is_shielded to.old to.new }
{
    let rows = rows_of(alloc, from, tree)?;
    put_each(to, tree, rows.as_slice())
}

/// Puts the rows of the trees below a number into the tables with the same numbers in another store, in the place of those with
/// their rowids. An error of either store, or `Corrupt` where a tree is no table. Nothing is committed.
pub fn copy_trees<A: Store, B: Store>(
    alloc: Global,
    from: &mut A,
    to: &mut B,
    count: u32,
) -> Result<(), StoreError>
    ensures ok { OnOk result (IsClean (A.Store.view from.new) → IsClean (B.Store.view to.new)
        → PutsTrees (A.Store.view from.old) (B.Store.view to.old) (B.Store.view to.new) count) }
    ensures writes { OnOk result (IsClean (B.Store.view to.new) → OnlyWrites (B.Store.view to.old) (B.Store.view to.new)) }
    ensures from { IsQuiet A.Store.view A.Store.faults A.Store.recovers A.Store.is_shielded from.old from.new }
    ensures to { IsQuiet B.Store.view B.Store.faults B.Store.recovers B.Store.is_shielded to.old to.new }
{
    for tree in 0..count {
        copy_tree(alloc, from, to, tree)?;
    }
    Ok(())
}
