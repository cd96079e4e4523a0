//! The two tables of a token's store, and the statements on them, over the crate `sqlite`.
//!
//! Both tables are STRICT.
//!
//! - `make_tables` makes both, with the row of a record.
//! - `put_record`, `insert_object`, `replace_object` and `remove_object` write one row, and `reset_rows` the
//!   record's, while all objects go. `renew_bodies` writes the record's row and those of some objects.
//! - `read_row`, `read_ids`, `read_record_bodies` and `read_ids_and_bodies` read.
//!
//! A body is bytes here: no function looks into one. Contracts see the tables (`Bodies`) as the
//! record's body, the objects' bodies under their ids, in order, and the greatest id that was ever given. Ids rise by
//! one, and sqlite's own table of counters keeps the last, so none returns.
//!
//! A write is one statement, or one transaction. Where sqlite refuses it, the tables are as they were, and a
//! crash leaves what it could leave before, or the whole write; after `Ok` it leaves the write alone. All of
//! it holds as long as the disk is faithful: it returns what was written. Each function but `make_tables` and
//! `renew_bodies` first checks that the connection is open (`ensure_open`): sqlite says nothing of one that is shut.
//!
//! Proved, by the names of contracts: by `sql_statements`, while the disk is faithful: each write is one statement or one transaction.
//! After `Ok` the bodies are changed just so (`RowsChanged`), after a refusal as they were (`RowsFailed`). A read writes nothing
//! (`OnlyReads`).
#![tactic(auto)]

mod listing;
mod making;
mod renewals;
mod statements;
mod transactions;

pub use listing::{read_ids, read_ids_and_bodies, read_record_bodies};
pub use making::make_tables;
pub use renewals::{Renewal, renew_bodies};
pub use statements::{
    ensure_open, insert_object, put_record, read_row, remove_object, replace_object, reset_rows,
};
