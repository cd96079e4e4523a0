//! A durable keeper (storage backend) of a token's objects and its record, over the crate `sqlite`.
//!
//! - `SqlKeep` is a `Keep` (`keep`) over a connection. `SqlKeep::open` opens a file, `SqlKeep::in_memory`
//!   makes a store in memory, `SqlKeep::from_connection` takes any connection, and `close` gives it back.
//!
//! A store has two tables (`sql_tables`): the record's, of one row, and the objects', of a row for each under
//! its id. A body there is the stored form of the record (`pin_record`) or of a token object (`attrs`) in
//! format 2, which is its first byte. Ids rise by one, and none returns.
//!
//! A store with neither table is new, and gets both and a record that isn't initialised in one transaction.
//! Where one of them is there, both are taken to be as `sql_tables` makes them, and each body is read: one
//! that has neither format, a record that isn't just one row, or an id below 1 is `KeepFault::Damaged`, and
//! nothing is written. Bodies of format 1, which older tokens wrote, are read too: where there are any, all
//! of them are written again in format 2, in one transaction, before the open returns. A key gets
//! CKA_TRUSTED and CKA_WRAP_WITH_TRUSTED, both false, and a PIN keeps its 10,000 rounds until it is set
//! again; ids, their order and all else stay. A crash in between leaves all bodies as they were, or all in
//! format 2, and so does a refusal. Format 1 is never written.
//!
//! Once a store is open each change is one statement, and a reset one transaction of two. What sqlite
//! refuses, its allocation failure included, is a counted `KeepFault::Device`; a failed allocation for a body is
//! `KeepFault::Memory`. After a fault the store is as it was. Each call first checks that the connection is
//! open: one that sqlite has shut after a fault of the disk is never written again.
//!
//! The contracts on contents hold of a store that was opened on no table or on these two. They hold as long as nobody
//! else writes the file and the disk is faithful: it returns what was written (`doubt` is 0; in memory always).
//! After an acknowledged change a crash leaves the change alone, after a fault what
//! it could leave before, or the whole change (`keep`).
//!
//! Proved, by the names of contracts: `SqlKeep` holds the contents that the connection's database stands for (`Holds`, `Stores`), while
//! its disk is faithful. A crash leaves what one of the connection leaves (`StateMayLeave`, `IsStore`). What a crash leaves of a store in
//! files is what the next opening finds (`crash_then_open`).
//! - An opening adopts what stands for contents, makes a new store where there are no tables, and else returns why not (`Opened`,
//!   `Adopts`, `NotOpened`): never `Damaged` for what stands for contents. Only files that a first opening may have left are taken for a
//!   new store (`IsFirst`). A log with commits behind damage is never opened. The log was copied (`IsInFile`), or the disk said that it
//!   was full (`HasNoRoom`).
//! - A refusal comes with what is left (`Leaves`): the files as they were, or what sqlite reports that it left. That the file itself is
//!   not written is tested. A disk that failed is never told as damage, and damage only of what was found (`ExcusesReading`,
//!   `FailsToCopy`).
//! - `given_back` gives a refused log its bytes again, or says that it hasn't; a crash before that keeps its commits (`GivesBack`).
//! - Bodies of format 1 are read too, and opening leaves the same contents in format 2 (`HoldsEither`). A refusal leaves the store as it
//!   was, and a crash then leaves it so or wholly in format 2.
//! - A file that is made is for its owner alone (`own_mode`); that each is made so is read, since the language says nothing of that mode.
#![tactic(auto)]

mod changes;
mod files;
mod inspecting;
mod laws;
mod opening;
mod path;
mod refusal;
mod rows;
mod sql_keep;
mod taking;

pub use files::{LOG_FRAMES, store_options};
pub use laws::crash_then_open;
pub use path::own_mode;
pub use refusal::{GivenBack, Left, OpenFault, Refused};
pub use sql_keep::SqlKeep;
