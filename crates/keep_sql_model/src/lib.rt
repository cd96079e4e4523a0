//! Which contents the two tables of a token's store stand for, and what a connection, a file and a crash have to do with them.
//!
//! `specs/Store.antt` is which contents the tables hold, and what a change of them is, acknowledged or refused.
//! `specs/Formats.antt` is the same of bodies in format 1 or 2, `specs/Rows.antt` and `specs/Renewals.antt` what is read of
//! them and written again. `specs/Opening.antt` and `specs/OpenedFile.antt` are what opening a store promises. `proofs/` lifts
//! the facts of `sql_statements` on bodies to contents. `keep_sql` implements them.
#![tactic(auto)]
