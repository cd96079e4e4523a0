//! What each statement of a token's store does to its two tables, by sqlite's rules.
//!
//! `specs/Tables.antt` is the schema of both, by the texts that make them. `specs/Bodies.antt` is what
//! a reader of them looks for: the record's body, the objects' bodies under their ids, in order, and the greatest id that was
//! ever given. `specs/Store.antt` is which tables hold
//! them, and what a connection holds before and after a statement, committed or not. `proofs/` has a file a statement:
//! what it does to the tables, and so to the bodies. `sql_tables` sends the statements.
#![tactic(auto)]

mod sql;

pub use sql::{
    CLEAR_OBJECTS, FIRST_RECORD, INSERT_OBJECT, MAKE_OBJECTS, MAKE_RECORD, READ_IDS, READ_OBJECT,
    READ_OBJECTS, READ_RECORD, REMOVE_OBJECT, REPLACE_OBJECT, SET_RECORD,
};
