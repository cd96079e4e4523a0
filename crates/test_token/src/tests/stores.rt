//! The store of a token that has stopped.

use ck_types::Label;
use keep::ListKeep;
use pin_record::{Record, Verifier};
use serve_base::Store;
use std::alloc::Global;
use std::test::*;
use test_scripts::given::*;
use test_scripts::{Row, Step, Told, play_over};

/// One token object, which has the id 1.
const ROWS: &[Row] = &[
    (A, OPEN, Told::Session(1)),
    (A, Step::CreateObject(1, TOKEN_KEY), Told::Object(1)),
];

fn store_of_one(alloc: Global) -> Result<Store<ListKeep>, Fail> {
    let keep = play_over(alloc, ListKeep::new(alloc, Record::new()), ROWS)?;
    match Store::adopt(alloc, keep) {
        Ok(store) => Ok(store),
        Err(refused) => {
            drop(refused);
            Err("the keeper refused".into())
        }
    }
}

/// Whether the store has the record, and whether it has the object.
fn has(alloc: Global, store: &mut Store<ListKeep>, record: Record) -> Result<(bool, bool), Fail> {
    let is_there = store.object(alloc, 1)?.is_some();
    Ok((store.get_record() == record, is_there))
}

#[test]
fn a_record_is_set_beside_objects_and_a_reset_takes_them(rt: HostRuntime) -> Result<(), Fail> {
    let alloc = rt.alloc();
    let mut store = store_of_one(alloc)?;
    let record = Record::initialized(Label::BLANK, Verifier::made(b"so-pin", [7; 16]), 0);
    store.set_record(record)?;
    let set = has(alloc, &mut store, record)?;
    store.reset(Record::new())?;
    let reset = has(alloc, &mut store, Record::new())?;
    assert_eq!(rt; (set, reset), ((true, true), (true, false)));
    Ok(())
}
