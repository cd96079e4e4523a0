//! Two applications beside one another, in one list of events: what one of them sees of the objects of the token after each event.

use ck_types::AttrType;
use std::alloc::Global;
use std::test::*;
use test_scripts::given::*;
use test_scripts::{Given, Row, Step, Told, run};

/// The key of `TOKEN_KEY`, of a session.
const SESSION_KEY: Given = &[
    (AttrType::Class, SECRET_KEY),
    (AttrType::KeyType, AES),
    (AttrType::Value, KEY_BYTES),
    (AttrType::Private, NO),
];

/// An event, and the handles that a search of A's for objects of the token then returns.
type Seen = (Row, &'static [u64]);

/// A's own key has handle 1. That the token's is found under A's next handle shows that it had none.
const ROWS: &[Seen] = &[
    ((B, OPEN, Told::Session(1)), &[]),
    ((A, OPEN, Told::Session(1)), &[]),
    ((B, Step::CreateObject(1, TOKEN_KEY), Told::Object(1)), &[1]),
    (
        (A, Step::CreateObject(1, SESSION_KEY), Told::Object(1)),
        &[2],
    ),
    ((A, Step::DestroyObject(1, 2), NO_OBJECT), &[2]),
    ((B, Step::DestroyObject(1, 1), OK), &[]),
    ((B, Step::DestroyObject(1, 1), NO_OBJECT), &[]),
];

/// The first events.
fn front(alloc: Global, count: usize) -> Result<Vec<Row>, Fail> {
    let mut rows = Vec::new(alloc);
    for (row, _) in ROWS.get(..count).unwrap_or(&[]) {
        rows.push(*row)?;
    }
    Ok(rows)
}

/// The first events, and a search of A's, which opens a session before it where it has none.
fn with_search(alloc: Global, count: usize, found: &'static [u64]) -> Result<Vec<Row>, Fail> {
    let mut rows = front(alloc, count)?;
    if count < 2 {
        rows.push((A, OPEN, Told::Session(1)))?;
    }
    rows.push((A, Step::FindObjectsInit(1, ON_TOKEN), OK))?;
    rows.push((A, Step::FindObjects(1, 9), Told::Objects(found)))?;
    Ok(rows)
}

#[test]
fn another_application_destroys_nothing_that_it_has_no_handle_of(
    rt: HostRuntime,
) -> Result<(), Fail> {
    run(rt.alloc(), &front(rt.alloc(), ROWS.len())?)
}

#[test]
fn what_is_made_and_destroyed_is_seen_by_the_other_application(
    rt: HostRuntime,
) -> Result<(), Fail> {
    for (place, (_, found)) in ROWS.iter().enumerate() {
        let rows = with_search(rt.alloc(), place.saturating_add(1), *found)?;
        run(rt.alloc(), &rows)?;
    }
    Ok(())
}
