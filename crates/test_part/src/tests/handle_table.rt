use handles::*;
use std::process::Abort;
use std::test::Fail;

/// The handle that an object is given.
fn given(handles: &mut Handles, id: u64, private: bool) -> Result<u64, Fail> {
    handles.reserve(1)?;
    if !handles.has_numbers() {
        return Err("all numbers are used up".into());
    }
    Ok(handles.give(id, private))
}

/// A number that no object is given.
fn taken(handles: &mut Handles) -> Result<u64, Fail> {
    if !handles.has_numbers() {
        return Err("all numbers are used up".into());
    }
    Ok(handles.take_number())
}

/// Sees that the objects have these handles, by which they are found.
fn expect_numbers(rt: &impl Abort, handles: &Handles, rows: &[(u64, Option<u64>)]) {
    for (id, number) in rows {
        assert_eq!(rt; handles.number_of(*id), *number, "object {id}");
        if let Some(number) = number {
            assert_eq!(rt; handles.object_of(*number), Some(*id));
        }
    }
}

fn give_again(rt: &impl Abort, handles: &mut Handles) -> Result<(), Fail> {
    let first = given(handles, 70, false)?;
    expect_numbers(rt, handles, &[(70, Some(1))]);
    handles.retire(70);
    let numbers = [first, taken(handles)?, given(handles, 70, false)?];
    assert_eq!(rt; numbers, [1, 2, 3]);
    assert_eq!(rt; handles.object_of(first), None);
    expect_numbers(rt, handles, &[(70, Some(3))]);
    Ok(())
}

#[test]
fn a_retired_number_never_returns(rt: HostRuntime) -> Result<(), Fail> {
    let mut handles = Handles::new(rt.alloc());
    assert_eq!(rt; handles.next_number(), 1);
    give_again(&rt, &mut handles)
}

#[test]
fn a_logout_retires_the_handles_of_private_objects(rt: HostRuntime) -> Result<(), Fail> {
    const OBJECTS: &[(u64, bool)] = &[(10, true), (11, false), (12, true), (13, false)];
    const LEFT: &[(u64, Option<u64>)] = &[(10, None), (11, Some(2)), (12, None), (13, Some(4))];
    let mut handles = Handles::new(rt.alloc());
    for (id, private) in OBJECTS {
        given(&mut handles, *id, *private)?;
    }
    handles.retire_private();
    expect_numbers(&rt, &handles, LEFT);
    Ok(())
}

#[test]
fn an_object_is_found_whatever_the_order_of_ids(rt: HostRuntime) -> Result<(), Fail> {
    const IDS: &[u64] = &[40, 10, 50, 20, 30, 60, 5];
    const NUMBERS: &[(u64, Option<u64>)] = &[
        (5, Some(7)),
        (10, Some(2)),
        (20, None),
        (30, Some(5)),
        (40, Some(1)),
        (50, Some(3)),
        (60, Some(6)),
        (70, None),
    ];
    let mut handles = Handles::new(rt.alloc());
    for id in IDS {
        given(&mut handles, *id, false)?;
    }
    handles.retire(20);
    expect_numbers(&rt, &handles, NUMBERS);
    let again = given(&mut handles, 30, false)?;
    assert_eq!(rt; again, 5);
    assert_eq!(rt; handles.object_of(4), None);
    Ok(())
}

/// How many of the objects from 1 to `last` have a handle by which they are found.
fn found(handles: &Handles, last: u64) -> u64 {
    let mut count: u64 = 0;
    for id in 1..=last {
        if let Some(number) = handles.number_of(id) {
            if handles.object_of(number) == Some(id) {
                count = count.saturating_add(1);
            }
        }
    }
    count
}

#[test]
fn many_handles_are_retired_and_given_again(rt: HostRuntime) -> Result<(), Fail> {
    const OBJECTS: u64 = 300;
    let mut handles = Handles::new(rt.alloc());
    for id in 1..=OBJECTS {
        assert_eq!(rt; given(&mut handles, id, id % 2 == 0)?, id);
    }
    for id in 1..=OBJECTS {
        if id % 3 != 0 {
            handles.retire(id);
        }
    }
    assert_eq!(rt; found(&handles, OBJECTS), 100);
    for id in 1..=OBJECTS {
        given(&mut handles, id, id % 2 == 0)?;
    }
    assert_eq!(rt; found(&handles, OBJECTS), OBJECTS);
    assert_eq!(rt; handles.next_number(), 501);
    expect_numbers(
        &rt,
        &handles,
        &[
            (1, Some(301)),
            (3, Some(3)),
            (300, Some(300)),
            (299, Some(500)),
        ],
    );
    handles.retire_private();
    assert_eq!(rt; found(&handles, OBJECTS), 150);
    Ok(())
}
