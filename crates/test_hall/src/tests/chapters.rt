//! The scripts of all chapters.

use super::seats::hold_over_lists;
use pin_record::Record;
use std::test::*;
use test_scripts::{questions_at, record_at, script_at, with_finishes};

#[test]
fn seats_are_told_what_each_script_says(rt: HostRuntime) -> Result<(), Fail> {
    let mut played = 0_usize;
    for place in 0..usize::MAX {
        let Some((name, rows)) = script_at(place) else {
            break;
        };
        let rows = with_finishes(rt.alloc(), rows)?;
        hold_over_lists(rt, rt.alloc(), Record::new(), (name, &rows))?;
        played = place.saturating_add(1);
    }
    assert_eq!(rt; played, 9);
    Ok(())
}

#[test]
fn seats_are_told_what_each_script_of_questions_says(rt: HostRuntime) -> Result<(), Fail> {
    let mut played = 0_usize;
    for place in 0..usize::MAX {
        let Some(script) = questions_at(place) else {
            break;
        };
        hold_over_lists(rt, rt.alloc(), record_at(place)?, script)?;
        played = place.saturating_add(1);
    }
    assert_eq!(rt; played, 5);
    Ok(())
}
