//! What applications get for each script is the same over SQL as over a list, as bytes.

use super::keepers::sql_keep;
use keep::{Keep, ListKeep};
use pin_record::Record;
use std::alloc::Global;
use std::test::*;
use test_scripts::{
    Row, Script, Step, call_of, questions_at, record_at, replies_to, script_at, with_finishes,
};
use token::Event;
use wire::write_reply;

fn event_of(alloc: Global, (app, step, _): Row) -> Result<Event, Fail> {
    match step {
        Step::Finish => Ok(Event::Finish { app }),
        Step::Goes => Ok(Event::Gone { app }),
        _ => Ok(Event::Call {
            app,
            call: call_of(alloc, step)?,
            words: Vec::new(alloc),
        }),
    }
}

/// The frames that applications get from a new token over the keeper, each after its application's number.
fn frames_over<K: Keep>(alloc: Global, keep: K, rows: &[Row]) -> Result<Vec<u8>, Fail> {
    let mut events = Vec::new(alloc);
    for row in rows {
        events.push(event_of(alloc, *row)?)?;
    }
    let mut frames = Vec::new(alloc);
    for (app, reply) in &replies_to(alloc, keep, events)? {
        frames.extend_from_slice(&app.to_be_bytes())?;
        frames.extend_from_slice(&write_reply(alloc, reply)?)?;
    }
    Ok(frames)
}

/// Sees that both give the same frames, and some.
fn expect_same(alloc: Global, record: Record, (name, rows): Script<'_>) -> Result<(), Fail> {
    let over_list = frames_over(alloc, ListKeep::new(alloc, record), rows)?;
    let over_sql = frames_over(alloc, sql_keep(alloc, record)?, rows)?;
    if over_sql == over_list && !over_list.is_empty() {
        Ok(())
    } else {
        Err(Fail::new(format_args!("{name}: other bytes")))
    }
}

#[test]
fn each_script_gives_the_same_bytes_over_sql(rt: HostRuntime) -> Result<(), Fail> {
    let mut played = 0_usize;
    for place in 0..usize::MAX {
        let Some((name, rows)) = script_at(place) else {
            break;
        };
        let rows = with_finishes(rt.alloc(), rows)?;
        expect_same(rt.alloc(), Record::new(), (name, &rows))?;
        played = place.saturating_add(1);
    }
    assert_eq!(rt; played, 9);
    Ok(())
}

#[test]
fn each_script_of_questions_gives_the_same_bytes_over_sql(rt: HostRuntime) -> Result<(), Fail> {
    let mut played = 0_usize;
    for place in 0..usize::MAX {
        let Some(script) = questions_at(place) else {
            break;
        };
        expect_same(rt.alloc(), record_at(place)?, script)?;
        played = place.saturating_add(1);
    }
    assert_eq!(rt; played, 5);
    Ok(())
}
