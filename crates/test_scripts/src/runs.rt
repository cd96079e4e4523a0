//! Scripts as lists of events, which a token takes in one run.

ghost use Rattle.std.specs.Prelude.{All, IfOk};
ghost use Rattle.model_worlds.specs.Events.{HasRandom};

use crate::bench::{expect_told, play};
use crate::calls::call_of;
use crate::chapters::Script;
use crate::keepers::cached_list;
use crate::random::random_for;
use crate::replies::reply_of;
use crate::steps::{Row, Step, Told};
use crate::tokens::token_over;
use ck_calls::Reply;
use keep::{Keep, ListKeep};
use pin_record::Record;
use std::alloc::Global;
use std::test::Fail;
use token::Event;

/// Sees that a new token takes all rows as one list of events and gives the replies that are written. No call is pending at the
/// end.
pub fn run(alloc: Global, rows: &[Row]) -> Result<(), Fail> {
    run_over(alloc, ListKeep::new(alloc, Record::new()), rows)?;
    run_over(alloc, cached_list(alloc, Record::new())?, rows)
}

/// And one over this keeper.
pub fn run_over<K: Keep>(alloc: Global, keep: K, rows: &[Row]) -> Result<(), Fail> {
    run_script(alloc, keep, ("a run", rows))
}

/// The same of a script with a name.
pub fn run_script<K: Keep>(alloc: Global, keep: K, (name, rows): Script<'_>) -> Result<(), Fail> {
    let replies = replies_to(alloc, keep, events_of(alloc, rows)?)?;
    expect_replies(alloc, &replies, (name, rows))
}

/// Sees that a new token goes as the rows are written, after those that come before. It takes them by calls one after the other
/// and in one list of events. They leave no call pending.
pub fn play_and_run(alloc: Global, before: &[Row], rows: &[Row]) -> Result<(), Fail> {
    let all = joined(alloc, before, rows)?;
    play(alloc, &all)?;
    run(alloc, &with_finishes(alloc, &all)?)
}

/// The same for rows some of which leave a call pending until its own row.
pub fn play_and_run_questions(alloc: Global, before: &[Row], rows: &[Row]) -> Result<(), Fail> {
    let all = joined(alloc, before, rows)?;
    play(alloc, &all)?;
    run(alloc, &all)
}

fn joined(alloc: Global, before: &[Row], rows: &[Row]) -> Result<Vec<Row>, Fail> {
    let mut all = Vec::from_slice(alloc, before)?;
    all.extend_from_slice(rows)?;
    Ok(all)
}

/// The rows, and after each the result of its job, if there is one.
pub fn with_finishes(alloc: Global, rows: &[Row]) -> Result<Vec<Row>, Fail> {
    let mut all = Vec::new(alloc);
    for row in rows {
        all.push(*row)?;
        all.push((row.0, Step::Finish, Told::Nothing))?;
    }
    Ok(all)
}

/// What a new token over the keeper replies to the events, which leave no call pending. Calls get their random bytes here.
pub fn replies_to<K: Keep>(
    alloc: Global,
    keep: K,
    events: Vec<Event>,
) -> Result<Vec<(u64, Reply)>, Fail> {
    let events = with_random(alloc, events)?;
    let mut token = token_over(alloc, keep)?;
    let ran = token.run(alloc, events, Vec::new(alloc));
    if !ran.out.is_empty() || !ran.left.is_empty() {
        return Err("jobs or events are left".into());
    }
    Ok(ran.replies)
}

fn expect_replies(
    alloc: Global,
    replies: &[(u64, Reply)],
    (name, rows): Script<'_>,
) -> Result<(), Fail> {
    let mut rest = replies;
    for (number, row) in rows.iter().enumerate() {
        let (app, step, told) = *row;
        if let Some(reply) = reply_of(alloc, told)? {
            expect_reply((name, number), step, &(app, reply), rest.first())?;
            rest = rest.get(1..).unwrap_or(&[]);
        }
    }
    if rest.is_empty() {
        Ok(())
    } else {
        Err("replies that no row tells".into())
    }
}

fn expect_reply(
    (name, number): (&str, usize),
    step: Step,
    wanted: &(u64, Reply),
    got: Option<&(u64, Reply)>,
) -> Result<(), Fail> {
    if got == Some(wanted) {
        return Ok(());
    }
    Err(Fail::new(format_args!(
        "{name}, row {number}: wanted {wanted:?}, got {got:?}, by {step:?}"
    )))
}

/// The events of the rows, whose calls have no random bytes yet.
fn events_of(alloc: Global, rows: &[Row]) -> Result<Vec<Event>, Fail> {
    let mut events = Vec::new(alloc);
    for (app, step, _) in rows {
        events.push(event_of(alloc, *app, *step)?)?;
    }
    Ok(events)
}

fn event_of(alloc: Global, app: u64, step: Step) -> Result<Event, Fail> {
    match step {
        Step::Finish => Ok(Event::Finish { app }),
        Step::Goes => Ok(Event::Gone { app }),
        _ => Ok(Event::Call {
            app,
            call: call_of(alloc, step)?,
            words: Vec::new(alloc),
        }),
    }
}

/// The events, whose calls have the random bytes that they take.
fn with_random(alloc: Global, events: Vec<Event>) -> Result<Vec<Event>, Fail>
    ensures { IfOk result (λ ready. All HasRandom ready.items) }
{
    let mut ready = Vec::new(alloc);
    for event in events {
        ready.push(given_random(alloc, event)?)?;
    }
    Ok(ready)
}

fn given_random(alloc: Global, event: Event) -> Result<Event, Fail>
    ensures { IfOk result HasRandom }
{
    match event {
        Event::Call { app, call, .. } => {
            let words = random_for(alloc, &call)?;
            Ok(Event::Call { app, call, words })
        }
        Event::Finish { app } => Ok(Event::Finish { app }),
        Event::Gone { app } => Ok(Event::Gone { app }),
    }
}
