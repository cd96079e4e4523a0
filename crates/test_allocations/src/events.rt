//! The events of steps.

ghost use Rattle.std.specs.Prelude.{All, IfOk};
ghost use Rattle.model_worlds.specs.Events.{HasRandom};

use std::alloc::Global;
use std::test::Fail;
use test_scripts::{Row, Step, call_of, random_for};
use token::Event;

/// The event of a step, with its random bytes.
fn event_of(alloc: Global, app: u64, step: Step) -> Result<Event, Fail>
    ensures { IfOk result HasRandom }
{
    match step {
        Step::Finish => Ok(Event::Finish { app }),
        Step::Goes => Ok(Event::Gone { app }),
        _ => {
            let call = call_of(alloc, step)?;
            match random_for(alloc, &call) {
                Ok(words) => Ok(Event::Call { app, call, words }),
                Err(fault) => {
                    drop(call);
                    Err(fault)
                }
            }
        }
    }
}

/// The events of rows.
pub(crate) fn events_of(alloc: Global, rows: &[Row]) -> Result<Vec<Event>, Fail>
    ensures { IfOk result (λ events. All HasRandom events.items) }
{
    let mut events = Vec::new(alloc);
    'rows: for row in rows {
        events.push(event_of(alloc, row.0, row.1)?)?;
    }
    Ok(events)
}
