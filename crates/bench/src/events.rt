// A run of the token over events of two applications.

ghost use Rattle.std.specs.Prelude.{All, IfOk};
ghost use Rattle.model_worlds.specs.Events.{HasRandom};

use crate::calls::failed;
use crate::run::{Run, Unit};
use ck_calls::Call;
use keep::ListKeep;
use pin_record::Record;
use std::alloc::{AllocError, Global};
use std::io;
use std::time::CpuClock;
use token::{Event, Token};

// The call of the event of this number: each of two applications opens a session, and then calls C_GetSessionInfo.
fn event(alloc: Global, number: u32) -> Event
    ensures { HasRandom result }
{
    let call = if number < 2 {
        Call::OpenSession { slot: 0, flags: 6 }
    } else {
        Call::GetSessionInfo { session: 1 }
    };
    Event::Call {
        app: u64::from(number % 2),
        call,
        words: Vec::new(alloc),
    }
}

fn events_of(alloc: Global, count: u32) -> Result<Vec<Event>, AllocError>
    ensures { IfOk result (λ events. All HasRandom events.items) }
{
    let mut events = Vec::new(alloc);
    for number in 0..count {
        events.push(event(alloc, number))?;
    }
    Ok(events)
}

// How many replies a new token gives in one run of these events.
fn replies_to(alloc: Global, events: Vec<Event>) -> io::Result<usize>
    requires { All HasRandom events.items }
{
    match Token::new(alloc, ListKeep::new(alloc, Record::new())) {
        Ok(mut token) => {
            let ran = token.run(alloc, events, Vec::new(alloc));
            let count = ran.replies.len();
            drop(ran);
            drop(token);
            Ok(count)
        }
        Err(refused) => {
            drop(refused);
            drop(events);
            Err(failed())
        }
    }
}

/// So many events of two applications, in one run of a new token.
pub(crate) fn events(rt: &impl CpuClock, alloc: Global, count: u32) -> io::Result<Run> {
    let events = events_of(alloc, count)?;
    let start = rt.thread_cpu_time();
    let replies = replies_to(alloc, events)?;
    let time = rt.thread_cpu_time()?.saturating_sub(start?);
    Ok(Run {
        what: "token, events in one run",
        unit: Unit::Event,
        count,
        sum: (replies as u128).to_be_bytes(),
        time,
    })
}
