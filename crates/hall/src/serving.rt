//! The token's loop, in the calling thread.

ghost use Rattle.std.specs.Prelude.{◌≡◌, IsTrue};
ghost use Rattle.hall_log.specs.Histories.{History};
ghost use Rattle.hall_log.specs.Log.{served};
ghost use Rattle.hall_log.specs.Suiting.{Suits};
ghost use Rattle.hall.specs.Given.{Did, IsLed, IsSoFar};

use crate::machine::Machine;
use hall_channels::inbox::Inbox;
use hall_channels::messages::{Inward, Posted};
use hall_channels::outbox::Outbox;
use hall_log::{Event, Naming, Server};
use std::alloc::Global;
use std::snapshot::Snapshot;
use std::sync::Wait;
use std::time::Clock;
use token::Out;

/// The machine that serves, and the log's end that knows which history it has served. How it was before has no bytes, and is for
/// contracts alone.
#[derive(Drop)]
pub(crate) struct Serving<M, J: Naming> {
    pub machine: M,
    pub began: Snapshot<M>,
    pub server: Server<J>,
}

/// What the machine answers to an event: None to a disconnect.
fn answer<M: Machine>(alloc: Global, machine: &mut M, event: Event) -> Option<Out>
    ensures suits { Suits event result }
    ensures did { Did M.terms machine.old machine.new event result }
{
    match event {
        Event::Call(call) => Some(machine.call(alloc, call)),
        Event::Finish { app, done } => Some(Out::Reply(machine.finish(alloc, app, done))),
        Event::Gone { app } => {
            machine.gone(app);
            None
        }
    }
}

/// Takes the event out of its message, and gives its answer in it: what the machine answered, by the receipt that it is the log's. False
/// where the event is none that its seat may put next, or the channel has ended.
fn serve<M: Machine, J: Naming, R: Wait>(
    rt: &R,
    alloc: Global,
    serving: &mut Serving<M, J>,
    outboxes: &mut [Outbox<J>],
    posted: Posted<J>,
) -> bool
    requires so { IsSoFar M.terms J.was_read serving.old.began.value serving.old.machine (served serving.old.server) }
    requires all { (now : M) (h : History) → IsSoFar M.terms J.was_read serving.old.began.value now h → J.served h }
    ensures began { serving.new.began.value ≡ serving.old.began.value }
    ensures so { IsTrue result → IsSoFar M.terms J.was_read serving.new.began.value serving.new.machine
        (served serving.new.server) }
    ensures led { IsLed M.terms serving.new.began.value serving.new.machine }
{
    if !serving.server.is_next(&posted.post) {
        drop(posted);
        return false;
    }
    let Posted { mut message, post } = posted;
    let Some(outbox) = outboxes.get_mut(post.seat as usize) else {
        return false;
    };
    let answer = answer(alloc, &mut serving.machine, message.take_event());
    let Some(receipt) = serving.server.serve(post, &answer) else {
        return false;
    };
    match answer {
        Some(out) => outbox.answer(rt, message, out, receipt),
        None => outbox.give_back(rt, message, receipt),
    }
}

/// Takes events until four seats have ended. False where a seat could not go on, or a channel has ended before.
#[inline(never)]
pub(crate) fn serve_seats<M: Machine, J: Naming, R: Wait + Clock>(
    rt: &R,
    alloc: Global,
    serving: &mut Serving<M, J>,
    inbox: &mut Inbox<J>,
    outboxes: &mut [Outbox<J>],
) -> bool
    requires so { IsSoFar M.terms J.was_read serving.old.began.value serving.old.machine (served serving.old.server) }
    requires all { (now : M) (h : History) → IsSoFar M.terms J.was_read serving.old.began.value now h → J.served h }
    ensures began { serving.new.began.value ≡ serving.old.began.value }
    ensures so { IsTrue result → IsSoFar M.terms J.was_read serving.new.began.value serving.new.machine
        (served serving.new.server) }
    ensures led { IsLed M.terms serving.new.began.value serving.new.machine }
{
    let mut ended: u64 = 0;
    for _ in rt.forever() {
        if ended >= 4 {
            return true;
        }
        match inbox.take(rt) {
            None => return false,
            Some(Inward::End { whole, .. }) => {
                if !whole {
                    return false;
                }
                ended += 1;
            }
            Some(Inward::Put(posted)) => {
                if !serve(rt, alloc, serving, outboxes, posted) {
                    return false;
                }
            }
        }
    }
    unreachable!()
}
