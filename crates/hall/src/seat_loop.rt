//! One seat, in a thread of its own. What a call seldom comes to isn't inlined, so that the loop's own locals are few and lie together.

ghost use Rattle.std.specs.Prelude.{◌≡◌, ◌%◌, ◌∷◌, [], ◌++◌, List, IsTrue, IsSome, IfSome, None, Some};
ghost use Rattle.hall_log.specs.Histories.{Exchange};
ghost use Rattle.hall_log.specs.Lists.{last};
ghost use Rattle.hall_log.specs.Putting.{IsThere, MayPut, pending};
ghost use Rattle.hall_log.specs.SeatLogs.{done_by, IsIdle};
ghost use Rattle.hall_log.specs.declared.event.Event.TheVariants.{Call, Finish};
ghost use Rattle.mech.specs.declared.done.Done.{Done as DoneType};
ghost use Rattle.serve_base.specs.declared.out.Out.TheVariants.{Reply as OutReply};
ghost use Rattle.hall.specs.Beginning.{SeatBeginsWith, EndsAfter};
ghost use Rattle.hall.specs.SeatEvents.{heard_in, IsTurn, MayAsk, StandsThen};
ghost use Rattle.hall.specs.declared.seats.SeatEvent.TheVariants.{Call as SeatCall};

use crate::seats::{Gate, Seat, SeatEvent};
use ck_calls::{AppCall, Reply};
use hall_channels::port::Port;
use hall_log::{Event, Naming};
use std::alloc::Global;
use std::sync::Wait;
use std::time::Clock;
use token::{Job, Out};

/// Runs the job of a call, puts its result, and gets the reply.
#[inline(never)]
fn work<J: Naming, G: Gate, R: Wait + Clock>(
    rt: &R,
    alloc: Global,
    port: &mut Port<J>,
    gate: &G,
    app: u64,
    job: Job,
) -> Option<Reply>
    requires message { IsSome port.old.message }
    requires own { app % 4 ≡ port.old.putter.seat }
    requires there { IsThere app (done_by port.old.putter) }
    requires job { pending (last (done_by port.old.putter)) ≡ Some (app, job) }
    ensures message { IfSome result (λ _. IsSome port.new.message) }
    ensures seat { port.new.putter.seat ≡ port.old.putter.seat }
    ensures done { IfSome result (λ r. (d : DoneType) × (d.job.value ≡ job)
        × (done_by port.new.putter ≡ done_by port.old.putter ++ (Finish app d, Some (OutReply r)) ∷ [])) }
{
    gate.pass(port.putter.seat() as usize, app);
    let done = job.run(alloc);
    match port.ask(rt, Event::Finish { app, done })? {
        Out::Reply(reply) => Some(reply),
        Out::Ask(job) => {
            drop(job);
            None
        }
    }
}

/// Makes a call, and gets its reply.
fn ask<J: Naming, G: Gate, R: Wait + Clock>(
    rt: &R,
    alloc: Global,
    port: &mut Port<J>,
    gate: &G,
    call: AppCall,
) -> Option<Reply>
    requires message { IsSome port.old.message }
    requires may { MayPut J.was_read port.old.putter.seat (done_by port.old.putter) (Call call) }
    ensures message { IfSome result (λ _. IsSome port.new.message) }
    ensures seat { port.new.putter.seat ≡ port.old.putter.seat }
    ensures done { IfSome result (λ r. (more : List Exchange) × IsTurn (SeatCall call) more × (heard_in more ≡ (call.app, r) ∷ [])
        × (done_by port.new.putter ≡ done_by port.old.putter ++ more)) }
    ensures settled { IfSome result (λ _. pending (last (done_by port.new.putter)) ≡ None) }
{
    let app = call.app;
    match port.ask(rt, Event::Call(call))? {
        Out::Reply(reply) => Some(reply),
        Out::Ask(job) => work(rt, alloc, port, gate, app, job),
    }
}

/// Does an event of the seat. False where a channel has ended.
fn turn<J: Naming, S: Seat<J>, G: Gate, R: Wait + Clock>(
    rt: &R,
    alloc: Global,
    seat: &mut S,
    port: &mut Port<J>,
    gate: &G,
    event: SeatEvent,
) -> bool
    requires number { S.number seat.old ≡ port.old.putter.seat }
    requires knows { S.knows (S.fixed seat.old) }
    requires message { IsSome port.old.message }
    requires settled { pending (last (done_by port.old.putter)) ≡ None }
    requires may { MayAsk J.was_read port.old.putter.seat (done_by port.old.putter) event }
    requires stands { StandsThen (S.stands seat.old) (S.waits seat.old) (done_by port.old.putter) event }
    ensures message { IsTrue result → IsSome port.new.message }
    ensures same { port.new.putter.seat ≡ port.old.putter.seat }
    ensures number { S.number seat.new ≡ S.number seat.old }
    ensures fixed { S.fixed seat.new ≡ S.fixed seat.old }
    ensures ends { IsTrue result → EndsAfter (S.stands seat.new) (done_by port.new.putter) }
{
    match event {
        SeatEvent::Gone { app } => port.tell(rt, Event::Gone { app }),
        SeatEvent::Call(call) => {
            let app = call.app;
            let Some(reply) = ask(rt, alloc, port, gate, call) else {
                return false;
            };
            let told = port.putter.told();
            seat.take(app, reply, &told);
            true
        }
    }
}

/// Does the seat's events, one after the other, until it has no more. False where a channel has ended. It is required that the
/// seat has its message, which is the permission to begin.
#[inline(never)]
fn run_seat<J: Naming, S: Seat<J>, G: Gate, R: Wait + Clock>(
    rt: &R,
    alloc: Global,
    seat: &mut S,
    port: &mut Port<J>,
    gate: &G,
) -> bool
    requires number { S.number seat.old ≡ port.old.putter.seat }
    requires knows { S.knows (S.fixed seat.old) }
    requires message { IsSome port.old.message }
    requires stands { EndsAfter (S.stands seat.old) (done_by port.old.putter) }
    ensures same { port.new.putter.seat ≡ port.old.putter.seat }
    ensures fixed { S.fixed seat.new ≡ S.fixed seat.old }
    ensures message { IsTrue result → IsSome port.new.message }
    ensures over { IsTrue result → S.over seat.new }
    ensures ends { IsTrue result → EndsAfter (S.stands seat.new) (done_by port.new.putter) }
{
    for _ in rt.forever() {
        let told = port.putter.told();
        let Some(event) = seat.next(&told) else {
            return port.end(rt, true);
        };
        if !turn(rt, alloc, seat, port, gate, event) {
            return false;
        }
    }
    unreachable!()
}

/// Waits for the permission to begin, and runs the seat. False where it is to stop, and then the seat was not called, or where a
/// channel has ended; the token then knows.
pub(crate) fn run_permitted<J: Naming, S: Seat<J>, G: Gate, R: Wait + Clock>(
    rt: &R,
    alloc: Global,
    seat: &mut S,
    port: &mut Port<J>,
    gate: &G,
) -> bool
    requires begins { SeatBeginsWith S.number S.fixed S.knows S.stands port.old.putter seat.old }
    ensures same { port.new.putter.seat ≡ port.old.putter.seat }
    ensures fixed { S.fixed seat.new ≡ S.fixed seat.old }
    ensures idle { IsTrue result → IsIdle port.new.putter }
    ensures over { IsTrue result → S.over seat.new }
    ensures ends { IsTrue result → EndsAfter (S.stands seat.new) (done_by port.new.putter) }
{
    if port.begin(rt) && run_seat(rt, alloc, seat, port, gate) {
        return true;
    }
    port.end(rt, false);
    false
}
