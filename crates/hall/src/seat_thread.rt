//! A seat's thread, from its start to its end.

ghost use Rattle.std.specs.Prelude.{◌≡◌, true, Bool, IfOk, IfSome};
ghost use Rattle.hall_log.specs.Lists.{of};
ghost use Rattle.hall_log.specs.Log.{served};
ghost use Rattle.hall_log.specs.SeatLogs.{done_by, IsIdle};
ghost use Rattle.hall.specs.Beginning.{SeatBeginsWith, EndsAfter};

use crate::fault::HallFault;
use crate::seat_loop::run_permitted;
use crate::seats::{Gate, Seat};
use hall_channels::port::Port;
use hall_log::{Naming, Server};
use std::alloc::Global;
use std::snapshot::Snapshot;
use std::sync::{Arc, Wait};
use std::thread;
use std::thread::{Promise, PromisedHandle, Threads};
use std::time::Clock;

/// What a seat's thread returns, and whether it went on until the seat had no more.
#[derive(Drop)]
pub(crate) struct Ended<S, E> {
    pub seat: S,
    pub ends: E,
    pub whole: bool,
}

/// Ends with which a seat runs in a thread. A thread is started with any ends that may cross to it.
pub(crate) trait Runs<S> {
    /// The seat may run with them.
    ghost ready: { Self → S → Type 0 };

    /// From the seat as it was, what is known of it and of its ends after the run, and of whether it was whole.
    ghost ran: { S → Self → S → Bool → Type 0 };

    /// Waits for the permission to begin, and runs the seat.
    fn run<G: Gate, R: Wait + Clock>(
        self,
        rt: &R,
        alloc: Global,
        gate: &G,
        seat: S,
    ) -> Ended<S, Self>
        requires { ready self seat }
        ensures { ran seat result.ends result.seat result.whole };
}

impl<J: Naming, S: Seat<J>> Runs<S> for Port<J> {
    ghost ready = { λ port seat. SeatBeginsWith S.number S.fixed S.knows S.stands port.putter seat };

    ghost ran = { λ old port new whole. whole ≡ true → S.over new × (S.fixed new ≡ S.fixed old) × (port.putter.seat ≡ S.number old)
        × IsIdle port.putter × EndsAfter (S.stands new) (done_by port.putter) };

    fn run<G: Gate, R: Wait + Clock>(
        self,
        rt: &R,
        alloc: Global,
        gate: &G,
        seat: S,
    ) -> Ended<S, Port<J>> {
        let mut seat = seat;
        let mut port = self;
        let whole = run_permitted(rt, alloc, &mut seat, &mut port, gate);
        Ended {
            seat,
            ends: port,
            whole,
        }
    }
}

/// What is promised of a thread's result, from the seat as it was.
#[derive(Drop)]
pub(crate) struct SeatPromise<S> {
    pub seat: Snapshot<S>,
}

impl<S, E: Runs<S>> Promise<Ended<S, E>> for SeatPromise<S> {
    ghost kept_by = { λ p r. E.ran p.seat.value r.ends r.seat r.whole };
}

type Running<S, E> = PromisedHandle<Ended<S, E>, SeatPromise<S>>;

pub(crate) type SeatThread<J, S> = Running<S, Port<J>>;

/// Starts a seat's thread, which waits for the permission to begin. A stack has this size, or the usual one at 0.
pub(crate) fn start<
    J: Naming + Send + Sync + 'static,
    S: Seat<J> + Drop + Send + 'static,
    G: Gate + Send + Sync + Drop + 'static,
    R: Threads + Wait + Clock + Copy + Send + Drop + 'static,
>(
    rt: R,
    alloc: Global,
    stack: usize,
    gate: &Arc<G, Global>,
    seat: S,
    port: Port<J>,
) -> Result<SeatThread<J, S>, HallFault>
    requires begins { SeatBeginsWith S.number S.fixed S.knows S.stands port.putter seat }
    ensures { IfOk result (λ h. h.promise.seat.value ≡ seat) }
{
    let Ok(gate) = Arc::try_clone(gate) else {
        return Err(HallFault::Memory);
    };
    match spawn_seat(rt, alloc, stack, gate, seat, port) {
        Some(thread) => Ok(thread),
        None => Err(HallFault::Thread),
    }
}

fn spawn_seat<
    S: Drop + Send + 'static,
    E: Runs<S> + Drop + Send + 'static,
    G: Gate + Send + Sync + Drop + 'static,
    R: Threads + Wait + Clock + Copy + Send + Drop + 'static,
>(
    rt: R,
    alloc: Global,
    stack: usize,
    gate: Arc<G, Global>,
    seat: S,
    ends: E,
) -> Option<Running<S, E>>
    requires ready { E.ready ends seat }
    ensures { IfSome result (λ h. h.promise.seat.value ≡ seat) }
{
    let promise = SeatPromise {
        seat: Snapshot::of(&seat),
    };
    let mut builder = thread::Builder::new();
    if stack > 0 {
        builder = builder.stack_size(stack);
    }
    builder
        .spawn_with(
            &rt,
            promise,
            move || -> Ended<S, E>
                requires { E.ready ends seat }
                ensures { E.ran seat result.ends result.seat result.whole }
            { ends.run(&rt, alloc, &*gate, seat) },
        )
        .ok()
}

/// Joins a seat's thread, and returns the seat, which stands as after all that the history has of it. None where it could not go on,
/// and where the log has another count than the seat, which no run meets.
pub(crate) fn join_seat<J: Naming, S: Seat<J> + Drop + Send + 'static, R: Threads>(
    rt: &R,
    server: &Server<J>,
    thread: SeatThread<J, S>,
) -> Option<S>
    ensures over { IfSome result S.over }
    ensures fixed { IfSome result (λ seat. S.fixed seat ≡ S.fixed thread.promise.seat.value) }
    ensures ended { IfSome result (λ seat. EndsAfter (S.stands seat) (of (S.number thread.promise.seat.value) (served server.now))) }
{
    let Ended { seat, ends, whole } = thread.join(rt);
    if whole && server.has_all(&ends.putter) {
        return Some(seat);
    }
    drop(seat);
    None
}
