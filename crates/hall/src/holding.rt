//! Four seats in threads of their own, and the token in the calling one.

ghost use Rattle.std.specs.Prelude.{◌≡◌, [], IfOk, IfErr};
ghost use Rattle.hall_log.specs.Histories.{History};
ghost use Rattle.hall_log.specs.Log.{served};
ghost use Rattle.hall.specs.Given.{IsLed, IsSoFar, Serves};
ghost use Rattle.hall.specs.Held.{WereHeld};

use crate::closing::{SeatThreads, close_all};
use crate::fault::HallFault;
use crate::link::Ready;
use crate::machine::Machine;
use crate::opening::open;
use crate::seat_thread::SeatThread;
use crate::seats::{Gate, Seat};
use crate::serving::{Serving, serve_seats};
use crate::starting::start_all;
use crate::worker::{Worker, Workers};
use hall_channels::inbox::Inbox;
use hall_channels::outbox::Outbox;
use hall_log::{Naming, Opened, Server};
use std::alloc::Global;
use std::snapshot::Snapshot;
use std::sync::{Arc, Wait};
use std::thread::Threads;
use std::time::Clock;

/// The token and the seats, seat 0 first, once all seats have ended.
#[derive(Drop)]
pub struct Held<T, S> {
    pub token: T,
    pub seats: (S, S, S, S),
}

/// Permits a worker's thread to begin, and parts the worker.
fn permit<J: Naming, S: Seat<J> + Drop + Send + 'static, R: Wait>(
    rt: &R,
    worker: Worker<J, S>,
) -> (Outbox<J>, SeatThread<J, S>)
    ensures { result.1 ≡ worker.thread }
{
    let Worker { mut outbox, thread } = worker;
    outbox.begin(rt);
    (outbox, thread)
}

/// Permits the four threads to begin, and parts the workers.
fn permit_all<J: Naming, S: Seat<J> + Drop + Send + 'static, R: Wait>(
    rt: &R,
    workers: Workers<J, S>,
) -> ([Outbox<J>; 4], SeatThreads<J, S>)
    ensures { (result.1.0 ≡ workers.0.thread) × (result.1.1 ≡ workers.1.thread)
        × (result.1.2 ≡ workers.2.thread) × (result.1.3 ≡ workers.3.thread) }
{
    let (worker0, worker1, worker2, worker3) = workers;
    let (outbox0, thread0) = permit(rt, worker0);
    let (outbox1, thread1) = permit(rt, worker1);
    let (outbox2, thread2) = permit(rt, worker2);
    let (outbox3, thread3) = permit(rt, worker3);
    (
        [outbox0, outbox1, outbox2, outbox3],
        (thread0, thread1, thread2, thread3),
    )
}

/// Permits the four threads to begin, serves them, and joins them. Where a channel has ended early, the threads are left to
/// themselves: without the token's ends they end once their seats return.
fn serve_all<
    J: Naming,
    M: Machine + Drop,
    S: Seat<J> + Drop + Send + 'static,
    R: Threads + Wait + Clock,
>(
    rt: &R,
    alloc: Global,
    machine: M,
    server: Server<J>,
    mut inbox: Inbox<J>,
    workers: Workers<J, S>,
) -> Result<Held<M, S>, (HallFault, M)>
    requires server { server ≡ [] }
    requires all { (now : M) (h : History) → IsSoFar M.terms J.was_read machine now h → J.served h }
    requires numbers { (S.number workers.0.thread.promise.seat.value ≡ 0) × (S.number workers.1.thread.promise.seat.value ≡ 1)
        × (S.number workers.2.thread.promise.seat.value ≡ 2) × (S.number workers.3.thread.promise.seat.value ≡ 3) }
    ensures over { IfOk result (λ h. S.over h.seats.0 × S.over h.seats.1 × S.over h.seats.2 × S.over h.seats.3) }
    ensures fixed { IfOk result (λ h. (S.fixed h.seats.0 ≡ S.fixed workers.0.thread.promise.seat.value)
        × (S.fixed h.seats.1 ≡ S.fixed workers.1.thread.promise.seat.value)
        × (S.fixed h.seats.2 ≡ S.fixed workers.2.thread.promise.seat.value)
        × (S.fixed h.seats.3 ≡ S.fixed workers.3.thread.promise.seat.value)) }
    ensures held { IfOk result (λ h. WereHeld S.stands J.served M.terms h.seats machine h.token) }
    ensures thread { IfErr result (λ e. e.0 ≡ HallFault.Thread) }
    ensures led { IfErr result (λ e. IsLed M.terms machine e.1) }
{
    let (mut outboxes, threads) = permit_all(rt, workers);
    let began = Snapshot::of(&machine);
    let mut serving = Serving {
        machine,
        began,
        server,
    };
    if !serve_seats(rt, alloc, &mut serving, &mut inbox, &mut outboxes) {
        return Err((HallFault::Thread, serving.machine));
    }
    match close_all(rt, &serving.server, threads) {
        Some(seats) => Ok(Held {
            token: serving.machine,
            seats,
        }),
        None => Err((HallFault::Thread, serving.machine)),
    }
}

/// Stacks of the usual size.
pub const USUAL_STACKS: (usize, usize, usize, usize) = (0, 0, 0, 0);

/// Holds four seats, the first with number 0, in threads of their own before a machine, as the token, until each has no more. It stays
/// in the calling thread; the seats' threads run its jobs, each of which passes the `Gate` first. What each seat got is
/// specified where no call is pending, as of a new token or of one that was held before.
///
/// `J` names the new log. It is required what its members mean: `served` are just the histories that the machine has served since it
/// was handed over, in which each seat put what it might.
///
/// The threads have stacks of so many bytes, seat 0's first, or of the usual size at 0 (`USUAL_STACKS`).
///
/// It may wait, as long as a seat or the `Gate` does. It allocates the channels and the threads. An allocation failure is
/// `HallFault::Memory`. A thread that is not started, as one whose stack is too large, or a channel that ended early is
/// `HallFault::Thread`. The seats are dropped then.
pub fn hold<
    J: Naming + Send + Sync + 'static,
    M: Machine + Drop,
    S: Seat<J> + Drop + Send + 'static,
    G: Gate + Send + Sync + Drop + 'static,
    R: Threads + Wait + Clock + Copy + Send + Drop + 'static,
>(
    rt: R,
    alloc: Global,
    opened: Opened,
    machine: M,
    seats: (S, S, S, S),
    gate: &Arc<G, Global>,
    stacks: (usize, usize, usize, usize),
) -> Result<Held<M, S>, (HallFault, M)>
    requires book { opened.seen.book ≡ J.book }
    // What it means that a history was served: the machine has served it, and each event in it was one that its seat might put.
    requires means { (h : History) → J.served h → Serves M.terms J.was_read machine h }
    requires all { (h : History) → Serves M.terms J.was_read machine h → J.served h }
    requires numbers { (S.number seats.0 ≡ 0) × (S.number seats.1 ≡ 1) × (S.number seats.2 ≡ 2) × (S.number seats.3 ≡ 3) }
    requires knows { S.knows (S.fixed seats.0) × S.knows (S.fixed seats.1) × S.knows (S.fixed seats.2) × S.knows (S.fixed seats.3) }
    requires stands { S.stands seats.0 [] × S.stands seats.1 [] × S.stands seats.2 [] × S.stands seats.3 [] }
    // Each seat has returned that there is no more.
    ensures over { IfOk result (λ h. S.over h.seats.0 × S.over h.seats.1 × S.over h.seats.2 × S.over h.seats.3) }
    // What never changes of a seat is as it was.
    ensures fixed { IfOk result (λ h. (S.fixed h.seats.0 ≡ S.fixed seats.0) × (S.fixed h.seats.1 ≡ S.fixed seats.1)
        × (S.fixed h.seats.2 ≡ S.fixed seats.2) × (S.fixed h.seats.3 ≡ S.fixed seats.3)) }
    // What the four seats put is one history, which is a run of the token's: each seat stands as after what it has there.
    ensures held { IfOk result (λ h. WereHeld S.stands J.served M.terms h.seats machine h.token) }
    // Where an allocation failed, the machine is as it was.
    ensures memory { IfErr result (λ e. e.0 ≡ HallFault.Memory → e.1 ≡ machine) }
    // At any fault some history leads to the machine that is returned.
    ensures led { IfErr result (λ e. IsLed M.terms machine e.1) }
{
    let Ok(ready) = open(alloc, opened) else {
        return Err((HallFault::Memory, machine));
    };
    let Ready {
        inbox,
        server,
        links,
    } = ready;
    match start_all(rt, alloc, stacks, gate, seats, links) {
        Ok(workers) => serve_all(&rt, alloc, machine, server, inbox, workers),
        Err(fault) => Err((fault, machine)),
    }
}
