//! The start of all threads.

ghost use Rattle.std.specs.Prelude.{◌≡◌, IfOk};
ghost use Rattle.hall.specs.Beginning.{SeatBeginsWith};

use crate::fault::HallFault;
use crate::link::{Link, Links};
use crate::seat_thread::start;
use crate::seats::{Gate, Seat};
use crate::worker::{Worker, Workers};
use hall_log::Naming;
use std::alloc::Global;
use std::sync::{Arc, Wait};
use std::thread::Threads;
use std::time::Clock;

/// Stops a thread that waits to begin, and joins it. Its seat was not called.
fn stop<J: Naming, S: Seat<J> + Drop + Send + 'static, R: Threads + Wait>(
    rt: &R,
    worker: Worker<J, S>,
) {
    let Worker { mut outbox, thread } = worker;
    outbox.stop(rt);
    drop(thread.join(rt));
}

/// Starts the thread of one seat, which waits for the permission to begin. A stack has this size, or the usual one at 0.
fn start_worker<
    J: Naming + Send + Sync + 'static,
    S: Seat<J> + Drop + Send + 'static,
    G: Gate + Send + Sync + Drop + 'static,
    R: Threads + Wait + Clock + Copy + Send + Drop + 'static,
>(
    rt: R,
    alloc: Global,
    stack: usize,
    gate: &Arc<G, Global>,
    seat: S,
    link: Link<J>,
) -> Result<Worker<J, S>, HallFault>
    requires begins { SeatBeginsWith S.number S.fixed S.knows S.stands link.port.putter seat }
    ensures { IfOk result (λ w. w.thread.promise.seat.value ≡ seat) }
{
    let Link { outbox, port } = link;
    match start(rt, alloc, stack, gate, seat, port) {
        Ok(thread) => Ok(Worker { outbox, thread }),
        Err(fault) => Err(fault),
    }
}

/// Starts all threads, or none that calls its seat. A stack has this size, or the usual one at 0.
pub(crate) fn start_all<
    J: Naming + Send + Sync + 'static,
    S: Seat<J> + Drop + Send + 'static,
    G: Gate + Send + Sync + Drop + 'static,
    R: Threads + Wait + Clock + Copy + Send + Drop + 'static,
>(
    rt: R,
    alloc: Global,
    stacks: (usize, usize, usize, usize),
    gate: &Arc<G, Global>,
    seats: (S, S, S, S),
    links: Links<J>,
) -> Result<Workers<J, S>, HallFault>
    requires first { SeatBeginsWith S.number S.fixed S.knows S.stands links.0.0.port.putter seats.0 }
    requires second { SeatBeginsWith S.number S.fixed S.knows S.stands links.0.1.port.putter seats.1 }
    requires third { SeatBeginsWith S.number S.fixed S.knows S.stands links.1.0.port.putter seats.2 }
    requires fourth { SeatBeginsWith S.number S.fixed S.knows S.stands links.1.1.port.putter seats.3 }
    ensures worker0 { IfOk result (λ r. r.0.thread.promise.seat.value ≡ seats.0) }
    ensures worker1 { IfOk result (λ r. r.1.thread.promise.seat.value ≡ seats.1) }
    ensures worker2 { IfOk result (λ r. r.2.thread.promise.seat.value ≡ seats.2) }
    ensures worker3 { IfOk result (λ r. r.3.thread.promise.seat.value ≡ seats.3) }
{
    let ((link0, link1), (link2, link3)) = links;
    let worker0 = start_worker(rt, alloc, stacks.0, gate, seats.0, link0)?;
    let worker1 = match start_worker(rt, alloc, stacks.1, gate, seats.1, link1) {
        Ok(worker) => worker,
        Err(fault) => {
            stop(&rt, worker0);
            return Err(fault);
        }
    };
    let worker2 = match start_worker(rt, alloc, stacks.2, gate, seats.2, link2) {
        Ok(worker) => worker,
        Err(fault) => {
            stop(&rt, worker0);
            stop(&rt, worker1);
            return Err(fault);
        }
    };
    let worker3 = match start_worker(rt, alloc, stacks.3, gate, seats.3, link3) {
        Ok(worker) => worker,
        Err(fault) => {
            stop(&rt, worker0);
            stop(&rt, worker1);
            stop(&rt, worker2);
            return Err(fault);
        }
    };
    Ok((worker0, worker1, worker2, worker3))
}
