//! The end of all seats: their threads are joined, and each stands as after what the history has of it.

ghost use Rattle.std.specs.Prelude.{◌≡◌, IfSome};
ghost use Rattle.hall_log.specs.Lists.{of};
ghost use Rattle.hall_log.specs.Log.{served};
ghost use Rattle.hall.specs.Beginning.{EndsAfter};

use crate::seat_thread::{SeatThread, join_seat};
use crate::seats::Seat;
use hall_log::{Naming, Server};
use std::thread::Threads;

/// The threads of the four seats, seat 0's first.
pub(crate) type SeatThreads<J, S> = (
    SeatThread<J, S>,
    SeatThread<J, S>,
    SeatThread<J, S>,
    SeatThread<J, S>,
);

/// Joins the four threads. None where one of them could not go on.
pub(crate) fn close_all<J: Naming, S: Seat<J> + Drop + Send + 'static, R: Threads>(
    rt: &R,
    server: &Server<J>,
    threads: SeatThreads<J, S>,
) -> Option<(S, S, S, S)>
    ensures over { IfSome result (λ r. S.over r.0 × S.over r.1 × S.over r.2 × S.over r.3) }
    ensures fixed { IfSome result (λ r. (S.fixed r.0 ≡ S.fixed threads.0.promise.seat.value)
        × (S.fixed r.1 ≡ S.fixed threads.1.promise.seat.value)
        × (S.fixed r.2 ≡ S.fixed threads.2.promise.seat.value)
        × (S.fixed r.3 ≡ S.fixed threads.3.promise.seat.value)) }
    ensures ended0 { IfSome result (λ r. EndsAfter (S.stands r.0) (of (S.number threads.0.promise.seat.value) (served server.now))) }
    ensures ended1 { IfSome result (λ r. EndsAfter (S.stands r.1) (of (S.number threads.1.promise.seat.value) (served server.now))) }
    ensures ended2 { IfSome result (λ r. EndsAfter (S.stands r.2) (of (S.number threads.2.promise.seat.value) (served server.now))) }
    ensures ended3 { IfSome result (λ r. EndsAfter (S.stands r.3) (of (S.number threads.3.promise.seat.value) (served server.now))) }
{
    let (thread0, thread1, thread2, thread3) = threads;
    let seat0 = join_seat(rt, server, thread0)?;
    let seat1 = join_seat(rt, server, thread1)?;
    let seat2 = join_seat(rt, server, thread2)?;
    let seat3 = join_seat(rt, server, thread3)?;
    Some((seat0, seat1, seat2, seat3))
}
