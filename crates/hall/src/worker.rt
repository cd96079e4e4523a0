//! A worker, as the token's thread has it.

use crate::seat_thread::SeatThread;
use crate::seats::Seat;
use hall_channels::outbox::Outbox;
use hall_log::Naming;

/// A worker: the token's end of its seat's channel, and the thread that the seat runs in.
#[derive(Drop)]
pub(crate) struct Worker<J: Naming, S: Seat<J> + Drop> {
    pub outbox: Outbox<J>,
    pub thread: SeatThread<J, S>,
}

/// The four workers, which wait for the permission to begin.
pub(crate) type Workers<J, S> = (Worker<J, S>, Worker<J, S>, Worker<J, S>, Worker<J, S>);
