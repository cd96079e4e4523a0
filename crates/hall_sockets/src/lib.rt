//! Seats on a Unix socket, whose connections are applications.
//!
//! A `SocketSeat` is a seat (`hall::Seat`) with 1 to 64 places. It waits for all its connections and for the listener at once
//! (epoll, by the crate `mio`), and never for one of them. With one place and no `idle` it waits for its connection by a read. The
//! t-th connection at place j of seat s, both from 0, is application s + 4 (j + n t), where it has n places. With one place that is
//! s + 4 t.
//!
//! A connection whose peer doesn't take its replies is asked nothing more until it does. One of which nothing came for as long as
//! `idle` is ended. One that ends within a frame, or because of a fault, is logged. Once the daemon is to end, a seat accepts and
//! reads no more, and the applications of its connections disconnect.
//!
//! A call that takes long, as a login, stands behind the short ones of its seat's connections (`Queue`). While connections with short
//! calls are served, a seat begins none where half of the seats are at long ones (`Crowd`). With one place a seat does neither.
//!
//! The four seats have the same listeners, one or more. `Loads` has how many connections each has: a seat accepts one only while no
//! other has fewer.
//!
//! The log has a line where a connection begins and ends, and where a call initialises the token, sets a PIN, or gives a wrong or a
//! locked one. `Sockets` names the connection there. What anybody may cause, as bad frames, is counted (`Tally`).
//!
//! A seat writes by the history that it is told (`Leave`): with each write, what an application's writer took begins what is due to it by
//! that history, and the calls in it are those that its own reader gave (`MayWrite`, `specs/Writing.antt`). It puts a call that was read
//! (`IsRead`). That is so for any kind of socket, since a seat has no other write than one under such a licence. `laws` say what an
//! application's bytes depend on.
//!
//! `hold_sockets` is `hall::hold` over four of them on Unix sockets. Each write is made so, whether it ever returns or not. Once it has, the
//! bytes that each writer took are the frames of the answers that the token's model gives its application's calls in one history, or a
//! prefix of them (`specs/Served.antt`). Reader and writer are the two ends of the one connection that came by the door for it (`IsTied`,
//! `came`). A seat ends only where it has had its connections, was told to, or failed (`MayEnd`), and then nobody is left at a place.
//!
//! No clause says that a wait ends, that a peer is served in turn, or that an idle one is ended.
//!
//! Proved, by the names of contracts: a seat writes by the history that it is told (`Leave`, `MayWrite`), and puts a call that its own
//! reader gave (`IsRead`). `hold_over` has that for any sockets and a log with any name that means what it requires, with the bytes at
//! the end (`served`: `WereServed`). `hold_sockets` is the same for Unix sockets and a new log. Both ask for four new seats with one seed
//! (`AreNew`). A seat is over where it noted that it failed, was told to, or has had its connections, and nobody is left (`over`:
//! `SeatIsDone`). No clause says that these notes are true, which seat accepts a connection (`Loads`), that each is asked in turn, or that an
//! idle one is ended.
#![tactic(auto)]

mod accepting;
mod asking;
mod audit;
mod crowd;
mod holding;
mod idling;
mod kind;
pub mod laws;
mod leave;
mod loads;
mod long;
mod opening;
mod queue;
mod seat;
mod serving;
mod sockets;
mod tally;
mod turns;
mod waiting;

pub use holding::{Seats, hold_over, hold_sockets};
pub use leave::Leave;
pub use line_places::MAX_CLIENTS;
pub use loads::Loads;
pub use opening::Shared;
pub use seat::{Settings, SocketSeat};
pub use sockets::{Sockets, Title};
pub use tally::Tally;
