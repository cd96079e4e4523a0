//! A worker pool: four seats in threads of their own, before one token.
//!
//! A `Seat` is a connection worker: calls come from it and replies go to it. Of four seats, seat s has the applications with
//! remainder s modulo 4. `hold` gives each seat a thread, and keeps the token in the calling one. A seat's thread takes the
//! seat's `next` event and puts it before the token. Where the token returns a job, the thread passes a `Gate` and runs it. Then
//! it gives the seat the reply. So the token takes one event after the other, and the work with keys is done beside it.
//!
//! # What is promised
//!
//! There is one history (`specs/Histories.antt`): an interleaving of what the four seats put, each event once and those of a seat in
//! its order. It is the log's (`hall_log`), of which seats and token know a beginning each. `hold` requires what the log's name means:
//! `served` are just the histories that the token has served, in which each seat put what it might (`IsSoFar`).
//!
//! At each moment, before any end:
//! - a seat puts an event only where it may (`MayPut`): the event is of an application of its own that is there, follows the rule, and
//!   a call was read;
//! - a seat is given nothing but what the token answered to its own last event: the receipt for it is made where the token serves
//!   (`Server::serve`), and `Seat::take` is told the history that ends with it;
//! - of any two histories that seats were told, one begins the other (`hall_log::one_order`).
//!
//! Where seats were held, `next` of each has returned that there is no more, and each stands as after what the history has of it
//! (`stands`). The history is a run of the token's model (`IsRun`, crate `token`) as long as the keeper's disk was faithful (`doubt` is
//! 0) and no call was pending before. `laws` says in a reader's words what follows of histories and of their beginnings.
//!
//! The token that is returned is where the history ends. It refines the world that the history made; a crash leaves no more of
//! it than the changes that were acknowledged and perhaps one tried since. Failures of the keeper are counted, and account for each
//! `CKR_DEVICE_ERROR`. Over a steady keeper, as one in memory, none is answered while there is an id for each call and each result
//! (`SpendsOver`).
//!
//! Where an allocation failed, the token is as it was. At the other fault, by which a channel may have ended early, some history of
//! proper seats leads to it (`IsLed`).
//!
//! Termination and fairness are not proved: a seat that never returns that there is no more is held for ever, and so is one
//! before a `Gate` that is never passed. That a fault comes only where an allocation or a thread's start failed, that no seat
//! was called then, and that the token is as it was where a thread was not started, stands in no clause: tests show it.
//!
//! Proved, by the names of contracts: where `hold` returns `Held`, each seat is over (`over`), and one history has each event once, each
//! seat's in order (`held`: `WereHeld`, `Interleaves`). It is the log's, and each seat stands as after what it has there. While the disk
//! is faithful it is a run from each world that the token refined (`IsHistory`), if no call was pending before. Before the end each seat
//! asks what it may (`MayAsk`), and takes what the history that it is told has of it (`IsAwaitedReply`). After a fault some history leads to
//! the token that is returned (`memory`, `led`: `IsLed`). The laws stand in `ISOLATION.md`.
#![tactic(auto)]

mod closing;
mod fault;
mod holding;
pub mod laws;
mod link;
mod machine;
mod opening;
mod seat_loop;
mod seat_thread;
mod seats;
mod serving;
mod starting;
mod token_machine;
mod worker;

pub use fault::HallFault;
pub use holding::{Held, USUAL_STACKS, hold};
pub use machine::Machine;
pub use seats::{Gate, Seat, SeatEvent};
