//! The channels between the token and the seats (connection workers).
//!
//! One bounded channel goes inward, from four seats to the token, and one outward to each seat. What passes carries the log's word for
//! itself (`hall_log`): an event its `Post`, and an answer its `Receipt`. So each end knows of what it takes all that the log knows,
//! and the channels need no rule: a message that is lost, late or of another seat is seen by its number.
//!
//! - `messages` are what passes. An event and its answer go in a `Message`, which is allocated once for each seat. Inward passes a
//!   message for its event, outward for its answer.
//! - `ends` are the two ends of a channel. `Inbox` is the token's end of the inward channel, `Outbox` its end of one outward channel,
//!   and `Port` a seat's two ends.
//! - `Port::ask` and `Port::tell` alone put an event. They require that the seat may put it (`MayPut`), and say what it then did:
//!   this event, and what the token answered.
//! - `Outbox::answer` and `give_back` alone give an answer. They require its receipt, which only `Server::serve` makes.
//!
//! No clause says that a message comes, or that a call returns. A receive first looks at once some hundred times. Then it yields to the
//! other threads, the token at most 200 times and a seat 40, and then sleeps. Where looks are in vain it yields at once, and where turns
//! take long it sleeps at once (`patience`).
//!
//! Proved, by the names of contracts: a message with an event carries the seat's post of just this event (`Posted`), and one with an
//! answer the receipt of just this answer (`Answered`, `Returned`). So after `Port::ask` a seat's exchanges are those before, with this
//! event and this answer (`done`); likewise after `tell`, with none. An answer is given by its receipt alone (`Outbox::answer`,
//! `give_back`).
#![tactic(auto)]

pub mod ends;
pub mod inbox;
pub mod messages;
pub mod outbox;
mod patience;
pub mod port;
