//! The log of the worker pool: one order of all that four seats (connection workers) put and all that the token answered.
//!
//! No memory holds the log. It is a `logbook` of the kit, of which tokens without bytes know a beginning each. Its rule
//! (`specs/Log.antt`): of each seat was served what it put, in its order. Five words count, by which a step knows that nobody else
//! did the same: what each seat put, and what was served.
//!
//! - `Event` is what a seat puts, and `Entry` what stands in the log.
//! - `Reached` is a beginning of the log that was reached. `Told` is one whose history the machine has served.
//! - `Putter` is a seat's end. It makes a `Post` of each event, and takes the `Receipt` of its answer. Only then is the next event put.
//! - `Server` is the token's end. It takes posts, and makes a receipt of each answer.
//! - `Naming` says which log it is, which histories the machine has served, and what a seat may put. `Opened` is a new log.
//!
//! Of any two histories that were told, to any seats, one begins the other (`one_order`). No clause says that anything is put or
//! served. Where a word holds another count than its own end knows, the step changes nothing; no run meets that.
//!
//! Proved, by the names of contracts: of each seat was served what it put, in its order (`Orderly`). Of any two histories that were told,
//! one begins the other (`one_order`). An event is put only where the seat may (`MayPut`), once all before it were answered (`IsIdle`). A
//! receipt is taken only of the last one (`got`). Where as many were served of a seat as it put, the history has just what the seat did
//! (`has_all`). Each history that was told was served, and its answers suit (`again`: `HistorySuits`).
#![tactic(auto)]

mod entry;
mod event;
mod naming;
mod opened;
mod post;
mod putting;
mod reached;
mod rule;
mod serving;
mod stepping;

pub use entry::Entry;
pub use event::Event;
pub use naming::Naming;
pub use opened::Opened;
pub use post::{Post, Receipt};
pub use putting::Putter;
pub use reached::{Reached, Told, one_order};
pub use rule::LogRule;
pub use serving::Server;
