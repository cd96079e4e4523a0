//! Many connections, each at a place and of an application of its own.
//!
//! - `Client` is a connection with its reader and its writer. It keeps which calls it gave and which replies it took, for contracts
//!   alone, and an account of the bytes by them (`line::accounts`).
//! - `Places` has the clients of one worker, at most one at each place. The t-th client at place j of worker s, both from 0, is
//!   application s + 4 (j + n t), where there are n places: so no number comes twice. What all its clients gave and took is kept
//!   as two lists in the order in which they did; of each application, these are what its own client gave and took (`PlacesKeep`,
//!   `specs/Keeping.antt`).
//!
//! Nothing is done with a client's connection but over its own reader and its own writer (`Went`, `Sent`, `specs/Coming.antt`). So what it
//! has read its reader gave, and what it has written its writer took, if it began so (`Tied`, `specs/Tying.antt`). The clients at the other
//! places stay as they are. The licence to write goes through to the connection (`specs/Permitting.antt`).
//!
//! What is due to a client at a moment, so that it may be written, is `Due` (`dues`, `specs/Due.antt`).
//!
//! So for each application that ever connected, the bytes that its writer took are the frames of the replies that it took, with
//! the answers to what is no call at their places, or a beginning of that (`Stands`, `specs/Standing.antt`).
//!
//! Proved, by the names of contracts: a client at a place is of application s + 4 (j + n t) (`app_at`), with that application's words
//! (`words`). Of each application, what a worker's lists have is its client's own (`PlacesKeep`). A reply is owed before the next call
//! (`IsOwed`). A place is free where nobody is and fewer than 2^55 clients were (`IsFree`). A client goes on over its own ends (`Went`,
//! `Sent`), as a connection does (`ClientComes`, `Sends`), and the other places stay as they are (`OthersStay`).
#![tactic(auto)]

mod client;
mod going;
mod law;
mod place;
mod places;
mod placing;

pub use client::Client;
pub use law::dues;
pub use place::Place;
pub use places::{MAX_CLIENTS, Places};
