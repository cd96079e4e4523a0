//! The ends of connections: `Source` is read and `Sink` is written. Each is of one application, and contracts know which bytes it gave
//! or took. Who writes has a `Licence`, which says what may be written to whom after what: it is a premise of `Sink::write`. `Free` is
//! one that allows everything.
//!
//! `Door` accepts connections. The two ends of a connection, `Reader` and `Writer`, are made at once of one socket, and each application
//! has one connection. They read and write for any `Socket`, and the premise of a write is that of `Outgoing::write`. That a Unix socket
//! gives and takes what is noted is trusted: it is `unix.rt`. `Plain` makes an end of any reader or writer of std.
//!
//! Proved, by the names of contracts: an end gives or takes what its socket does, and stays of its application (`Source::read`,
//! `Sink::write`: `ReadGives`, `WriteTakes`), for any `Socket`. The door lets a connection in for an application that had none
//! (`IsFreshApp`), and gives both its ends (`AreEnds`).
#![tactic(auto)]

mod ends;
mod free;
mod listening;
mod notes;
mod pair;
mod plain;
mod socket;
mod unix;

pub use ends::{Licence, Sink, Source, Taker};
pub use free::Free;
pub use listening::Door;
pub use notes::{Gave, Took};
pub use pair::{Reader, Writer};
pub use plain::Plain;
pub use socket::{Outgoing, Socket};
pub use unix::peek;
