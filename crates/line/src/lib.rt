//! Connections: the frames of an application, the calls in them, and the replies to them, over a reader and a writer.
//!
//! - `Words` are the random bytes of one application: the words of ChaCha20 under the operator's seed, whose stream number is
//!   the application's. `take` returns the next of them; where an allocation fails it leaves them where they were.
//! - `Connection` returns the calls of an application, with their random bytes, and takes the replies. It refuses what is no call. Its ends
//!   (`door`) are watched (`watched`), and each write is under its caller's licence (`specs/Permits.antt`). Proved: it writes what it was
//!   permitted and nothing else (`may`); it adds up (`accounts`: `Account`, `Owes`, `Lived`; `IsWholeEnding` where all was written), by what
//!   becomes of it (`specs/Connecting.antt`). A short reply has a frame (`short`).
#![tactic(auto)]

mod asked;
mod connection;
mod ending;
mod front;
mod law;
mod next;
mod outbox;
mod put;
mod refusal;
mod take;
mod words;

pub use connection::Connection;
pub use ending::Ending;
pub use law::accounts;
pub use next::Next;
pub use refusal::reply_to_fault;
pub use words::Words;
