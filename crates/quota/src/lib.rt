//! A keeper with a limit of objects.
//!
//! `Quota` is a keeper that refuses an object beyond so many. It refuses it as the device's failure, which is counted, and doesn't ask the
//! keeper behind it. All else it returns as that one does. So who may make objects can't fill the disk.
//!
//! Proved, by the names of contracts: an object beyond the limit is refused without asking the keeper below (`beyond`, `below`). It is
//! never called steady.
#![tactic(auto)]

mod quota;

pub use quota::Quota;
