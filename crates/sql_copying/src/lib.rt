//! The log of an open store, which is copied into its file.
//!
//! `copied` returns the connection with all that was committed in the file. Where the disk has no room for that, the log stays, and the
//! connection is as it was.
//!
//! Proved, by the names of contracts: the connection stands for the same tables (`IsCopy`). The log was copied (`IsInFile`), or the disk
//! said that it was full (`HasNoRoom`). A fault is told as what the store reports (`FailsToCopy`), and a crash then leaves no more than it
//! could leave before (`left`).
#![tactic(auto)]

mod copying;

pub use copying::copied;
