//! One application's state: its sessions with their operations, its login, its session objects, its handles of token
//! objects, and the pending call.
//!
//! A desk knows nothing of other applications, and of the token objects only their ids and which of them are private. It has a
//! handle of a private one only where the user is logged in. Its sessions, handles and jobs are counted by itself alone, so its
//! numbers reveal nothing of other applications.
//!
//! What follows a write to the store can't fail: memory for a handle is allocated before it (`reserve_handles`).
//!
//! Proved, by the names of contracts: each operation of a desk is an equation over `DeskState` (`SameDesk`). A desk has a handle of a
//! private object only where the user is logged in (`IsDiscreet`).
#![tactic(auto)]

mod desk;
mod last_key;
mod own_object;
mod question;

pub use desk::Desk;
pub use own_object::OwnObject;
pub use question::Question;
