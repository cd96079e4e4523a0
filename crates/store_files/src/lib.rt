//! A store's files: the database, its log, and what stands beside them.
//!
//! - `open_store` opens a store, or makes one, and `close_store` closes it. `see_owner`, `keep_private` and `is_in_open_folder` look at who
//!   may read and write its files.
//! - `Marked` is a keeper that lifts a mark before a value is destroyed. Where the mark is missing, the file is written anew from its rows
//!   at the next start, so that nothing is left in it of what was destroyed. `renew_store` does that at once.
//! - `Ballast`, which `room_beside` finds, is room on the disk that is given up for PINs and removals.
//! - `look_through` and `back_up` read a store while a daemon serves it. `restore` puts a copy in a store's place. `unlock` sets a PIN's
//!   tries to 0.
//! - `StoreFault` is why they fail.
//!
//! This crate is safe and tested. No clause speaks of what files hold. Proved, by the names of contracts: what holds of the keeper behind
//! `Marked` holds of it (`terms_behind`), and room that isn't there is never reported (`is_whole`).
#![tactic(auto)]

mod backup;
mod ballast;
mod copying;
mod examining;
mod fault;
mod mark;
mod marked;
mod opening;
mod renewal;
mod restoring;
mod snapshot;
mod spare_logs;
mod unlocking;
mod writing;

pub use backup::{back_up, look_through};
pub use ballast::Ballast;
pub use examining::Findings;
pub use fault::{StoreCause, StoreFault};
pub use marked::Marked;
pub use opening::{
    FileKeep, OpenKeep, close_store, is_in_open_folder, keep_private, open_store, renew_store,
    room_beside, see_owner,
};
pub use restoring::restore;
pub use unlocking::unlock;
