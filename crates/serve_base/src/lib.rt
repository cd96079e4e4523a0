//! One desk over the store: what the crates that serve calls stand on.
//!
//! `Store` is the keeper of the token objects (a storage backend) with their ids in the order of their creation. It has their
//! marks too, by which a search passes over objects without reading them. `object_by_handle` copies the object that an application sees
//! under a handle, and `Store::search` collects those that a template finds. A call returns `Result<Reply, Refusal>` or, where
//! it may return a job, `Result<Out, Refusal>`: an `Err` always means that nothing has changed. `settle` makes of it what the
//! application gets.
//!
//! Contracts speak of three things:
//! - what an application sees (`specs/Shown.antt`: `view_of`);
//! - what the store has and what a crash may leave (`specs/Stores.antt`);
//! - what a call does, in one clause (`specs/Refusing.antt`).
//!
//! That clause is `IsDone` where the call reads or writes the store, and `AtDesk` where it doesn't. It is `IsDoneAs` where the
//! call returns a job and writes, or where its answer depends on what the store has. A refusal leaves what the desk shows, store
//! faithful or not.
//!
//! Proved, by the names of contracts: a `Store` allocates before it writes, and changes as the keeper does (`StoreHas`). It asks for no id
//! that isn't listed, so over a steady keeper no read returns `Device` (`steady`). While the disk is faithful `object_by_handle` returns what the
//! application sees under a handle (`IsFound`), and `Store::search` what a template finds (`kept_found`). Private objects are found for
//! the user alone, faithful or not (`MayFind`). No clause says which objects are read. `ask_within` returns a length where no buffer is
//! given, and never fails there (`length`). `add_object` makes at most one write.
//!
//! The one clause of a serving function is `IsDoneAs`, `AtDesk`, or `IsDone`. `IsDoneAs` says, while the disk is faithful, that the
//! written answer is given or the call refused (`serves`). It says more:
//! - How many writes are tried (`counts`). The device is blamed only where a failure of the keeper was counted (`cause`). Over a steady
//!   keeper that is only where the written answer adds a token object and every id was given (`LacksId`).
//! - After a fault of the disk, too, no answer is a resource error (`plain`). An `Err` leaves the desk but for its allocated capacity
//!   (`stays`). A refusal in an `Ok` leaves what the desk shows, unless it ends an operation (`refused`).
//! - What is returned is short (`short`), in some calls only where their data is.
//!
//! `AtDesk` is of calls that need no store, and `IsDone` of those that reply and whose answer is of the view alone. A call that takes no
//! memory is never refused for an allocation that failed (`small`). Such are C_GetTokenInfo, C_GetMechanismInfo, C_GetSessionInfo,
//! C_CloseSession, C_CloseAllSessions, C_Logout and C_FindObjectsFinal. So are the four Init calls without a mechanism. So are C_Encrypt,
//! C_Decrypt, C_Sign, their Final, C_EncryptUpdate and C_DecryptUpdate without a buffer, which return no job either.
#![tactic(auto)]

mod adding;
mod asking;
mod caller;
mod finding;
mod keys;
mod listed;
mod out;
mod refusal;
mod searching;
mod store;

pub use adding::add_object;
pub use asking::{ask, ask_within, new_job, random_block};
pub use caller::Caller;
pub use finding::{Found, object_by_handle};
pub use keys::{aes_key, is_aes, is_of_type, is_secret_key, operation_key};
pub use out::{Out, Returned};
pub use refusal::{Refusal, settle};
pub use searching::Match;
pub use store::Store;
