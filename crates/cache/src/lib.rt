//! A keeper of a token's objects (`keep`) behind a cache of them.
//!
//! `Cached` is a keeper over any other one. It remembers objects that it has read, up to a capacity, the most
//! recently used ones, and answers a read of these from memory. All else it passes on to the keeper behind it. It
//! remembers nothing that the keeper has not acknowledged: an object that is replaced or removed is forgotten,
//! and a reset forgets all. Where an allocation fails to remember an object, or to copy one that is remembered,
//! it returns what the keeper behind it does.
//!
//! Each clause of `Keep` holds of it, in the words of the keeper behind it. It holds what that keeper holds. As long
//! as the disk is faithful each object that is remembered is the one held under its id
//! (`specs/CachedState.antt`). Which objects are remembered, how many, and that any are, is in no clause, so
//! nothing may rely upon it.
//!
//! Proved, by the names of contracts: what it remembers is held under its id (`Agrees`); no clause says that it remembers anything.
#![tactic(auto)]

mod cached;
mod entries;

pub use cached::Cached;
