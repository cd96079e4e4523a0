//! A store that a daemon may serve meanwhile is looked through, or copied from its rows.

use crate::examining::{Findings, examine};
use crate::fault::{StoreCause, StoreFault};
use crate::snapshot::read_store;
use crate::writing::write_new;

/// Looks through a store, and changes nothing.
pub fn look_through(rt: &HostRuntime, path: &str) -> Result<Findings, StoreFault> {
    examine(rt.alloc(), &read_store(rt, path)?)
}

/// Copies a store to a new file, from its rows.
pub fn back_up(rt: &HostRuntime, path: &str, to: &str) -> Result<(), StoreFault> {
    let copy = read_store(rt, path)?;
    examine(rt.alloc(), &copy)?.verdict()?;
    match write_new(rt, to, &copy.anew(rt.alloc())?) {
        Ok(()) => Ok(()),
        Err(error) => Err(StoreFault::Copy(StoreCause::CopyFile(error))),
    }
}
