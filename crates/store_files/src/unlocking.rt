//! A PIN's tries are forgotten, for who has the store's file.

use crate::fault::{StoreCause, StoreFault};
use crate::opening::{close_store, open_there, room_beside};
use ck_types::UserType;
use keep::Keep;
use log::LevelFilter;
use pin_record::end_check;
use reserve::Reserved;
use std::rt::HostRuntime;

/// The keeper once the tries of a PIN are 0, as after a right check of it. The PIN stays.
fn unlocked<K: Keep>(
    rt: &HostRuntime,
    path: &str,
    keep: K,
    who: UserType,
) -> Result<K, StoreFault> {
    let room = room_beside(rt, path, LevelFilter::Warn)?;
    let mut keep = Reserved::new(keep, room);
    let record = keep.get_record();
    if record.verifier(who).is_none() {
        return Err(StoreFault::Store(StoreCause::NoPin));
    }
    if record.tries(who) > 0 {
        keep.set_record(end_check(record, who, true, 0))?;
    }
    Ok(keep.into_keep())
}

/// Sets the tries of a user's PIN to 0. Fails where that PIN isn't set.
pub fn unlock(rt: &HostRuntime, path: &str, who: UserType) -> Result<(), StoreFault> {
    close_store(unlocked(rt, path, open_there(rt, path)?, who)?)
}
