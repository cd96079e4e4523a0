//! Keepers of a token's objects and its record. A keeper is a storage backend.
//!
//! - `Keep` is what a keeper is: one list of token objects, in the order in which they were made, and one
//!   record (`pin_record`). An object has an id, from 1 on; ids rise by one and never return. Each call
//!   makes its change whole, or is refused and leaves the list and the record as they were.
//! - `KeepFault` is why a keeper refuses. `Device` comes only where the count of `failures` rose in that
//!   call.
//! - `ListKeep` is a keeper in memory, by an ordered map from ids to objects.
//!
//! Contracts see a keeper by its `terms`: which contents it holds, and what a crash at this moment may leave
//! (contents, or what is no token's store). Further, how many writes were tried, how often the device failed, and
//! whether it is steady. `doubt` is 0 as long as the disk is faithful: it has returned what was written. A keeper
//! that is shut, or whose disk was faulty, may hold anything, so nothing follows of it. Contents are the list
//! of objects under their ids, the record, and the greatest id that was ever given (`specs/Contents.antt`).
//! After an acknowledged change a crash leaves the change alone; after a fault it leaves what it could
//! leave before, or the whole change (`specs/Keeping.antt`). As long as the disk is faithful a crash leaves
//! something, and a steady keeper's disk is faithful.
//!
//! `laws` proves what is found under an id after a change, and that an id which has lost its object never
//! has one again.
//!
//! Proved, by the names of contracts: after an acknowledged change a keeper holds it, and a crash leaves it alone (`Changes`). After a
//! fault it holds what it held, and a crash leaves what it could before, or the whole change (`Fails`). While the disk is faithful a
//! crash leaves something (`survives`).
//! - An inserted object's id is one more than the greatest ever given; `ids_never_return`.
//! - Each write is counted once (`Counted`). No clause ties the count to the commits of a connection, which the kit's `sqlite` doesn't
//!   count.
//! - `Device` comes only where the count of failures rose, by one, or stands at its greatest value, and else the count stays
//!   (`HasCause`). A steady keeper returns it only for an id that isn't there or after the greatest id (`steady`). `ListKeep` is one.
#![tactic(auto)]

mod keep;
pub mod laws;
mod list_keep;
mod memory_contents;
mod write_count;

pub use keep::{GREATEST_ID, Keep, KeepFault};
pub use list_keep::ListKeep;
pub use write_count::WriteCount;
