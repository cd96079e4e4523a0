//! A store whose log has nothing that its file hasn't.

ghost use Rattle.std.specs.Prelude.{◌≡◌, OnOk};
ghost use Rattle.sqlite_trees.specs.View.{IsClean, IsQuiet};
ghost use Rattle.sqlite_store.specs.FileStore.{faults, is_shielded, log_frames, recovers, view};

use crate::faults::error_of;
use sqlite::{Error, FileStore};
use sqlite_disk::Disk;
use sqlite_trees::store::Store;

/// Copies a store's log into its file, so that the log has no frame any more. Only then may it be emptied or removed. What a
/// transaction has is lost. An error of the store, as of a disk that is full: then the log has all that it had.
pub fn emptied<D: Disk + Drop>(store: &mut FileStore<D>) -> Result<(), Error>
    ensures empty { OnOk result (IsClean (view store.new) → log_frames store.new ≡ 0) }
    ensures committed { OnOk result (IsClean (view store.new) → (view store.new).trees ≡ (view store.old).committed) }
    ensures quiet { IsQuiet view faults recovers is_shielded store.old store.new }
{
    store.rollback();
    match store.checkpoint() {
        Ok(()) => Ok(()),
        Err(error) => Err(error_of(error)),
    }
}
