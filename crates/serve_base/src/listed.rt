//! The token objects as the store lists them: by their ids, in the order of their creation, each with its mark.
//!
//! The entry of an object that is removed keeps its place, so that none behind it moves. Once more than half are such entries,
//! they are taken out. So that walk is paid for by as many removals.

ghost use Rattle.std.specs.Prelude.{◌≡◌, ◌==◌, map, length, IfOk};
ghost use Rattle.std.specs.List.{list_any};
ghost use Rattle.std.specs.List.Sorted.{IsSearchInRange};
ghost use Rattle.lists.specs.Bisection.{IsIndexOf, KeysRise};
ghost use Rattle.serve_base.specs.Listing.{id_in, listed_ids, marked_at, listed_removed_at, unread, without_removed, AreRemovedTaken};

use find::Mark;
use std::alloc::{AllocError, Global};

/// A token object in the store's list: its id, once it was read or written its mark, and whether it was removed.
#[derive(Clone, Copy, Debug, PartialEq, Eq)]
pub struct ObjectEntry {
    pub id: u64,
    pub mark: Option<Mark>,
    pub removed: bool,
}

/// The list of the objects under these ids, of which none was read yet.
pub(crate) fn list_unread(alloc: Global, ids: &[u64]) -> Result<Vec<ObjectEntry>, AllocError>
    ensures { IfOk result (λ listed. listed.items ≡ map unread ids.now) }
{
    ids.iter()
        .map(|id| ObjectEntry {
            id: *id,
            mark: None,
            removed: false,
        })
        .collect(alloc)
}

/// Whether the list has the id, where the ids rise.
pub(crate) fn has_id(listed: &[ObjectEntry], id: u64) -> bool
    ensures { KeysRise id_in listed.now → result ≡ list_any (λ i. i == id) (listed_ids listed.now) }
{
    match index_of_id(listed, id) {
        Ok(at) => !listed[at].removed,
        Err(_) => false,
    }
}

/// Notes the mark of the object under an id, where the list has the id.
pub(crate) fn set_mark(listed: &mut [ObjectEntry], id: u64, mark: Mark)
    ensures { KeysRise id_in listed.old → listed.new ≡ map (marked_at id mark) listed.old }
{
    if let Ok(at) = index_of_id(listed, id) {
        listed[at].mark = Some(mark);
    }
}

/// Notes that the object under an id was removed, where the list has the id.
pub(crate) fn remove_id(listed: &mut Vec<ObjectEntry>, id: u64)
    ensures { KeysRise id_in listed.old.items → listed.new.items ≡ map (listed_removed_at id) listed.old.items }
{
    if let Ok(at) = index_of_id(listed, id) {
        listed[at].removed = true;
    }
}

/// Takes out the entries of removed objects, where they are more than half. `removed` is how many there are.
pub(crate) fn compact(listed: &mut Vec<ObjectEntry>, removed: &mut usize)
    ensures { AreRemovedTaken listed.old.items listed.new.items }
{
    if *removed > listed.len() / 2 {
        take_out(listed);
        *removed = 0;
    }
}

/// Takes out the entries of removed objects.
fn take_out(listed: &mut Vec<ObjectEntry>)
    ensures { listed.new.items ≡ without_removed listed.old.items }
{
    listed.retain(|entry| !entry.removed);
}

/// The index of an id among ids that rise, or the index where it would be inserted.
fn index_of_id(listed: &[ObjectEntry], id: u64) -> Result<usize, usize>
    ensures within { IsSearchInRange result (length listed.now) }
    ensures index { KeysRise id_in listed.now → IsIndexOf id_in listed.now id result }
{
    listed.binary_search_by_key(&id, |entry| entry.id)
}
