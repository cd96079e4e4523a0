//! What lasts of a token: the stored forms of its record and of its objects.

use super::script::ROWS;
use keep::{Keep, ListKeep};
use pin_record::Record;
use std::alloc::Global;
use std::test::Fail;
use test_scripts::play_over;

#[derive(Debug, PartialEq, Eq, Drop)]
pub(super) struct Lasting {
    record: Vec<u8>,
    objects: Vec<(u64, Vec<u8>)>,
}

/// What a keeper keeps.
pub(super) fn lasting_of<K: Keep>(alloc: Global, keep: &mut K) -> Result<Lasting, Fail> {
    let record = pin_record::encode(alloc, &keep.get_record())?;
    let mut objects = Vec::new(alloc);
    for id in &keep.ids(alloc)? {
        let object = keep.object(alloc, *id)?;
        objects.push((*id, attrs::encode(alloc, &object)?))?;
    }
    Ok(Lasting { record, objects })
}

/// What is kept after each front of the script, from none of its rows to all.
pub(super) fn states(alloc: Global) -> Result<Vec<Lasting>, Fail> {
    let mut states = Vec::new(alloc);
    for len in 0..=ROWS.len() {
        let rows = ROWS.get(..len).unwrap_or(&[]);
        let mut keep = play_over(alloc, ListKeep::new(alloc, Record::new()), rows)?;
        states.push(lasting_of(alloc, &mut keep)?)?;
    }
    Ok(states)
}
