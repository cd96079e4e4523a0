//! Look-ups and changes of the objects that are remembered.

ghost use Rattle.std.specs.Prelude.{◌≡◌, ◌≢◌, ◌⊎◌, IfSome, Contains};
ghost use Rattle.keep.specs.Contents.{Kept, IsTokenObject};

use attrs::Object;
use ck_types::AttrType;
use lru::LruCache;

/// A copy of the object with this id, if it is remembered and there is memory for a copy.
pub(crate) fn recall(entries: &mut LruCache<u64, Object>, id: u64) -> Option<Object>
    ensures found { IfSome result (λ object. Contains entries.old.entries (id, object)) }
    ensures token { IfSome result IsTokenObject }
    ensures kept { (e : Kept) → Contains entries.new.entries e → Contains entries.old.entries e }
{
    let found = entries.peek(&id)?;
    if !found.flag(AttrType::Token) {
        return None;
    }
    match found.clone() {
        Ok(copy) => {
            entries.promote(&id);
            Some(copy)
        }
        Err(_) => None,
    }
}

/// Remembers an object under this id, if there is memory.
pub(crate) fn remember(entries: &mut LruCache<u64, Object>, id: u64, object: &Object)
    ensures { (e : Kept) → Contains entries.new.entries e → Contains entries.old.entries e ⊎ (e ≡ (id, object.now)) }
{
    if let Ok(copy) = object.clone() {
        let _ = entries.put(id, copy);
    }
}

/// Forgets the object with this id.
pub(crate) fn forget(entries: &mut LruCache<u64, Object>, id: u64)
    ensures { (e : Kept) → Contains entries.new.entries e → Contains entries.old.entries e × (e.0 ≢ id) }
{
    let _len = entries.len(); // brings its clause: each id is there once
    let _ = entries.pop(&id);
}
