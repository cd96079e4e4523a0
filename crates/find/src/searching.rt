//! Searching: one object after the other.

ghost use Rattle.std.specs.Prelude.{◌≡◌, OnOk, OnErr};
ghost use Rattle.attrs.specs.Masking.{mask};
ghost use Rattle.find.specs.Matching.{searched};

use crate::matching::matches;
use attrs::Object;
use ck_types::Template;
use std::alloc::AllocError;

/// Takes an object into what a search has found so far, as the last: its note stands for it. An object that the template
/// doesn't match is left out. The result is the same for what may be seen of the object.
///
/// It fails only if an allocation fails, and then the list is as it was.
pub fn push_if_matches<T: Copy>(
    template: &Template,
    object: &Object,
    note: T,
    found: &mut Vec<T>,
) -> Result<(), AllocError>
    ensures found { OnOk result (found.new.items ≡ searched template.now object.now note found.old.items) }
    ensures on_mask { OnOk result (found.new.items ≡ searched template.now (mask object.now) note found.old.items) }
    ensures err { OnErr result (found.new.items ≡ found.old.items) }
{
    if matches(template, object) {
        found.reserve(1)?;
        found.push_reserved(note);
    }
    Ok(())
}
