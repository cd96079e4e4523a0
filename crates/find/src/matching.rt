//! Matching a template.

ghost use Rattle.std.specs.Prelude.{◌≡◌};
ghost use Rattle.attrs.specs.Masking.{mask};
ghost use Rattle.find.specs.Matching.{entry_matches, template_matches};

use attrs::{Object, find_attribute};
use ck_types::{Entry, Template};
use guard::reveals_number;

fn matches_entry(entry: &Entry, object: &Object) -> bool
    ensures { result ≡ entry_matches object.now entry.now }
{
    if !reveals_number(object, entry.attr_type) {
        return false;
    }
    match find_attribute(object.entries(), entry.attr_type) {
        Some(value) => value == entry.value.as_slice(),
        None => false,
    }
}

fn matches_all(template: &[Entry], object: &Object) -> bool
    ensures { result ≡ template_matches template.now object.now }
{
    template.iter().all(|entry| matches_entry(entry, object))
}

/// Whether the object has each attribute of the template, may reveal it, and has just the value given.
/// The result is the same for what may be seen of the object.
pub fn matches(template: &Template, object: &Object) -> bool
    ensures value { result ≡ template_matches template.now object.now }
    ensures on_mask { result ≡ template_matches template.now (mask object.now) }
{
    matches_all(template.as_slice(), object)
}
