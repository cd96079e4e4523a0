//! What is known of an unwrapped key before its value is.

ghost use Rattle.std.specs.Prelude.{◌≡◌, ℕ, List, [], length};
ghost use Rattle.ck_types.specs.declared.attr_type.AttrType.TheVariants as attr;
ghost use Rattle.attrs.specs.Objects.{flag};
ghost use Rattle.templates.specs.declared.making.Making.TheVariants as calls;
ghost use Rattle.templates.specs.Faults.{template_fault};
ghost use Rattle.templates.specs.Made.{object_made};

use crate::fault::find_fault;
use crate::making::Making;
use crate::value::flag_or;
use ck_types::{AttrType, Rv, SessionState, Template};

/// Why C_UnwrapKey doesn't take a template for a value of `len` bytes, which needn't be known yet:
/// `unwrapped` returns the same code for a value of that length. It takes no memory.
pub fn unwrap_fault(state: SessionState, template: &Template, len: usize) -> Option<Rv>
    ensures { result ≡ template_fault (calls.Unwrap len) state [] template.now }
{
    find_fault(Making::Unwrap(len), state, &[], template.as_slice())
}

/// Whether the key that `unwrapped` makes of a template is a token object, whatever its value.
pub fn unwraps_token_key(template: &Template) -> bool
    ensures { (value random : List ℕ) → flag (object_made (calls.Unwrap (length value)) [] template.now random value) attr.Token ≡ result }
{
    flag_or(template.as_slice(), AttrType::Token, false)
}

/// Whether the key that `unwrapped` makes of a template is private, whatever its value.
pub fn unwraps_private_key(template: &Template) -> bool
    ensures { (value random : List ℕ) → flag (object_made (calls.Unwrap (length value)) [] template.now random value) attr.Private ≡ result }
{
    flag_or(template.as_slice(), AttrType::Private, true)
}
