//! Keys among what was found under handles.

ghost use Rattle.std.specs.Prelude.{◌≡◌, Some, false, true};
ghost use Rattle.attrs.specs.Masking.{is_secret_key};
ghost use Rattle.attrs.specs.Objects.{class_of};
ghost use Rattle.model_answers.specs.WrapKey.{is_no_key};
ghost use Rattle.serve_keys.specs.Objects.{object_in};

use attrs::Object;
use serve_base::{Found, is_secret_key};

/// Whether what was found under a handle is no key.
pub(crate) fn is_no_key(found: &Option<Found>) -> bool
    ensures { result ≡ is_no_key (object_in found.now) }
{
    match found {
        Some(found) => !is_secret_key(&found.object),
        None => true,
    }
}

/// The key that was found.
pub(crate) fn key_in(found: &Option<Found>) -> &Object
    requires { is_no_key (object_in found.now) ≡ false }
    ensures found { object_in found.now ≡ Some result.now }
    ensures key { is_secret_key (class_of result.now) ≡ true }
{
    match found {
        Some(found) => &found.object,
        None => unreachable!(),
    }
}
