//! The data of a call that ends an operation.

ghost use Rattle.std.specs.Prelude.{◌≡◌, ◌&&◌, [], is_some};
ghost use Rattle.std.specs.Option.{unwrap_or};

use ck_types::Bytes;
use std::alloc::Global;

/// Whether all data is given to an operation that has taken some: data comes at once or in parts (PKCS #11 v3.1, 5.2).
pub(crate) fn is_late(all: &Option<Bytes>, has_taken: bool) -> bool
    ensures { result ≡ (is_some all.now && has_taken) }
{
    match all {
        Some(_) => has_taken,
        None => false,
    }
}

/// The data, or no bytes where none is given.
pub(crate) fn or_empty(alloc: Global, all: Option<Bytes>) -> Bytes
    ensures { result ≡ unwrap_or all [] }
{
    match all {
        Some(input) => input,
        None => Bytes::from_vec(Vec::new(alloc)),
    }
}
