//! C_GetObjectSize (PKCS #11 v3.1, 5.7.4).

ghost use Rattle.std.specs.Prelude.{◌≡◌, length};
ghost use Rattle.attrs.specs.Stored.{stored_form};
ghost use Rattle.model_answers.specs.GetObjectSize.{get_object_size, object_size};
ghost use Rattle.serve_base.specs.Refusing.{IsDone};

use attrs::{Object, size};
use ck_calls::Reply;
use desk::Desk;
use keep::Keep;
use precede::Condition;
use serve_base::{Refusal, Store, object_by_handle};
use std::alloc::Global;

/// C_GetObjectSize (PKCS #11 v3.1, 5.7.4).
/// Codes: the checks of C_GetObjectSize (`precede`). Returns the size of the object under a handle, in bytes. Changes nothing.
pub fn serve<K: Keep>(
    alloc: Global,
    desk: &Desk,
    store: &mut Store<K>,
    session: u64,
    handle: u64,
) -> Result<Reply, Refusal>
    ensures { IsDone K.terms 0 (λ v. get_object_size v session handle) store.old store.new desk.now result desk.now }
{
    let _ = desk.state(session).ok_or(Condition::NoSession)?;
    let found = object_by_handle(alloc, desk, store, handle)?.ok_or(Condition::NoObject)?;
    Ok(Reply::ObjectSize(size_of(&found.object)))
}

/// The length of an object's stored form, in bytes.
fn size_of(object: &Object) -> u64
    ensures stored { result ≡ length (stored_form object.now) }
    ensures told { result ≡ object_size object.now }
{
    let _entries = object.entries(); // brings its clause
    size(object) as u64
}
