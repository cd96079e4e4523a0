//! C_DestroyObject (PKCS #11 v3.1, 5.7.3).

ghost use Rattle.std.specs.Prelude.{List};
ghost use Rattle.ck_types.specs.declared.entry.Entry.{Entry};
ghost use Rattle.handles.specs.Handles.{IsHandleTable};
ghost use Rattle.model_views.specs.Answering.{index_of};
ghost use Rattle.model_answers.specs.DestroyObject.{destroy_object, destroyed};
ghost use Rattle.serve_base.specs.Found.{IsObjectAt};
ghost use Rattle.serve_base.specs.Refusing.{IsDone};
ghost use Rattle.serve_objects.specs.Doing.{IsDoneWhere};

use ck_calls::Reply;
use ck_types::{AttrType, Rv};
use desk::Desk;
use guard::needs_read_write;
use keep::Keep;
use precede::Condition;
use serve_base::{Refusal, Store, object_by_handle};
use std::alloc::Global;

/// C_DestroyObject (PKCS #11 v3.1, 5.7.3).
/// Codes: the checks of C_DestroyObject (`precede`). Destroys the object under a handle.
pub fn serve<K: Keep>(
    alloc: Global,
    desk: &mut Desk,
    store: &mut Store<K>,
    session: u64,
    handle: u64,
) -> Result<Reply, Refusal>
    ensures { IsDone K.terms 1 (λ v. destroy_object v session handle) store.old store.new desk.old result desk.new }
{
    let read_write = desk.is_read_write(session).ok_or(Condition::NoSession)?;
    let found = object_by_handle(alloc, desk, store, handle)?.ok_or(Condition::NoObject)?;
    if needs_read_write(read_write, found.object.flag(AttrType::Token)) {
        return Err(Refusal::Condition(Condition::TokenObjectReadOnly));
    }
    if !found.object.flag(AttrType::Destroyable) {
        return Err(Refusal::Condition(Condition::NotDestroyable));
    }
    destroy(desk, store, handle, found.id)
}

/// Destroys the session object under a handle, or the token object of an id.
fn destroy<K: Keep>(
    desk: &mut Desk,
    store: &mut Store<K>,
    handle: u64,
    id: Option<u64>,
) -> Result<Reply, Refusal>
    requires { IsHandleTable desk.old.handles.next_number desk.old.handles.entries }
    ensures { IsDoneWhere (λ c. (object : List Entry) × IsObjectAt c desk.old handle object id) K.terms 1
        (λ v. destroyed v handle (index_of v.tokens handle)) store.old store.new desk.old result desk.new }
{
    match id {
        Some(id) => {
            store.remove(id)?;
            desk.retire(id);
            Ok(Reply::Code(Rv::Ok))
        }
        None => {
            desk.remove_own(handle);
            Ok(Reply::Code(Rv::Ok))
        }
    }
}
