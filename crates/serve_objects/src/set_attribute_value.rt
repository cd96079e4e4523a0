//! C_SetAttributeValue (PKCS #11 v3.1, 5.7.6).

ghost use Rattle.std.specs.Prelude.{◌≡◌, List, IfSome};
ghost use Rattle.ck_types.specs.declared.entry.Entry.{Entry};
ghost use Rattle.guard.specs.Access.{is_public};
ghost use Rattle.handles.specs.Handles.{IsHandleTable};
ghost use Rattle.keep.specs.Contents.{IsTokenObject};
ghost use Rattle.model_views.specs.Answering.{index_of};
ghost use Rattle.model_answers.specs.SetAttributeValue.{puts_object, set_attribute_value};
ghost use Rattle.serve_base.specs.Found.{IsObjectAt};
ghost use Rattle.serve_base.specs.Refusing.{IsDone};
ghost use Rattle.serve_objects.specs.Doing.{IsDoneWhere};

use attrs::Object;
use ck_calls::Reply;
use ck_types::{AttrType, Rv, Template};
use desk::Desk;
use guard::{is_read_write, needs_read_write};
use keep::Keep;
use precede::Condition;
use serve_base::{Refusal, Store, object_by_handle};
use std::alloc::Global;
use templates::changed;

/// C_SetAttributeValue (PKCS #11 v3.1, 5.7.6).
/// Codes: the checks of C_SetAttributeValue (`precede`), and those of the template. Changes the object under a handle by a template.
pub fn serve<K: Keep>(
    alloc: Global,
    desk: &mut Desk,
    store: &mut Store<K>,
    session: u64,
    handle: u64,
    template: &Template,
) -> Result<Reply, Refusal>
    ensures { IsDone K.terms 1 (λ v. set_attribute_value v session handle template.now) store.old store.new desk.old result desk.new }
{
    let state = desk.state(session).ok_or(Condition::NoSession)?;
    let found = object_by_handle(alloc, desk, store, handle)?.ok_or(Condition::NoObject)?;
    if needs_read_write(is_read_write(state), found.object.flag(AttrType::Token)) {
        return Err(Refusal::Condition(Condition::TokenObjectReadOnly));
    }
    if !found.object.flag(AttrType::Modifiable) {
        return Err(Refusal::Condition(Condition::NotModifiable));
    }
    let object = changed(alloc, state, &found.object, template)?;
    put(desk, store, handle, found.id, object)
}

/// Replaces the session object under a handle, or the token object of an id, by a changed one.
fn put<K: Keep>(
    desk: &mut Desk,
    store: &mut Store<K>,
    handle: u64,
    id: Option<u64>,
    object: Object,
) -> Result<Reply, Refusal>
    requires table { IsHandleTable desk.old.handles.next_number desk.old.handles.entries }
    requires token { IfSome id (λ i. IsTokenObject object) }
    ensures { IsDoneWhere (λ c. (old : List Entry) × (is_public object ≡ is_public old) × IsObjectAt c desk.old handle old id) K.terms 1
        (λ v. puts_object v handle object (index_of v.tokens handle)) store.old store.new desk.old result desk.new }
{
    match id {
        Some(id) => {
            store.replace(id, &object)?;
            Ok(Reply::Code(Rv::Ok))
        }
        None => {
            desk.replace_own(handle, object);
            Ok(Reply::Code(Rv::Ok))
        }
    }
}
