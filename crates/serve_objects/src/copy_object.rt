//! C_CopyObject (PKCS #11 v3.1, 5.7.2).

ghost use Rattle.std.specs.Prelude.{◌<◌, ◌≤◌, ◌^◌, length};
ghost use Rattle.model_answers.specs.CopyObject.{copy_object};
ghost use Rattle.serve_base.specs.Refusing.{IsDone};

use ck_calls::Reply;
use ck_types::{AttrType, Template};
use desk::Desk;
use keep::Keep;
use precede::Condition;
use serve_base::{Refusal, Store, add_object, object_by_handle};
use std::alloc::Global;
use templates::copied;

/// C_CopyObject (PKCS #11 v3.1, 5.7.2).
/// Codes: the checks of C_CopyObject (`precede`), and those of the template. Copies the object under a handle, with a template's changes,
/// and returns the copy's handle.
pub fn serve<K: Keep>(
    alloc: Global,
    desk: &mut Desk,
    store: &mut Store<K>,
    session: u64,
    handle: u64,
    template: &Template,
    random: &[u8],
) -> Result<Reply, Refusal>
    requires below { desk.old.handles.next_number < 2 ^ 63 }
    requires random { 16 ≤ length random.now }
    ensures { IsDone K.terms 1 (λ v. copy_object v session handle template.now random.now) store.old store.new desk.old result desk.new }
{
    let state = desk.state(session).ok_or(Condition::NoSession)?;
    let found = object_by_handle(alloc, desk, store, handle)?.ok_or(Condition::NoObject)?;
    if !found.object.flag(AttrType::Copyable) {
        return Err(Refusal::Condition(Condition::NotCopyable));
    }
    let object = copied(alloc, state, &found.object, template, random)?;
    add_object(desk, store, session, state, object)
}
