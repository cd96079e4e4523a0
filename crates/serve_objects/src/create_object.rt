//! C_CreateObject (PKCS #11 v3.1, 5.7.1).

ghost use Rattle.std.specs.Prelude.{◌<◌, ◌≤◌, ◌^◌, length};
ghost use Rattle.model_answers.specs.CreateObject.{create_object};
ghost use Rattle.serve_base.specs.Refusing.{IsDone};

use ck_calls::Reply;
use ck_types::Template;
use desk::Desk;
use keep::Keep;
use precede::Condition;
use serve_base::{Refusal, Store, add_object};
use std::alloc::Global;
use templates::created;

/// C_CreateObject (PKCS #11 v3.1, 5.7.1).
/// Codes: the checks of C_CreateObject (`precede`), and those of the template. Makes an object of a template, and returns its handle.
pub fn serve<K: Keep>(
    alloc: Global,
    desk: &mut Desk,
    store: &mut Store<K>,
    session: u64,
    template: &Template,
    random: &[u8],
) -> Result<Reply, Refusal>
    requires below { desk.old.handles.next_number < 2 ^ 63 }
    requires random { 16 ≤ length random.now }
    ensures { IsDone K.terms 1 (λ v. create_object v session template.now random.now) store.old store.new desk.old result desk.new }
{
    let state = desk.state(session).ok_or(Condition::NoSession)?;
    let object = created(alloc, state, template, random)?;
    add_object(desk, store, session, state, object)
}
