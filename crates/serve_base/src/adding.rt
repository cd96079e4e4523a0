//! Objects that are new.

ghost use Rattle.std.specs.Prelude.{◌≡◌, ◌<◌, ◌^◌, true};
ghost use Rattle.guard.specs.Access.{is_user, is_user_in};
ghost use Rattle.keep.specs.Contents.{IsTokenObject};
ghost use Rattle.model_answers.specs.CreateObject.{adds_where};
ghost use Rattle.model_answers.specs.CreateObject.{adds_token_object};
ghost use Rattle.model_views.specs.Views.{sees};
ghost use Rattle.serve_base.specs.Refusing.{IsDone};

use crate::refusal::Refusal;
use crate::store::Store;
use attrs::Object;
use ck_calls::Reply;
use ck_types::{AttrType, SessionState};
use desk::Desk;
use guard::{is_read_write, needs_read_write, visible};
use keep::Keep;
use precede::Condition;

/// Adds an object, if a session in this state may and the limit of session objects isn't reached.
pub fn add_object<K: Keep>(
    desk: &mut Desk,
    store: &mut Store<K>,
    session: u64,
    state: SessionState,
    object: Object,
) -> Result<Reply, Refusal>
    requires below { desk.old.handles.next_number < 2 ^ 63 }
    requires state { is_user state ≡ is_user_in desk.old.sessions.login }
    ensures { IsDone K.terms 1 (λ v. adds_where v session state object) store.old store.new desk.old result desk.new }
{
    let is_token = object.flag(AttrType::Token);
    if needs_read_write(is_read_write(state), is_token) {
        return Err(Refusal::Condition(Condition::TokenObjectReadOnly));
    }
    if !visible(state, &object) {
        return Err(Refusal::Condition(Condition::PrivateObject));
    }
    if is_token {
        return add_token_object(desk, store, &object);
    }
    if desk.has_all_objects() {
        return Err(Refusal::Condition(Condition::ObjectLimit));
    }
    Ok(Reply::Object(desk.add_own(session, object)?))
}

/// Adds a token object. Memory for its handle is allocated before the object is written.
fn add_token_object<K: Keep>(
    desk: &mut Desk,
    store: &mut Store<K>,
    object: &Object,
) -> Result<Reply, Refusal>
    requires below { desk.old.handles.next_number < 2 ^ 63 }
    requires token { IsTokenObject object.now }
    requires seen { sees desk.old.sessions.login object.now ≡ true }
    ensures { IsDone K.terms 1 (λ v. adds_token_object v object.now) store.old store.new desk.old result desk.new }
{
    desk.reserve_handles(1)?;
    let id = store.insert(object)?;
    Ok(Reply::Object(desk.give_handle(id, object.flag(AttrType::Private))))
}
