//! Objects under handles.

ghost use Rattle.std.specs.Prelude.{◌≡◌, IfOk, IfSome, IsErrOf};
ghost use Rattle.handles.specs.Handles.{IsHandleTable};
ghost use Rattle.keep.specs.Contents.{Contents, IsTokenObject};
ghost use Rattle.keep.specs.Keeping.{Counted, HasCause, Stays};
ghost use Rattle.keep.specs.declared.keep.KeepFault.TheVariants.{Device};
ghost use Rattle.desk.specs.Desks.{own_at};
ghost use Rattle.guard.specs.Access.{is_user_in};
ghost use Rattle.model_views.specs.Views.{sees};
ghost use Rattle.serve_base.specs.Shown.{Fits};
ghost use Rattle.serve_base.specs.Stores.{StoreHas, SameIds};
ghost use Rattle.serve_base.specs.Found.{IsFound, IsOwn};

use crate::store::Store;
use attrs::Object;
use ck_types::{AttrType, UserType};
use desk::Desk;
use keep::{Keep, KeepFault};
use std::alloc::{AllocError, Global};

/// A copy of the object under a handle, and its id where it is a token object.
#[derive(Drop)]
pub struct Found {
    pub id: Option<u64>,
    pub object: Object,
}

/// Whether one who is logged in so sees private objects (PKCS #11 v3.1, 4.4, CKA_PRIVATE).
pub(crate) fn sees_private(login: Option<UserType>) -> bool
    ensures { result ≡ is_user_in login }
{
    matches!(login, Some(UserType::User))
}

/// Whether an application sees a token object, by who is logged in.
pub(crate) fn sees(login: Option<UserType>, object: &Object) -> bool
    ensures { result ≡ sees login object.now }
{
    !object.flag(AttrType::Private) || sees_private(login)
}

/// A copy of the session object under a handle.
fn own_copy(desk: &Desk, handle: u64) -> Result<Option<Found>, AllocError>
    ensures { IfOk result (IsOwn (own_at desk.now.own handle)) }
{
    match desk.own_object(handle) {
        Some(object) => Ok(Some(Found {
            id: None,
            object: object.clone()?,
        })),
        None => Ok(None),
    }
}

/// A copy of the object under a handle, if the application sees one there.
pub fn object_by_handle<K: Keep>(
    alloc: Global,
    desk: &Desk,
    store: &mut Store<K>,
    handle: u64,
) -> Result<Option<Found>, KeepFault>
    ensures found { K.terms.doubt store.new.keep ≡ 0 → (c : Contents) → StoreHas K.terms store.old c → Fits c desk.now.handles.entries
        → IfOk result (IsFound c desk.now handle) }
    ensures table { IsHandleTable desk.now.handles.next_number desk.now.handles.entries }
    ensures token { IfOk result (λ found. IfSome found (λ f. IfSome f.id (λ id. IsTokenObject f.object))) }
    ensures same { Stays K.terms store.old.keep store.new.keep }
    ensures ids { SameIds K.terms store.old store.new }
    ensures steady { K.terms.is_steady store.old.keep → IsErrOf result Device → (c : Contents) → StoreHas K.terms store.old c → ⊥ }
    ensures counts { Counted K.terms store.old.keep store.new.keep 0 0 }
    ensures cause { HasCause (K.terms.failures store.old.keep) (K.terms.failures store.new.keep) result }
{
    match desk.id_of(handle) {
        Some(id) => match store.object(alloc, id)? {
            Some(object) => {
                if sees(desk.logged_in(), &object) {
                    return Ok(Some(Found {
                        id: Some(id),
                        object,
                    }));
                }
                Ok(own_copy(desk, handle)?)
            }
            None => Ok(own_copy(desk, handle)?),
        },
        None => Ok(own_copy(desk, handle)?),
    }
}
