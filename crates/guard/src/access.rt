//! The access table.

ghost use Rattle.std.specs.Prelude.{◌≡◌, ◌&&◌, not};
ghost use Rattle.attrs.specs.Masking.{mask};
ghost use Rattle.guard.specs.Access.{is_rw, is_user, is_visible};

use attrs::Object;
use ck_types::{AttrType, SessionState};

/// Whether the user is logged in, by a session's state (PKCS #11 v3.1, 5.6).
pub fn is_user(state: SessionState) -> bool
    ensures { result ≡ is_user state }
{
    match state {
        SessionState::RoUser | SessionState::RwUser => true,
        SessionState::RoPublic | SessionState::RwPublic | SessionState::RwSo => false,
    }
}

/// Whether a session in a state is a R/W session, which may write token objects (PKCS #11 v3.1, 3.3).
pub fn is_read_write(state: SessionState) -> bool
    ensures { result ≡ is_rw state }
{
    match state {
        SessionState::RwPublic | SessionState::RwUser | SessionState::RwSo => true,
        SessionState::RoPublic | SessionState::RoUser => false,
    }
}

/// Whether a session may not write an object, since a token object is written in a R/W session alone (PKCS #11 v3.1, 3.3).
pub fn needs_read_write(read_write: bool, is_token: bool) -> bool
    ensures { result ≡ (is_token && not read_write) }
{
    is_token && !read_write
}

/// Whether a session in a state sees the object (PKCS #11 v3.1, 4.4, CKA_PRIVATE).
pub fn visible(state: SessionState, object: &Object) -> bool
    ensures access { result ≡ is_visible state object.now }
    ensures on_mask { result ≡ is_visible state (mask object.now) }
{
    is_user(state) || !object.flag(AttrType::Private)
}
