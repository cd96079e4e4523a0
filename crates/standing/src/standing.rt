//! What `tokend status` finds, and the line that it prints.

ghost use Rattle.std.specs.Prelude.{◌≡◌};
ghost use Rattle.standing.specs.Statuses.{IsStandingStatus, standing_status};

use ck_calls::TokenInfo;
use pin_record::{
    CKF_SO_PIN_LOCKED, CKF_TOKEN_INITIALIZED, CKF_USER_PIN_INITIALIZED, CKF_USER_PIN_LOCKED,
};
use std::fmt::{Display, Formatter, Write};
use std::{fmt, io};

/// Who may connect to a socket, as its mode has it.
#[derive(Drop)]
pub(crate) enum Allowed {
    /// The members of a group, and the group's name where there is one.
    Group(u32, Option<String>),
    Owner(u32),
    /// A folder above the socket can't be entered.
    Unknown,
}

impl Display for Allowed {
    fn fmt<W: Write>(&self, f: &mut Formatter<W>) -> fmt::Result {
        match self {
            Allowed::Group(id, Some(name)) => {
                write!(f, "members of the group {name} ({id}) may connect")
            }
            Allowed::Group(id, None) => write!(f, "members of the group {id} may connect"),
            Allowed::Owner(id) => write!(f, "the user {id} alone may connect"),
            Allowed::Unknown => write!(f, "a folder above it cannot be entered"),
        }
    }
}

/// What `tokend status` finds.
#[derive(Drop)]
pub(crate) enum Standing {
    Serves(TokenInfo),
    /// The system takes the connection, and no answer comes.
    Silent,
    Forbidden(Allowed),
    NobodyListens,
    NoFile,
    NoSocket,
    Failed(io::Error),
}

impl Standing {
    /// The exit status.
    pub(crate) fn status(&self) -> u8
        ensures value { result ≡ standing_status self.now }
        ensures known { IsStandingStatus result }
    {
        match self {
            Standing::Serves(_) => 0,
            Standing::NobodyListens | Standing::NoFile | Standing::NoSocket | Standing::Failed(_) =>
                4,
            Standing::Silent => 8,
            Standing::Forbidden(_) => 9,
        }
    }
}

impl Display for Standing {
    fn fmt<W: Write>(&self, f: &mut Formatter<W>) -> fmt::Result {
        match self {
            Standing::Serves(info) => write_info(f, info),
            Standing::Silent => write!(
                f,
                "no answer in a second: all connections are taken, or the daemon hangs"
            ),
            Standing::Forbidden(allowed) => write!(f, "no permission: {allowed}"),
            Standing::NobodyListens => write!(f, "nobody listens"),
            Standing::NoFile => write!(f, "there is no such file"),
            Standing::NoSocket => write!(f, "it is no socket"),
            Standing::Failed(error) => write!(f, "cannot be used: {error}"),
        }
    }
}

/// What a token's information has, without the blanks that pad its label.
fn write_info<W: Write>(f: &mut Formatter<W>, info: &TokenInfo) -> fmt::Result {
    if info.flags & CKF_TOKEN_INITIALIZED == 0 {
        return write!(f, "serves, and its token is not initialised");
    }
    let label = info.label.as_slice().trim_ascii_end().escape_ascii();
    let user = if info.flags & CKF_USER_PIN_LOCKED != 0 {
        "is locked"
    } else if info.flags & CKF_USER_PIN_INITIALIZED != 0 {
        "is set"
    } else {
        "is not set"
    };
    let so = if info.flags & CKF_SO_PIN_LOCKED != 0 {
        "is locked"
    } else {
        "is set"
    };
    let sessions = info.session_count;
    write!(
        f,
        "serves the token \"{label}\"; the user's PIN {user}, the security officer's {so}; {sessions} sessions of this connection"
    )
}
