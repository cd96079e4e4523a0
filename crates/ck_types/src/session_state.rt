//! Session states.

ghost use Rattle.std.specs.Prelude.{◌≡◌};
ghost use Rattle.ck_types.specs.Numbers.{session_state_number, IsInverse};

/// The access of a session and who is logged in: a `CK_STATE` (PKCS #11 v3.1, 3.3).
#[derive(Clone, Copy, Debug, PartialEq, Eq)]
pub enum SessionState {
    RoPublic = 0,
    RoUser = 1,
    RwPublic = 2,
    RwUser = 3,
    RwSo = 4,
}

impl SessionState {
    /// The number that PKCS #11 gives it.
    pub fn number(self) -> u64
        ensures { result ≡ session_state_number self }
    {
        self as u64
    }

    /// What the number stands for, or none where it stands for nothing that is known here.
    pub fn from_number(number: u64) -> Option<SessionState>
        ensures { IsInverse session_state_number number result }
    {
        match number {
            0 => Some(SessionState::RoPublic),
            1 => Some(SessionState::RoUser),
            2 => Some(SessionState::RwPublic),
            3 => Some(SessionState::RwUser),
            4 => Some(SessionState::RwSo),
            _ => None,
        }
    }
}
