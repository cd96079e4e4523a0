//! What the log says of calls that change the token or a PIN, and of PINs that are wrong or locked. It names no PIN and no label.

use crate::seat::SocketSeat;
use ck_calls::{Call, Reply};
use ck_types::Rv;
use log::{Log, info, warn};

/// A call whose outcome may be a line.
#[derive(Clone, Copy, Drop)]
pub(crate) enum Audited {
    InitToken,
    InitPin,
    SetPin,
    Login,
}

impl Audited {
    /// Which of them a call is, if it is one.
    pub(crate) fn of(call: &Call) -> Option<Audited> {
        match call {
            Call::InitToken { .. } => Some(Audited::InitToken),
            Call::InitPin { .. } => Some(Audited::InitPin),
            Call::SetPin { .. } => Some(Audited::SetPin),
            Call::Login { .. } => Some(Audited::Login),
            _ => None,
        }
    }

    /// The name that PKCS #11 gives the function.
    fn name(self) -> &'static str {
        match self {
            Audited::InitToken => "C_InitToken",
            Audited::InitPin => "C_InitPIN",
            Audited::SetPin => "C_SetPIN",
            Audited::Login => "C_Login",
        }
    }
}

impl<S, L: Log, C> SocketSeat<S, L, C> {
    /// Logs what came of an application's call.
    #[inline(never)]
    pub(crate) fn log_outcome(&self, app: u64, call: Audited, reply: &Reply) {
        let Reply::Code(code) = reply else {
            return;
        };
        let title = self.sockets.title(app);
        let name = call.name();
        match (code, call) {
            (Rv::PinIncorrect, _) => info!(self.log; "{title}: {name}: a wrong PIN"),
            (Rv::PinLocked, _) => info!(self.log; "{title}: {name}: the PIN is locked"),
            (Rv::Ok, Audited::InitToken) => {
                warn!(self.log; "{title}: {name}: the token is initialised, and the objects that it had are destroyed");
            }
            (Rv::Ok, Audited::InitPin) => info!(self.log; "{title}: {name}: the user's PIN is set"),
            (Rv::Ok, Audited::SetPin) => info!(self.log; "{title}: {name}: a PIN is changed"),
            _ => {}
        }
    }
}
