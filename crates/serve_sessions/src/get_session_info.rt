//! C_GetSessionInfo (PKCS #11 v3.1, 5.6).

ghost use Rattle.std.specs.Prelude.{◌≢◌};
ghost use Rattle.model_views.specs.Answering.{Replies};
ghost use Rattle.model_session_answers.specs.GetSessionInfo.{get_session_info};
ghost use Rattle.serve_base.specs.Refusing.{AtDesk};

use crate::SLOT;
use ck_calls::{Reply, SessionInfo};
use desk::Desk;
use precede::Condition;
use serve_base::Refusal;

/// C_GetSessionInfo (PKCS #11 v3.1, 5.6).
/// Codes: the checks of C_GetSessionInfo (`precede`). Returns a session's slot, its state and whether it is read/write. Changes nothing.
pub fn serve(desk: &Desk, session: u64) -> Result<Reply, Refusal>
    ensures serves { AtDesk Replies (λ v. get_session_info v session) desk.now result desk.now }
    ensures small { result ≢ Err Refusal.Memory }
{
    let state = desk.state(session).ok_or(Condition::NoSession)?;
    let read_write = desk.is_read_write(session).ok_or(Condition::NoSession)?;
    Ok(Reply::SessionInfo(SessionInfo {
        slot: SLOT,
        state,
        read_write,
    }))
}
