//! C_CloseSession and C_CloseAllSessions (PKCS #11 v3.1, 5.6).

ghost use Rattle.std.specs.Prelude.{◌≢◌};
ghost use Rattle.model_views.specs.Answering.{Replies};
ghost use Rattle.model_session_answers.specs.CloseSession.{close_all_sessions, close_session};
ghost use Rattle.serve_base.specs.Refusing.{AtDesk};

use crate::SLOT;
use ck_calls::Reply;
use ck_types::Rv;
use desk::Desk;
use precede::Condition;
use serve_base::Refusal;

/// C_CloseSession (PKCS #11 v3.1, 5.6).
/// Codes: the checks of C_CloseSession (`precede`). Closes a session, with its objects.
pub fn serve(desk: &mut Desk, session: u64) -> Result<Reply, Refusal>
    ensures serves { AtDesk Replies (λ v. close_session v session) desk.old result desk.new }
    ensures small { result ≢ Err Refusal.Memory }
{
    let _ = desk.state(session).ok_or(Condition::NoSession)?;
    desk.close(session);
    Ok(Reply::Code(Rv::Ok))
}

/// C_CloseAllSessions (PKCS #11 v3.1, 5.6).
/// Codes: the checks of C_CloseAllSessions (`precede`). Closes all sessions of the application.
pub fn serve_all(desk: &mut Desk, slot: u64) -> Result<Reply, Refusal>
    ensures serves { AtDesk Replies (λ v. close_all_sessions v slot) desk.old result desk.new }
    ensures small { result ≢ Err Refusal.Memory }
{
    if slot != SLOT {
        return Err(Refusal::Condition(Condition::NoSlot));
    }
    desk.close_all();
    Ok(Reply::Code(Rv::Ok))
}
