//! C_Logout (PKCS #11 v3.1, 5.6).

ghost use Rattle.std.specs.Prelude.{◌≢◌};
ghost use Rattle.model_views.specs.Answering.{Replies};
ghost use Rattle.model_session_answers.specs.Logout.{logout};
ghost use Rattle.serve_base.specs.Refusing.{AtDesk};

use ck_calls::Reply;
use ck_types::Rv;
use desk::Desk;
use precede::Condition;
use serve_base::Refusal;

/// C_Logout (PKCS #11 v3.1, 5.6).
/// Codes: the checks of C_Logout (`precede`). Logs out, which ends all operations, destroys private session objects, and retires the
/// handles of private token objects.
pub fn serve(desk: &mut Desk, session: u64) -> Result<Reply, Refusal>
    ensures serves { AtDesk Replies (λ v. logout v session) desk.old result desk.new }
    ensures small { result ≢ Err Refusal.Memory }
{
    let _ = desk.state(session).ok_or(Condition::NoSession)?;
    let _ = desk.logged_in().ok_or(Condition::NobodyLoggedIn)?;
    desk.logout();
    Ok(Reply::Code(Rv::Ok))
}
