//! C_OpenSession (PKCS #11 v3.1, 5.6).

ghost use Rattle.std.specs.Prelude.{◌≡◌, ◌<◌, ◌^◌};
ghost use Rattle.model_views.specs.Answering.{Replies};
ghost use Rattle.model_session_answers.specs.OpenSession.{has_other_flags, is_read_write, is_serial, open_session};
ghost use Rattle.serve_base.specs.Refusing.{AtDesk};

use crate::SLOT;
use ck_calls::Reply;
use ck_types::{RW_SESSION, SERIAL_SESSION, UserType};
use desk::Desk;
use precede::Condition;
use serve_base::Refusal;

/// All flags of a session.
const FLAGS: u64 = RW_SESSION | SERIAL_SESSION;

/// C_OpenSession (PKCS #11 v3.1, 5.6).
/// Codes: the checks of C_OpenSession (`precede`), and an allocation failure. Opens a session with these flags.
pub fn serve(desk: &mut Desk, slot: u64, flags: u64) -> Result<Reply, Refusal>
    requires { desk.old.sessions.next_number < 2 ^ 63 }
    ensures { AtDesk Replies (λ v. open_session v slot flags) desk.old result desk.new }
{
    if slot != SLOT {
        return Err(Refusal::Condition(Condition::NoSlot));
    }
    if !is_serial(flags) {
        return Err(Refusal::Condition(Condition::NotSerial));
    }
    if has_other_flags(flags) {
        return Err(Refusal::Condition(Condition::UnknownFlag));
    }
    let read_write = is_read_write(flags);
    if desk.logged_in() == Some(UserType::So) && !read_write {
        return Err(Refusal::Condition(Condition::SoLoggedIn));
    }
    if desk.has_all_sessions() {
        return Err(Refusal::Condition(Condition::SessionLimit));
    }
    Ok(Reply::Session(desk.open_session(read_write)?))
}

fn is_serial(flags: u64) -> bool
    ensures { result ≡ is_serial flags }
{
    flags & SERIAL_SESSION != 0
}

fn is_read_write(flags: u64) -> bool
    ensures { result ≡ is_read_write flags }
{
    flags & RW_SESSION != 0
}

fn has_other_flags(flags: u64) -> bool
    ensures { result ≡ has_other_flags flags }
{
    flags | FLAGS != FLAGS
}
