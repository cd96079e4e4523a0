//! C_GenerateRandom (PKCS #11 v3.1, 5.19).

ghost use Rattle.std.specs.Prelude.{◌≤◌, length};
ghost use Rattle.model_views.specs.Answering.{Replies};
ghost use Rattle.model_session_answers.specs.GenerateRandom.{generate_random};
ghost use Rattle.serve_base.specs.Refusing.{AtDeskIf};

use ck_calls::Reply;
use ck_types::{Bytes, MAX_RANDOM_LEN};
use desk::Desk;
use precede::Condition;
use serve_base::Refusal;
use std::alloc::Global;

/// C_GenerateRandom (PKCS #11 v3.1, 5.19).
/// Codes: the checks of C_GenerateRandom (`precede`). Returns the call's random bytes, which are as many as are wanted, at most
/// `MAX_RANDOM_LEN`. Changes nothing.
pub fn serve(
    alloc: Global,
    desk: &Desk,
    session: u64,
    len: u64,
    random: &[u8],
) -> Result<Reply, Refusal>
    ensures { AtDeskIf (length random.now ≤ MAX_RANDOM_LEN) Replies (λ v. generate_random v session len random.now) desk.now result desk.now }
{
    let _ = desk.state(session).ok_or(Condition::NoSession)?;
    if len > MAX_RANDOM_LEN {
        return Err(Refusal::Condition(Condition::RandomLength));
    }
    Ok(Reply::Random(Bytes::from_slice(alloc, random)?))
}
