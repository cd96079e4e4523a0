//! C_FindObjects and C_FindObjectsFinal (PKCS #11 v3.1, 5.7.8 and 5.7.9).

ghost use Rattle.std.specs.Prelude.{◌≡◌, ◌≢◌, option_copied, take};
ghost use Rattle.std.specs.Option.{option_map};
ghost use Rattle.sessions.specs.Sessions.{session_at};
ghost use Rattle.ops.specs.Operations.{search_in};
ghost use Rattle.model_views.specs.Answering.{Replies};
ghost use Rattle.model_answers.specs.FindObjects.{answered_at_once, find_objects, find_objects_final};
ghost use Rattle.serve_base.specs.Refusing.{AtDesk};

use ck_calls::Reply;
use ck_types::{Items, Rv};
use desk::Desk;
use precede::Condition;
use serve_base::Refusal;
use std::alloc::Global;

/// The greatest number of handles that one call returns.
pub const FOUND_LIMIT: u64 = 1024;

/// C_FindObjects (PKCS #11 v3.1, 5.7.8).
/// Codes: the checks of C_FindObjects (`precede`). Returns the first handles of a search that weren't returned yet: as many as are wanted,
/// but at most `FOUND_LIMIT`. The search continues after them.
pub fn serve(alloc: Global, desk: &mut Desk, session: u64, max_count: u64) -> Result<Reply, Refusal>
    ensures { AtDesk Replies (λ v. find_objects v session max_count) desk.old result desk.new }
{
    let _ = desk.state(session).ok_or(Condition::NoSession)?;
    let count = at_once(max_count);
    let found = next_found(desk, session, count).ok_or(Condition::NoOperation)?;
    let handles = Items::from_slice(alloc, found)?;
    desk.advance_search(session, count);
    Ok(Reply::Objects(handles))
}

/// The handles that a session's search returns next, at most so many, if it has a search.
fn next_found(desk: &Desk, session: u64, count: usize) -> Option<&[u64]>
    ensures { option_copied result ≡ option_map (take count) (search_in (session_at desk.now.sessions.sessions session)) }
{
    let search = desk.search(session)?;
    Some(search.first(count))
}

/// C_FindObjectsFinal (PKCS #11 v3.1, 5.7.9).
/// Codes: the checks of C_FindObjectsFinal (`precede`). Ends a search.
pub fn serve_final(desk: &mut Desk, session: u64) -> Result<Reply, Refusal>
    ensures serves { AtDesk Replies (λ v. find_objects_final v session) desk.old result desk.new }
    ensures small { result ≢ Err Refusal.Memory }
{
    let _ = desk.state(session).ok_or(Condition::NoSession)?;
    let _ = desk.search(session).ok_or(Condition::NoOperation)?;
    desk.set_search(session, None);
    Ok(Reply::Code(Rv::Ok))
}

/// How many handles are returned where so many are wanted.
fn at_once(max_count: u64) -> usize
    ensures { result ≡ answered_at_once max_count }
{
    max_count.min(FOUND_LIMIT) as usize
}
