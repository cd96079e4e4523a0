//! New tokens, and calls that return no job.

ghost use Rattle.std.specs.Prelude.{[], IfOk};
ghost use Rattle.model_worlds.specs.Worlds.{World};
ghost use Rattle.model_runs.specs.Applications.{HasJobs, Shows};

use crate::random::random_for;
use ck_calls::{Call, Reply};
use ck_types::Rv;
use keep::Keep;
use std::alloc::Global;
use std::test::Fail;
use token::{Out, Token};

/// A token over the keeper that nobody has called.
pub fn token_over<K: Keep>(alloc: Global, keep: K) -> Result<Token<K>, Fail>
    ensures { IfOk result (λ t. (w : World) → Shows K.terms t w → HasJobs w []) }
{
    match Token::new(alloc, keep) {
        Ok(token) => Ok(token),
        Err(refused) => {
            drop(refused);
            Err(Fail::new("the keeper refused"))
        }
    }
}

/// What an application gets for a call that returns no job.
pub fn told_at_once<K: Keep>(
    alloc: Global,
    token: &mut Token<K>,
    app: u64,
    call: Call,
) -> Result<Reply, Fail> {
    let random = match random_for(alloc, &call) {
        Ok(random) => random,
        Err(fault) => {
            drop(call);
            return Err(fault);
        }
    };
    match token.call(alloc, app, call, &random) {
        Out::Reply(reply) => Ok(reply),
        Out::Ask(job) => {
            drop(job);
            Err("a call that asks a question".into())
        }
    }
}

/// The session that an application opens.
pub fn opened_session<K: Keep>(alloc: Global, token: &mut Token<K>, app: u64) -> Result<u64, Fail> {
    let reply = told_at_once(alloc, token, app, Call::OpenSession { slot: 0, flags: 6 })?;
    let session = match &reply {
        Reply::Session(session) => Ok(*session),
        _ => Err("no session".into()),
    };
    drop(reply);
    session
}

/// The code that an application gets for a call, or none where it gets more.
pub fn told_code<K: Keep>(
    alloc: Global,
    token: &mut Token<K>,
    app: u64,
    call: Call,
) -> Result<Option<Rv>, Fail> {
    let reply = told_at_once(alloc, token, app, call)?;
    let code = match &reply {
        Reply::Code(code) => Some(*code),
        _ => None,
    };
    drop(reply);
    Ok(code)
}
