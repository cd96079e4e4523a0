// Calls of one application, for rows that measure a token.

use ck_calls::{Call, Reply, need};
use ck_types::Rv;
use keep::ListKeep;
use pin_record::Record;
use std::alloc::Global;
use std::io;
use token::{Out, Token};

/// The application, and its session.
const APP: u64 = 1;

pub(crate) const SESSION: u64 = 1;

pub(crate) fn failed() -> io::Error {
    io::Error::from(io::ErrorKind::Other)
}

/// A new token over a keeper in memory.
pub(crate) fn new_token(alloc: Global) -> io::Result<Token<ListKeep>> {
    match Token::new(alloc, ListKeep::new(alloc, Record::new())) {
        Ok(token) => Ok(token),
        Err(refused) => {
            drop(refused);
            Err(failed())
        }
    }
}

/// One call, and the result of its job if it returns one.
pub(crate) fn reply_to(
    alloc: Global,
    token: &mut Token<ListKeep>,
    call: Call,
) -> io::Result<Reply> {
    let Ok(random) = vec![in alloc; 0u8; need(&call)] else {
        drop(call);
        return Err(failed());
    };
    match token.call(alloc, APP, call, &random) {
        Out::Reply(reply) => Ok(reply),
        Out::Ask(job) => Ok(token.finish(alloc, APP, job.run(alloc))),
    }
}

/// Whether the call succeeded: the reply has what it gives, or CKR_OK.
fn is_ok(reply: &Reply) -> bool {
    match reply {
        Reply::Code(code) => *code == Rv::Ok,
        Reply::BufferTooSmall(_) => false,
        _ => true,
    }
}

/// One call, which succeeds.
pub(crate) fn succeeds(alloc: Global, token: &mut Token<ListKeep>, call: Call) -> io::Result<()> {
    let reply = reply_to(alloc, token, call)?;
    let is_ok = is_ok(&reply);
    drop(reply);
    if is_ok { Ok(()) } else { Err(failed()) }
}

/// Opens the application's first session.
pub(crate) fn open(alloc: Global, token: &mut Token<ListKeep>) -> io::Result<()> {
    succeeds(alloc, token, Call::OpenSession { slot: 0, flags: 6 })
}
