//! A token over a list that takes events, and the events that it left once more.

ghost use Rattle.std.specs.Prelude.{[], All, IfOk};
ghost use Rattle.model_worlds.specs.Events.{HasRandom};
ghost use Rattle.test_allocations.specs.Waiting.{IsWaiting};

use crate::events::events_of;
use ck_calls::Reply;
use ck_types::Rv;
use keep::ListKeep;
use pin_record::Record;
use std::alloc::{AllocError, Global};
use std::mem;
use std::test::Fail;
use test_scripts::{Row, Step, Told, expect_told, reply_of};
use token::{Event, Job, Ran, Token};

/// A token over a list, with the jobs of its pending calls.
#[derive(Drop)]
pub(crate) struct Talk {
    alloc: Global,
    token: Token<ListKeep>,
    out: Vec<(u64, Job)>,
}

/// A token over a new list.
fn new_token(alloc: Global, record: Record) -> Result<Token<ListKeep>, Fail>
    ensures { IfOk result (λ t. IsWaiting t []) }
{
    let keep = ListKeep::new(alloc, record);
    match Token::new(alloc, keep) {
        Ok(token) => Ok(token),
        Err(refused) => {
            drop(refused);
            Err(AllocError.into())
        }
    }
}

/// Takes events until all are taken, or an allocation fails.
fn run(alloc: Global, token: &mut Token<ListKeep>, events: Vec<Event>, out: Vec<(u64, Job)>) -> Ran
    requires random { All HasRandom events.items }
    requires jobs { IsWaiting token.old out.items }
    ensures random { All HasRandom result.left.items }
    ensures jobs { IsWaiting token.new result.out.items }
{
    token.run(alloc, events, out)
}

impl Talk {
    pub(crate) fn new(alloc: Global, record: Record) -> Result<Talk, Fail>
        ensures { IfOk result (λ t. IsWaiting t.token t.out.items) }
    {
        Ok(Talk {
            alloc,
            token: new_token(alloc, record)?,
            out: Vec::new(alloc),
        })
    }

    /// What applications get for the events. Those that are left since an allocation failed are taken then.
    pub(crate) fn replies_to(&mut self, events: Vec<Event>) -> Result<Vec<(u64, Reply)>, Fail>
        requires random { All HasRandom events.items }
        requires jobs { IsWaiting self.old.token self.old.out.items }
        ensures { IsWaiting self.new.token self.new.out.items }
    {
        let out = mem::replace(&mut self.out, Vec::new(self.alloc));
        let Ran {
            mut replies,
            out,
            left,
        } = run(self.alloc, &mut self.token, events, out);
        let Ran {
            replies: more,
            out,
            left,
        } = run(self.alloc, &mut self.token, left, out);
        self.out = out;
        if !left.is_empty() {
            return Err("events are left though no allocation failed".into());
        }
        for reply in more {
            replies.push(reply)?;
        }
        Ok(replies)
    }
    /// What an application gets for one event.
    pub(crate) fn reply_to(&mut self, app: u64, step: Step) -> Result<Option<Reply>, Fail>
        requires { IsWaiting self.old.token self.old.out.items }
        ensures { IsWaiting self.new.token self.new.out.items }
    {
        let events = events_of(self.alloc, &[(app, step, Told::Nothing)])?;
        let mut replies = self.replies_to(events)?;
        match replies.pop() {
            Some((_, reply)) => Ok(Some(reply)),
            None => Ok(None),
        }
    }

    /// What an application gets for a call, or for the result of its job, and whether it is for that.
    pub(crate) fn answer_to(&mut self, app: u64, step: Step) -> Result<(Option<Reply>, bool), Fail>
        requires { IsWaiting self.old.token self.old.out.items }
        ensures { IsWaiting self.new.token self.new.out.items }
    {
        match self.reply_to(app, step)? {
            Some(reply) => Ok((Some(reply), false)),
            None => Ok((self.reply_to(app, Step::Finish)?, true)),
        }
    }

    /// Sees that a row goes as it is written, at once, or when it comes again after a failed allocation.
    pub(crate) fn expect(&mut self, row: Row) -> Result<(), Fail>
        requires { IsWaiting self.old.token self.old.out.items }
        ensures { IsWaiting self.new.token self.new.out.items }
    {
        let (app, step, told) = row;
        let mut got = self.answer_to(app, step)?.0;
        if code_of(&got) == Some(Rv::HostMemory) {
            got = self.answer_to(app, step)?.0;
        }
        let wanted = reply_of(self.alloc, told)?;
        expect_told("a row", (app, step), &wanted, &got)
    }
}

/// The code of a reply that is no more than that.
pub(crate) fn code_of(got: &Option<Reply>) -> Option<Rv> {
    match got {
        Some(Reply::Code(code)) => Some(*code),
        _ => None,
    }
}
