//! What a call returns.

ghost use Rattle.std.specs.Prelude.{◌≡◌};
ghost use Rattle.ck_calls.specs.declared.reply.Reply.{Reply as ReplyType};
ghost use Rattle.serve_base.specs.declared.out.Out.{Out as OutType};
ghost use Rattle.serve_base.specs.declared.out.Out.TheVariants.{Reply as OutReply};

use ck_calls::Reply;
use mech::Job;

/// What a call returns.
#[derive(Drop)]
pub enum Out {
    Reply(Reply),
    /// The reply comes when this job is done.
    Ask(Job),
}

/// What is returned: a reply, or what may be one.
pub trait Returned: Sized {
    ghost as_out: { Self → OutType };

    ghost of_reply: { ReplyType → Self };

    /// It as what a call returns.
    fn into_out(self) -> Out
        ensures { result ≡ as_out self };

    /// A reply as this.
    fn of_reply(reply: Reply) -> Self
        ensures { result ≡ of_reply reply };
}

impl Returned for Reply {
    ghost as_out = { OutReply };

    ghost of_reply = { λ reply. reply };

    fn into_out(self) -> Out {
        Out::Reply(self)
    }

    fn of_reply(reply: Reply) -> Self {
        reply
    }
}

impl Returned for Out {
    ghost as_out = { λ out. out };

    ghost of_reply = { OutReply };

    fn into_out(self) -> Out {
        self
    }

    fn of_reply(reply: Reply) -> Self {
        Out::Reply(reply)
    }
}
