//! What passes between the seats and the token.

ghost use Rattle.std.specs.Prelude.{◌≡◌, None, Some};

use ck_calls::Reply;
use hall_log::{Event, Naming, Post, Receipt};
use serve_base::Out;
use std::alloc::{AllocError, Global};
use std::mem;

/// Where an event lies on its way to the token, and its answer on the way back. Each seat has one, which is allocated once.
/// So a channel passes a pointer, and a call allocates nothing for it. In which field to look says the type of what passes.
#[derive(Drop)]
pub struct Message {
    pub(crate) event: Event,
    pub(crate) answer: Out,
}

impl Message {
    /// A message for a seat's events. It allocates.
    pub(crate) fn new(alloc: Global) -> Result<Box<Message>, AllocError> {
        let message = Message {
            event: Event::Gone { app: 0 },
            answer: Out::Reply(Reply::Object(0)),
        };
        match Box::new(alloc, message) {
            Ok(message) => Ok(message),
            Err(refused) => {
                drop(refused);
                Err(AllocError)
            }
        }
    }

    /// Writes an event over the last one.
    pub(crate) fn set_event(&mut self, event: Event)
        ensures { self.new.event ≡ event }
    {
        drop(mem::replace(&mut self.event, event));
    }

    /// Takes the event out.
    pub fn take_event(&mut self) -> Event
        ensures { result ≡ self.old.event }
    {
        mem::replace(&mut self.event, Event::Gone { app: 0 })
    }

    /// Writes an answer over the last one.
    pub(crate) fn set_answer(&mut self, out: Out)
        ensures { self.new.answer ≡ out }
    {
        drop(mem::replace(&mut self.answer, out));
    }

    /// Takes the answer out.
    pub(crate) fn take_answer(&mut self) -> Out
        ensures { result ≡ self.old.answer }
    {
        mem::replace(&mut self.answer, Out::Reply(Reply::Object(0)))
    }
}

/// A message with an event of a seat, and the log's word for it: that this seat put just this event, and might.
#[derive(Drop)]
pub struct Posted<J: Naming> {
    pub message: Box<Message>,
    pub post: Post<J>,
    pub ghost same: { message.value.event ≡ post.event.value },
}

/// What goes to the token.
#[derive(Drop)]
pub enum Inward<J: Naming> {
    /// An event of a seat.
    Put(Posted<J>),
    /// The mark that the seat puts no more, and whether it had no more. If not, it could not go on.
    End { seat: u64, whole: bool },
}

/// A message with the answer to a seat's last event, and the log's word for it: that the token gave just this answer.
#[derive(Drop)]
pub struct Answered<J: Naming> {
    pub(crate) message: Box<Message>,
    pub(crate) receipt: Receipt<J>,
    pub ghost same: { receipt.answer.value ≡ Some message.value.answer },
}

/// A message whose disconnect was taken, and the log's word for it.
#[derive(Drop)]
pub struct Returned<J: Naming> {
    pub(crate) message: Box<Message>,
    pub(crate) receipt: Receipt<J>,
    pub ghost none: { receipt.answer.value ≡ None },
}

/// What goes to a seat.
#[derive(Drop)]
pub enum Outward<J: Naming> {
    /// Its message: it may begin.
    Begin(Box<Message>),
    /// Its message with the token's answer to its last event.
    Answer(Answered<J>),
    /// Its message with nothing for it, since its disconnect was taken.
    Back(Returned<J>),
    /// It is to stop before it begins.
    Stop,
}
