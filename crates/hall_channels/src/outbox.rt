//! The token's end of one outward channel.

ghost use Rattle.std.specs.Prelude.{◌≡◌, None, Some};

use crate::ends::{Receiver, Sender, bounded};
use crate::messages::{Answered, Message, Outward, Returned};
use hall_log::{Naming, Receipt};
use serve_base::Out;
use std::alloc::{AllocError, Global};
use std::sync::Wait;

/// The token's end of one seat's channel, on which it gives answers. It has the seat's message until the seat is permitted to begin.
#[derive(Drop)]
pub struct Outbox<J: Naming> {
    message: Option<Box<Message>>,
    outward: Sender<Outward<J>>,
}

impl<J: Naming> Outbox<J> {
    /// Both ends of a new channel with room for one message: the token's, with the seat's message, and the seat's. It allocates.
    pub fn open(alloc: Global) -> Result<(Outbox<J>, Receiver<Outward<J>>), AllocError> {
        let message = Message::new(alloc)?;
        let (outward, receiver) = bounded(alloc, 1)?;
        Ok((
            Outbox {
                message: Some(message),
                outward,
            },
            receiver,
        ))
    }

    /// Permits the seat to begin, by its message. False where that was done before, or the channel has ended.
    pub fn begin<R: Wait>(&mut self, rt: &R) -> bool {
        match self.message.take() {
            Some(message) => self.give(rt, Outward::Begin(message)),
            None => false,
        }
    }

    /// Bids the seat stop before it begins. False where the channel has ended.
    pub fn stop<R: Wait>(&mut self, rt: &R) -> bool {
        self.give(rt, Outward::Stop)
    }

    /// Gives the seat its message with an answer, by the receipt for it, and waits while the channel is full. False where the channel
    /// has ended.
    pub fn answer<R: Wait>(
        &mut self,
        rt: &R,
        mut message: Box<Message>,
        out: Out,
        receipt: Receipt<J>,
    ) -> bool
        requires { receipt.answer.value ≡ Some out }
    {
        message.set_answer(out);
        self.give(rt, Outward::Answer(Answered { message, receipt }))
    }

    /// Gives the seat its message back, by the receipt for its disconnect, and waits while the channel is full. False where the channel
    /// has ended.
    pub fn give_back<R: Wait>(&mut self, rt: &R, message: Box<Message>, receipt: Receipt<J>) -> bool
        requires { receipt.answer.value ≡ None }
    {
        self.give(rt, Outward::Back(Returned { message, receipt }))
    }

    /// Gives a message to the seat, and waits while the channel is full. False where the channel has ended.
    fn give<R: Wait>(&mut self, rt: &R, message: Outward<J>) -> bool {
        self.outward.send(rt, message)
    }
}
