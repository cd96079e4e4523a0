//! A seat's ends.

ghost use Rattle.std.specs.Prelude.{◌≡◌, ◌++◌, ◌∷◌, [], None, Some, IfSome, IsSome, IsTrue};
ghost use Rattle.hall_log.specs.Putting.{MayPut};
ghost use Rattle.hall_log.specs.SeatLogs.{done_by, Awaits, IsIdle};

use crate::ends::{Receiver, Sender};
use crate::messages::{Answered, Inward, Message, Outward, Posted, Returned};
use crate::patience::Patience;
use hall_log::{Event, Naming, Putter};
use serve_base::Out;
use std::alloc::Global;
use std::snapshot::Snapshot;
use std::sync::Wait;
use std::time::Clock;

/// How often a seat yields to the other threads before it sleeps, where that is cheap: the token answers meanwhile, or works for
/// others.
const TURNS: u32 = 40;

/// The ends of one seat: it puts events before the token, one after the other, and gets the answer to each. Its `putter` knows what it
/// did. It has its message once it may begin, except while that is with the token: so who has it may put an event.
#[derive(Drop)]
pub struct Port<J: Naming> {
    pub message: Option<Box<Message>>,
    pub putter: Putter<J>,
    inward: Sender<Inward<J>>,
    outward: Receiver<Outward<J>>,
    patience: Patience,
    pub ghost idle: { IsSome message → IsIdle putter },
}

impl<J: Naming> Port<J> {
    /// A seat's ends, without its message.
    pub fn new(
        putter: Putter<J>,
        inward: Sender<Inward<J>>,
        outward: Receiver<Outward<J>>,
    ) -> Port<J>
        ensures { result.putter ≡ putter }
    {
        Port {
            message: None,
            putter,
            inward,
            outward,
            patience: Patience::new(),
        }
    }

    /// Gets the message by which the seat may begin, and waits for it. False where it is to stop, or the channel has ended.
    pub fn begin<R: Wait + Clock>(&mut self, rt: &R) -> bool
        requires idle { IsIdle self.old.putter }
        ensures same { self.new.putter ≡ self.old.putter }
        ensures message { IsTrue result → IsSome self.new.message }
    {
        match self.receive(rt) {
            Some(Outward::Begin(message)) => {
                self.message = Some(message);
                true
            }
            Some(other) => {
                drop(other);
                false
            }
            None => false,
        }
    }

    /// Puts an event, and waits for its answer. None where the channel has ended, and where the log has another count than this seat,
    /// which no run meets.
    pub fn ask<R: Wait + Clock>(&mut self, rt: &R, event: Event) -> Option<Out>
        requires message { IsSome self.old.message }
        requires may { MayPut J.was_read self.old.putter.seat (done_by self.old.putter) event }
        ensures seat { self.new.putter.seat ≡ self.old.putter.seat }
        ensures message { IfSome result (λ _. IsSome self.new.message) }
        ensures done { IfSome result (λ out. done_by self.new.putter ≡ done_by self.old.putter ++ (event, Some out) ∷ []) }
    {
        let put = Snapshot::of(&event);
        if !self.put(rt, event) {
            return None;
        }
        match self.receive(rt)? {
            Outward::Answer(answered) => {
                let Answered {
                    mut message,
                    receipt,
                } = answered;
                let out = message.take_answer();
                if !self.putter.take(&put, receipt) {
                    return None;
                }
                self.message = Some(message);
                Some(out)
            }
            other => {
                drop(other);
                None
            }
        }
    }

    /// Puts a disconnect, which has no answer, and waits until it was taken. False where `ask` has None.
    pub fn tell<R: Wait + Clock>(&mut self, rt: &R, event: Event) -> bool
        requires message { IsSome self.old.message }
        requires may { MayPut J.was_read self.old.putter.seat (done_by self.old.putter) event }
        ensures seat { self.new.putter.seat ≡ self.old.putter.seat }
        ensures message { IsTrue result → IsSome self.new.message }
        ensures done { IsTrue result → done_by self.new.putter ≡ done_by self.old.putter ++ (event, None) ∷ [] }
    {
        let put = Snapshot::of(&event);
        if !self.put(rt, event) {
            return false;
        }
        match self.receive(rt) {
            Some(Outward::Back(returned)) => {
                let Returned { message, receipt } = returned;
                if !self.putter.take(&put, receipt) {
                    return false;
                }
                self.message = Some(message);
                true
            }
            Some(other) => {
                drop(other);
                false
            }
            None => false,
        }
    }

    /// Puts the mark that this seat puts no more, and whether it had no more. It waits while the channel is full. False where the
    /// channel has ended.
    pub fn end<R: Wait>(&mut self, rt: &R, whole: bool) -> bool
        ensures { (self.new.putter ≡ self.old.putter) × (self.new.message ≡ self.old.message) }
    {
        let seat = self.putter.seat();
        self.inward.send(rt, Inward::End { seat, whole })
    }

    /// Puts an event in the seat's message, and waits while the channel is full. False where it was not put.
    fn put<R: Wait>(&mut self, rt: &R, event: Event) -> bool
        requires message { IsSome self.old.message }
        requires may { MayPut J.was_read self.old.putter.seat (done_by self.old.putter) event }
        ensures seat { self.new.putter.seat ≡ self.old.putter.seat }
        ensures none { self.new.message ≡ None }
        ensures told { done_by self.new.putter ≡ done_by self.old.putter }
        ensures awaits { IsTrue result → Awaits self.new.putter event }
    {
        let mut message = self.message.take().unwrap();
        let Some(post) = self.putter.post(&event) else {
            return false;
        };
        message.set_event(event);
        self.inward.send(rt, Inward::Put(Posted { message, post }))
    }

    /// Gets the next message for this seat, and waits for it. None where the channel has ended.
    fn receive<R: Wait + Clock>(&mut self, rt: &R) -> Option<Outward<J>>
        ensures { (self.new.putter ≡ self.old.putter) × (self.new.message ≡ self.old.message) }
    {
        self.patience.receive(rt, &mut self.outward, TURNS)
    }
}
