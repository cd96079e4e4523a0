//! The token's end of the inward channel.

use crate::ends::{Receiver, Sender, bounded};
use crate::messages::Inward;
use crate::patience::Patience;
use hall_log::Naming;
use std::alloc::{AllocError, Global};
use std::sync::Wait;
use std::time::Clock;

/// How often the token yields to the other threads before it sleeps, where that is cheap: for longer than a client takes from a
/// reply to its next call, since a thread that sleeps is dear to wake.
const TURNS: u32 = 200;

/// How many messages the channel has room for: one of each seat.
const ROOM: usize = 4;

/// The token's end of the one inward channel, on which it takes what the seats put.
#[derive(Drop)]
pub struct Inbox<J: Naming> {
    receiver: Receiver<Inward<J>>,
    patience: Patience,
}

impl<J: Naming> Inbox<J> {
    /// A new channel with room for a message of each seat, and its other end, of which each seat has a copy. It allocates.
    pub fn open(alloc: Global) -> Result<(Inbox<J>, Sender<Inward<J>>), AllocError> {
        let (sender, receiver) = bounded(alloc, ROOM)?;
        Ok((
            Inbox {
                receiver,
                patience: Patience::new(),
            },
            sender,
        ))
    }

    /// Takes the next message, and waits for it. None where all seats have left the channel.
    pub fn take<R: Wait + Clock>(&mut self, rt: &R) -> Option<Inward<J>> {
        self.patience.receive(rt, &mut self.receiver, TURNS)
    }
}
