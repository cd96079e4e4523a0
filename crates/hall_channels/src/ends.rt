//! The two ends of a bounded channel. No rule stands over it, since what passes carries the log's word for itself.

ghost use Rattle.std.specs.Prelude.{◌<◌};

use crossbeam_channel::protocol::{Free, Split};
use crossbeam_channel::{Pass, RuledReceiver, RuledSender, bounded_with};
use std::alloc::{AllocError, Global};
use std::marker::Model;
use std::sync::Wait;

/// A pass, which knows nothing, is parted into two.
pub struct Parts;

impl Split<()> for Parts {
    ghost left = { λ v. tt };

    ghost right = { λ v. tt };
}

/// The end on which messages are sent. Clauses see nothing of it.
#[derive(Drop)]
pub struct Sender<M: Drop> {
    sender: RuledSender<M, (), Free>,
    pass: Pass<M, ()>,
}

impl<M: Drop> Model for Sender<M> {
    ghost use Rattle.std.specs.Prelude.{⊤};
    ghost use Rattle.crossbeam_channel.specs.Claims.{IsSeatAt};
    ghost use Rattle.crossbeam_channel.specs.Ends.{sends_on};

    ghost Value = { ⊤ };

    ghost view = { λ _. tt };

    ghost invariant = { λ s. IsSeatAt (sends_on s.sender) s.pass };
}

/// The end on which messages are received. Clauses see nothing of it.
#[derive(Drop)]
pub struct Receiver<M: Drop> {
    receiver: RuledReceiver<M, (), Free>,
    pass: Pass<M, ()>,
}

impl<M: Drop> Model for Receiver<M> {
    ghost use Rattle.std.specs.Prelude.{⊤};
    ghost use Rattle.crossbeam_channel.specs.Claims.{IsSeatAt};
    ghost use Rattle.crossbeam_channel.specs.Ends.{receives_on};

    ghost Value = { ⊤ };

    ghost view = { λ _. tt };

    ghost invariant = { λ r. IsSeatAt (receives_on r.receiver) r.pass };
}

/// Both ends of a new channel with room for so many messages, at least one. It allocates.
pub(crate) fn bounded<M: Drop>(
    alloc: Global,
    room: usize,
) -> Result<(Sender<M>, Receiver<M>), AllocError>
    requires { 0 < room }
{
    let (sender, receiver, mut pass) = bounded_with::<M, (), Free, Global>(alloc, room)?;
    let theirs = sender.another::<Parts>(&mut pass);
    Ok((
        Sender { sender, pass },
        Receiver {
            receiver,
            pass: theirs,
        },
    ))
}

impl<M: Drop> Sender<M> {
    /// Another end of the same channel. It allocates.
    pub fn another(&mut self) -> Result<Sender<M>, AllocError> {
        let sender = self.sender.try_clone()?;
        let pass = self.sender.another::<Parts>(&mut self.pass);
        Ok(Sender { sender, pass })
    }

    /// Sends a message, and waits while the channel is full. False where its other end is gone.
    pub(crate) fn send<R: Wait>(&mut self, rt: &R, message: M) -> bool {
        self.sender
            .send_as::<Free, R>(rt, &mut self.pass, message)
            .is_ok()
    }
}

impl<M: Drop> Receiver<M> {
    /// Receives the next message, and sleeps until it comes. None where all other ends are gone.
    #[inline(never)]
    pub(crate) fn recv<R: Wait>(&mut self, rt: &R) -> Option<M> {
        self.receiver.recv_as::<Free, R>(rt, &mut self.pass).ok()
    }

    /// Receives the next message, if there is one.
    pub(crate) fn try_recv<R: Wait>(&mut self, rt: &R) -> Option<M> {
        self.receiver
            .try_recv_as::<Free, R>(rt, &mut self.pass)
            .ok()
    }
}
