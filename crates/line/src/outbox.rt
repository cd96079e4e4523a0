//! The replies of a connection on their way to its writer.

ghost use Rattle.std.specs.Prelude.{◌≡◌, ◌==◌, [], ◌++◌, length};
ghost use Rattle.wire.specs.Replies.{Fits-reply, IsWithinLimits};
ghost use Rattle.line.specs.Asking.{Queues, SentBy, Took};
ghost use Rattle.line.specs.Permits.{Permits};

use crate::asked::Wrote;
use crate::put::{flush_out, put};
use ck_calls::Reply;
use door::{Licence, Sink};
use lists::GhostBytes;
use std::alloc::Global;
use std::marker::Model;
use watched::Watched;
use wire::{WireFault, write_reply, write_reply_over};

/// The greatest length of a frame whose memory is kept for the next one.
const KEPT_LEN: usize = 65_536;

/// The frames of replies, as far as a writer has not taken them.
#[derive(Drop)]
pub(crate) struct Outbox {
    frame: Vec<u8>,
    /// How many bytes of `frame` were taken.
    sent: usize,
    written: GhostBytes,
}

impl Model for Outbox {
    ghost use Rattle.std.specs.Prelude.{◌≤◌, drop, length};
    ghost use Rattle.line.specs.State.{Outgoing};

    ghost Value = { Outgoing };

    ghost view = { λ o. record { written = o.written.bytes; pending = drop o.sent o.frame.items } };

    ghost invariant = { λ o. o.sent ≤ length o.frame.items };
}

impl Outbox {
    /// No reply.
    pub(crate) fn new(alloc: Global) -> Outbox
        ensures { result ≡ record { written = []; pending = [] } }
    {
        Outbox {
            frame: Vec::new(alloc),
            sent: 0,
            written: GhostBytes::new(),
        }
    }

    /// Whether all was taken.
    pub(crate) fn is_empty(&self) -> bool
        ensures { result ≡ (length self.now.pending == 0) }
    {
        self.sent == self.frame.len()
    }

    /// Puts a reply behind those that are pending. Its frame is written over the last one, where none is pending.
    ///
    /// # Errors
    ///
    /// Those of `write_reply`, with nothing changed.
    pub(crate) fn queue(&mut self, alloc: Global, reply: &Reply) -> Result<(), WireFault>
        ensures queues { Queues self.old self.new reply.now result }
        // A reply within the limits has an encoding.
        ensures fits { IsWithinLimits reply.now → Fits-reply reply.now }
    {
        if self.sent < self.frame.len() {
            let more = write_reply(alloc, reply)?;
            self.frame.extend_from_slice(&more)?;
            return Ok(());
        }
        match write_reply_over(&mut self.frame, reply) {
            Ok(()) => {
                self.sent = 0;
                Ok(())
            }
            Err(fault) => {
                self.frame.clear();
                self.sent = 0;
                Err(fault)
            }
        }
    }

    /// Writes what is pending, and flushes the writer once all was taken. The memory of a frame above 65,536 bytes is then given
    /// back.
    pub(crate) fn send<L: Licence, W: Sink<L>>(
        &mut self,
        alloc: Global,
        writer: &mut Watched<W>,
        licence: &L,
    ) -> Wrote
        requires may { Permits (L.allows licence.now) (W.writing writer.old.inner) self.old.pending }
        ensures out { self.new.written ++ self.new.pending ≡ self.old.written ++ self.old.pending }
        ensures took { Took (W.writing writer.old.inner) (W.writing writer.new.inner) self.old.written self.new.written }
        ensures by { SentBy result self.new.pending writer.old writer.new }
    {
        let (_, rest) = self.frame.split_at(self.sent);
        let put = put(writer, licence, &mut self.written, rest);
        self.sent = self.frame.len() - put.lacking;
        match put.wrote {
            Wrote::All => {
                if self.frame.len() > KEPT_LEN {
                    self.frame = Vec::new(alloc);
                    self.sent = 0;
                }
                match flush_out::<L, W>(writer) {
                    Ok(()) => Wrote::All,
                    Err(error) => Wrote::Failed(error),
                }
            }
            Wrote::Later => Wrote::Later,
            Wrote::Failed(error) => Wrote::Failed(error),
        }
    }
}
