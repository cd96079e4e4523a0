//! The two ends of a connection, which share its socket.

ghost use Rattle.std.specs.Prelude.{IfOk};
ghost use Rattle.door.specs.Coming.{AreEnds};

use crate::ends::{Licence, Sink, Source, Taker};
use crate::notes::{Gave, Took};
use crate::socket::{Outgoing, Socket};
use std::alloc::{AllocError, Global};
use std::io;
use std::marker::Model;
use std::os::fd::RawFd;
use std::sync::Arc;

/// The end that is read.
#[derive(Drop)]
pub struct Reader<S> {
    socket: Arc<S, Global>,
    gave: Gave,
}

impl<S> Model for Reader<S> {
    ghost use Rattle.door.specs.Ends.{Reading};

    ghost Value = { Reading };

    ghost view = { λ r. r.gave };
}

impl<S: Socket> Reader<S> {
    /// The descriptor of its socket.
    pub fn descriptor(&self) -> RawFd {
        self.socket.descriptor()
    }
}

impl<S: Socket> Source for Reader<S> {
    ghost given = { λ app bytes. S.given app bytes };

    ghost reading = { λ r. r };

    fn read(&mut self, buf: &mut [u8]) -> io::Result<usize> {
        self.socket.read(&mut self.gave, buf)
    }
}

/// The end that is written.
#[derive(Drop)]
pub struct Writer<S> {
    socket: Arc<S, Global>,
    took: Took,
}

impl<S> Model for Writer<S> {
    ghost use Rattle.door.specs.Ends.{Writing};

    ghost Value = { Writing };

    ghost view = { λ w. w.took };
}

impl<S> Taker for Writer<S> {
    ghost writing = { λ w. w };
}

impl<L: Licence, S: Outgoing<L>> Sink<L> for Writer<S> {
    fn write(&mut self, licence: &L, buf: &[u8]) -> io::Result<usize> {
        self.socket.write(licence, &mut self.took, buf)
    }

    fn flush(&mut self) -> io::Result<()> {
        self.socket.flush()
    }
}

/// Both ends of a socket, for an application.
pub(crate) fn ends_of<S: Drop>(
    alloc: Global,
    socket: S,
    app: u64,
) -> Result<(Reader<S>, Writer<S>), AllocError>
    ensures { IfOk result (AreEnds app) }
{
    let read = Arc::new(alloc, socket)?;
    let written = read.clone()?;
    let reader = Reader {
        socket: read,
        gave: Gave::nothing(app),
    };
    let writer = Writer {
        socket: written,
        took: Took::nothing(app),
    };
    Ok((reader, writer))
}
