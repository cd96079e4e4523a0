//! The sockets on which the daemon listens, and how a line names a connection.

ghost use Rattle.std.specs.Prelude.{◌≡◌};

use std::fmt::{self, Display, Formatter, Write};
use std::sync::atomic::{AtomicUsize, Ordering};

/// The names of the sockets, and by which of them the connection came that each of the four seats serves.
#[derive(Drop)]
pub struct Sockets {
    names: Vec<String>,
    serving: [AtomicUsize; 4],
}

/// How a line names a connection: by its application's number, and by its socket where there are several.
#[derive(Clone, Copy)]
pub struct Title<'a> {
    app: u64,
    socket: Option<&'a str>,
}

impl Sockets {
    /// Sockets of these names, one or more.
    pub fn new(names: Vec<String>) -> Sockets
        ensures { result.names ≡ names }
    {
        Sockets {
            names,
            serving: [
                AtomicUsize::new(0),
                AtomicUsize::new(0),
                AtomicUsize::new(0),
                AtomicUsize::new(0),
            ],
        }
    }

    /// Their names.
    pub fn names(&self) -> &[String]
        ensures { result.now ≡ self.now.names.items }
    {
        &self.names
    }

    /// From now on the seat serves a connection that came by a socket.
    pub(crate) fn serve(&self, seat: u64, socket: usize) {
        if let Some(own) = self.serving.get(seat as usize) {
            if own.load(Ordering::SeqCst) != socket {
                own.store(socket, Ordering::SeqCst);
            }
        }
    }

    /// How a line names an application's connection that came by a socket.
    pub(crate) fn title_at(&self, app: u64, socket: usize) -> Title<'_>
        ensures { result.app ≡ app }
    {
        let socket = if self.names.len() > 1 {
            self.names.get(socket)
        } else {
            None
        };
        Title {
            app,
            socket: socket.map(|name| name.as_str()),
        }
    }

    /// How a line names the connection of an application that its seat serves.
    pub fn title(&self, app: u64) -> Title<'_>
        ensures { result.app ≡ app }
    {
        let seat = (app % 4) as usize;
        let socket = match self.serving.get(seat) {
            Some(own) => own.load(Ordering::SeqCst),
            None => 0,
        };
        self.title_at(app, socket)
    }
}

impl Display for Title<'_> {
    fn fmt<W: Write>(&self, f: &mut Formatter<W>) -> fmt::Result {
        match self.socket {
            Some(socket) => write!(f, "connection {} on {socket}", self.app),
            None => write!(f, "connection {}", self.app),
        }
    }
}
