//! Who connects is let in, each once.

ghost use Rattle.std.specs.Prelude.{◌≡◌, ◌∷◌, [], ◌++◌, IfErr, IfOk};
ghost use Rattle.door.specs.Coming.{AreEnds, IsFreshApp};

use crate::pair::{Reader, Writer, ends_of};
use crate::socket::Socket;
use lists::GhostList;
use std::alloc::Global;
use std::io::{self, ErrorKind};
use std::marker::{Model, PhantomData};
use std::os::unix::net::UnixListener;
use std::time::Duration;

/// ENOMEM.
const NO_MEMORY: i32 = 12;

/// Listeners on sockets. Contracts see the applications whose connections came.
#[derive(Drop)]
pub struct Door<S> {
    listeners: Vec<UnixListener>,
    last: usize,
    came: GhostList<u64>,
    of: PhantomData<S>,
}

impl<S> Model for Door<S> {
    ghost use Rattle.std.specs.Prelude.{ℕ, List};

    ghost Value = { List ℕ };

    ghost view = { λ d. d.came.items };
}

impl<S> Door<S> {
    /// A door by which nobody came yet.
    pub fn new(listeners: Vec<UnixListener>) -> Door<S>
        ensures { result ≡ [] }
    {
        Door {
            listeners,
            last: 0,
            came: GhostList::new(),
            of: PhantomData,
        }
    }

    /// The listeners, in their order.
    pub fn listeners(&self) -> &[UnixListener] {
        &self.listeners
    }

    /// Which listener the last connection came by.
    pub fn last(&self) -> usize {
        self.last
    }
}

impl<S: Socket + Drop> Door<S> {
    /// Accepts who waits, for an application that had no connection, by the listener behind that of the last connection, or by the next
    /// one that has somebody. Its reads and writes wait for `patience`, or not at all. Errors are those of the system, with ENOMEM where
    /// there is no memory, and `WouldBlock` where nobody waits.
    pub fn accept(
        &mut self,
        alloc: Global,
        app: u64,
        patience: Option<Duration>,
    ) -> io::Result<(Reader<S>, Writer<S>)>
        requires fresh { IsFreshApp app self.old }
        ensures came { IfOk result (λ ends. (self.new ≡ self.old ++ app ∷ []) × AreEnds app ends) }
        ensures none { IfErr result (λ _. self.new ≡ self.old) }
    {
        let (socket, last) = self.accept_by_any(patience)?;
        let Ok(ends) = ends_of(alloc, socket, app) else {
            return Err(io::Error::from_raw_os_error(NO_MEMORY));
        };
        self.last = last;
        self.came.push(&app);
        Ok(ends)
    }

    /// A connection by any listener, and which one that is.
    fn accept_by_any(&self, patience: Option<Duration>) -> io::Result<(S, usize)> {
        let count = self.listeners.len();
        let mut at = self.last;
        for _ in 0..count {
            let next = at.saturating_add(1);
            at = if next < count { next } else { 0 };
            if let Some(listener) = self.listeners.get(at) {
                match S::accept(listener, patience) {
                    Ok(socket) => return Ok((socket, at)),
                    Err(error) if error.kind() == ErrorKind::WouldBlock => {}
                    Err(error) => return Err(error),
                }
            }
        }
        Err(ErrorKind::WouldBlock.into())
    }
}
