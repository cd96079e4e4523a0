//! How a seat comes to its connections.

ghost use Rattle.std.specs.Prelude.{◌≡◌, IsTrue};
ghost use Rattle.hall_sockets.specs.Staying.{Rests, SeatStays};

use crate::seat::SocketSeat;
use crate::waiting::{LISTENER, PATIENCE};
use door::Socket;
use log::{Log, info, warn};
use mio::unix::SourceFd;
use mio::{Interest, Poll, Token};
use std::io::{self, ErrorKind};
use std::os::fd::{AsRawFd, RawFd};
use std::sync::atomic::Ordering;
use std::time::{Clock, Duration};

/// For how many milliseconds who waits to be accepted is left to a seat with fewer connections. The first seat that looks after that
/// accepts him, however many it has.
const LEFT_FOR: u64 = 10;

/// EMFILE, ENFILE, ENOBUFS and ENOMEM: no more descriptors or memory at the moment.
const SHORTAGES: [i32; 4] = [24, 23, 105, 12];

/// Has a wait report what comes of the connection at a place.
fn wait_for(poll: &Poll, place: usize, fd: RawFd) -> io::Result<()> {
    poll.registry()
        .register(&mut SourceFd(&fd), Token(place), Interest::READABLE)
}

impl<S: Socket + Drop, L: Log, C: Clock> SocketSeat<S, L, C> {
    pub(crate) fn is_stopping(&self) -> bool {
        self.is_stopping.load(Ordering::SeqCst)
    }

    /// Whether no connection is there, and none comes any more.
    pub(crate) fn is_over(&self) -> bool
        ensures { IsTrue result → (self.now.accepts_left ≡ 0) × (self.now.count ≡ 0) }
    {
        self.accepts_left == 0 && self.count == 0
    }

    /// A place where a connection may come to.
    fn free_place(&self) -> Option<usize> {
        if self.accepts_left == 0 {
            return None;
        }
        'places: for place in 0..self.clients.len() {
            if self.clients.is_free(place) {
                return Some(place);
            }
        }
        None
    }

    /// Whether this seat may accept somebody who may wait: it has a free place.
    pub(crate) fn can_accept(&self) -> bool {
        self.may_accept && self.free_place().is_some()
    }

    /// Accepts one who waits, unless a seat with fewer connections is to.
    pub(crate) fn accept_next(&mut self)
        ensures { SeatStays S.given self.old self.new }
    {
        if !self.may_accept {
            return;
        }
        let Some(place) = self.free_place() else {
            return;
        };
        if self.was_left() || self.loads.is_least(self.clients.number) {
            self.accept_at(place);
        } else {
            self.leave_to_others();
        }
    }

    /// Whether who waits was left to others for long enough.
    fn was_left(&self) -> bool {
        match self.left_since {
            Some(since) => self.time.saturating_sub(since) >= Duration::from_millis(LEFT_FOR),
            None => false,
        }
    }

    /// Leaves who waits to a seat with fewer connections. At the next look the listener is asked whether somebody waits still.
    fn leave_to_others(&mut self)
        ensures { Rests self.old self.new }
    {
        if self.left_since.is_none() {
            self.left_since = Some(self.time);
        }
        self.may_accept = false;
        self.is_leaving = true;
    }

    /// Has the next wait report whether somebody waits to be accepted by a listener.
    pub(crate) fn ask_listener(&mut self)
        ensures { Rests self.old self.new }
    {
        self.is_leaving = false;
        if self.renew_listeners().is_err() {
            self.has_failed = true;
        }
    }

    fn renew_listeners(&self) -> io::Result<()> {
        let registry = self.poll.registry();
        for (listener, at) in self.door.listeners().iter().zip(LISTENER..) {
            let fd = listener.as_raw_fd();
            registry.reregister(&mut SourceFd(&fd), Token(at), Interest::READABLE)?;
        }
        Ok(())
    }

    /// Accepts one, to stand at a place that is free.
    fn accept_at(&mut self, place: usize)
        ensures { SeatStays S.given self.old self.new }
    {
        match self.seat_at(place) {
            Ok(Some(fd)) => self.begin(place, fd),
            Ok(None) => {}
            Err(error) => self.not_accepted(error),
        }
    }

    /// Accepts one for a place, whom the seat waits for from now on, and returns the connection's descriptor. None where nobody may come
    /// to the place, and where whoever came can't be waited for.
    fn seat_at(&mut self, place: usize) -> io::Result<Option<RawFd>>
        ensures { SeatStays S.given self.old self.new }
    {
        let Some(app) = self.clients.next_app(place) else {
            return Ok(None);
        };
        let patience = self.patience();
        let (reader, writer) = self.door.accept(self.alloc, app, patience)?;
        let fd = reader.descriptor();
        match wait_for(&self.poll, place, fd) {
            Ok(()) => {
                self.clients.open(self.alloc, place, reader, writer);
                Ok(Some(fd))
            }
            Err(error) => {
                self.clients.pass(place);
                self.say_unaccepted(&error);
                Ok(None)
            }
        }
    }

    /// Logs that a connection is not accepted, once a minute; the others are counted.
    fn say_unaccepted(&self, error: &io::Error) {
        if self.loads.unaccepted.add(self.time.as_secs()) {
            warn!(self.log; "a connection is not accepted: {error}");
        }
    }

    /// Whether the seat has one place, and no limit of time for its connection. Then a read of it may wait, since it holds up nobody.
    pub(crate) fn is_single(&self) -> bool {
        self.clients.len() == 1 && self.idle.is_none()
    }

    /// For how long a read and a write of a new connection wait, where there is no other. Otherwise they never wait.
    fn patience(&self) -> Option<Duration> {
        if self.is_single() {
            Some(Duration::from_secs(PATIENCE))
        } else {
            None
        }
    }

    /// A connection has come to a place.
    fn begin(&mut self, place: usize, fd: RawFd)
        ensures { Rests self.old self.new }
    {
        if let Some(known) = self.descriptors.get_mut(place) {
            *known = fd;
        }
        if let (Some(stuck), Some(used), Some(came_by)) = (
            self.is_stuck.get_mut(place),
            self.last_used.get_mut(place),
            self.came_by.get_mut(place),
        ) {
            *stuck = false;
            *used = self.time;
            *came_by = self.door.last();
        }
        self.queue.begin(place);
        self.accepts_left = self.accepts_left.saturating_sub(1);
        self.count = self.count.saturating_add(1);
        self.tell_load();
        self.note(place);
        self.say_begun(place);
    }

    #[inline(never)]
    fn say_begun(&self, place: usize) {
        if let Some(client) = self.clients.client(place) {
            let title = self.sockets.title_at(client.app, self.door.last());
            info!(self.log; "{title} begins");
        }
    }

    /// Shows the other seats how many connections there are.
    pub(crate) fn tell_load(&self) {
        self.loads.set(self.clients.number, self.count);
        if self.accepts_left == 0 {
            self.loads.close(self.clients.number);
        }
    }

    /// Nobody was accepted: none waits any more, or a peer disconnected before, or the listener failed.
    fn not_accepted(&mut self, error: io::Error)
        ensures { Rests self.old self.new }
    {
        match error.kind() {
            ErrorKind::ConnectionAborted | ErrorKind::Interrupted => {}
            ErrorKind::WouldBlock => {
                self.may_accept = false;
                self.left_since = None;
            }
            _ => {
                let is_short = error
                    .raw_os_error()
                    .is_some_and(|code| SHORTAGES.contains(&code));
                if is_short {
                    // Who waits is accepted once somebody else connects, or a connection ends.
                    self.may_accept = false;
                    self.say_unaccepted(&error);
                } else {
                    self.has_failed = true;
                }
            }
        }
    }
}
