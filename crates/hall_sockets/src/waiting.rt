//! A seat's wait for its connections and its listener.

ghost use Rattle.std.specs.Prelude.{◌≡◌};
ghost use Rattle.hall_sockets.specs.Staying.{Rests};

use crate::seat::SocketSeat;
use line_places::MAX_CLIENTS;
use mio::unix::SourceFd;
use mio::{Events, Interest, Token};
use std::io::ErrorKind;
use std::time::{Clock, Duration};

/// The token of the first listener, behind which come those of the others; that of a connection is its place.
pub(crate) const LISTENER: usize = MAX_CLIENTS;

/// How many seconds a wait lasts at most, before a seat looks whether the daemon is to end.
pub(crate) const PATIENCE: u64 = 1;

impl<S, L, C: Clock> SocketSeat<S, L, C> {
    /// A place is to be asked.
    pub(crate) fn note(&mut self, place: usize)
        ensures rests { Rests self.old self.new }
        ensures called_place { self.new.called_place ≡ self.old.called_place }
    {
        if !self.queue.note(place) {
            self.has_failed = true;
        }
    }

    /// Waits until a connection or the listener has something, or for as long as given.
    pub(crate) fn wait(&mut self, longest: Duration)
        ensures { Rests self.old self.new }
    {
        self.asked_since = 0;
        if let Err(error) = self.poll.poll(&mut self.events, Some(longest)) {
            if error.kind() != ErrorKind::Interrupted {
                self.has_failed = true;
            }
            return;
        }
        self.read_clock();
        self.note_events();
    }

    fn read_clock(&mut self)
        ensures { Rests self.old self.new }
    {
        if let Ok(time) = self.clock.monotonic() {
            self.time = time;
        }
    }

    /// Notes the places that have something, and whether somebody waits to be accepted.
    fn note_events(&mut self)
        ensures { Rests self.old self.new }
    {
        'events: for event in self.events.iter() {
            let Token(place) = event.token();
            if place >= LISTENER {
                self.may_accept = true;
            } else {
                if let Some(used) = self.last_used.get_mut(place) {
                    *used = self.time;
                }
                if !self.queue.note(place) {
                    self.has_failed = true;
                }
            }
        }
    }

    /// Has the seat wait until the peer at a place takes more, or no longer.
    pub(crate) fn watch(&mut self, place: usize, is_stuck: bool)
        ensures { Rests self.old self.new }
    {
        let (Some(was), Some(fd)) = (self.is_stuck.get_mut(place), self.descriptors.get(place))
        else {
            return;
        };
        if *was == is_stuck {
            return;
        }
        *was = is_stuck;
        let interest = if is_stuck {
            Interest::READABLE | Interest::WRITABLE
        } else {
            Interest::READABLE
        };
        let registered = self
            .poll
            .registry()
            .reregister(&mut SourceFd(fd), Token(place), interest);
        if registered.is_err() {
            self.has_failed = true;
        }
    }
}
