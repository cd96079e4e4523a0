//! A seat's turns: its connections, one after the other.

ghost use Rattle.std.specs.Prelude.{IfNone, IsTrue};
ghost use Rattle.hall_sockets.specs.Staying.{SeatGives, SeatIsDone, MayEnd, MayGoOnFrom, Rests};

use crate::seat::SocketSeat;
use crate::waiting::PATIENCE;
use door::{Licence, Outgoing, Socket};
use hall::SeatEvent;
use log::Log;
use std::time::{Clock, Duration};

/// After how many turns of its connections a seat looks who else has something, or waits to be accepted.
const TURNS: usize = 16;

/// For how many milliseconds a seat with nothing to do leaves who waits to another one, or a long call to wait, before it looks again.
const SHORT_WAIT: u64 = 1;

impl<S: Socket + Drop, L: Log, C: Clock> SocketSeat<S, L, C> {
    /// The next event. None once the seat has had its connections, or is to end, or failed, and no connection is there. What is to be
    /// written yet, and the refusals of what is no call, are written by the licence.
    pub fn next_event<N: Licence>(&mut self, licence: &N) -> Option<SeatEvent>
    where
        S: Outgoing<N>,
        requires may { MayGoOnFrom S.given (N.allows licence.now) self.old }
        ensures gives { SeatGives S.given self.old self.new result }
        ensures done { IfNone result (SeatIsDone self.new) }
    {
        match self.turns(licence) {
            Some(event) => Some(event),
            None => self.leave(),
        }
    }

    /// Turns until there is an event. None once the seat has had its connections, or is to end, or failed.
    fn turns<N: Licence>(&mut self, licence: &N) -> Option<SeatEvent>
    where
        S: Outgoing<N>,
        requires may { MayGoOnFrom S.given (N.allows licence.now) self.old }
        ensures gives { SeatGives S.given self.old self.new result }
        ensures may { IfNone result (MayEnd self.new) }
    {
        'turns: for _ in 0..u64::MAX {
            if self.is_to_end() {
                return None;
            }
            let event = self.turn(licence);
            if event.is_some() {
                return event;
            }
        }
        self.has_failed = true;
        None
    }

    /// Whether the seat has had its connections, or was told to end, or failed.
    fn is_to_end(&mut self) -> bool
        ensures rests { Rests self.old self.new }
        ensures may { IsTrue result → MayEnd self.new }
    {
        if self.is_stopping() {
            self.was_told = true;
        }
        self.has_failed || self.was_told || self.is_over()
    }

    /// Asks the connection that is next, or looks round: after so many turns, and where none is to be asked.
    fn turn<N: Licence>(&mut self, licence: &N) -> Option<SeatEvent>
    where
        S: Outgoing<N>,
        requires may { MayGoOnFrom S.given (N.allows licence.now) self.old }
        ensures { SeatGives S.given self.old self.new result }
    {
        if self.asked_since >= TURNS {
            return self.accept_or_wait(Duration::ZERO);
        }
        match self.next_place() {
            Some(place) => self.event_at(licence, place),
            None => self.serve_idle_turn(licence),
        }
    }

    /// Whether there is one place, whose connection is there and took all that was written to it.
    fn is_alone(&self) -> bool {
        self.is_single() && self.count == 1 && !self.is_stuck[0]
    }

    /// For how long the seat waits for something, at most: a moment while a long call waits for other seats.
    fn longest_wait(&self) -> Duration {
        if self.queue.has_late() {
            Duration::from_millis(SHORT_WAIT)
        } else {
            Duration::from_secs(PATIENCE)
        }
    }

    /// Asks the only connection, for which a read waits. Otherwise, and where nothing came of it, looks round.
    fn serve_idle_turn<N: Licence>(&mut self, licence: &N) -> Option<SeatEvent>
    where
        S: Outgoing<N>,
        requires may { MayGoOnFrom S.given (N.allows licence.now) self.old }
        ensures { SeatGives S.given self.old self.new result }
    {
        if !self.is_alone() {
            return self.accept_or_wait(self.longest_wait());
        }
        match self.event_at(licence, 0) {
            Some(event) => Some(event),
            None => self.accept_or_wait(Duration::ZERO),
        }
    }

    /// Looks who has something, for so long at most. Ends a connection that is idle, or accepts one who waits.
    #[inline(never)]
    fn accept_or_wait(&mut self, longest: Duration) -> Option<SeatEvent>
        ensures { SeatGives S.given self.old self.new result }
    {
        self.look(longest);
        match self.end_late() {
            Some(event) => Some(event),
            None => {
                self.accept_next();
                None
            }
        }
    }

    /// Ends a connection that is idle, once a second.
    fn end_late(&mut self) -> Option<SeatEvent>
        ensures { SeatGives S.given self.old self.new result }
    {
        if self.must_look() {
            self.end_idle()
        } else {
            None
        }
    }

    /// Waits for something, for so long at most. It doesn't wait while this seat may accept somebody, and a moment alone while it
    /// leaves somebody to another seat.
    fn look(&mut self, longest: Duration)
        ensures { Rests self.old self.new }
    {
        if self.is_leaving {
            self.wait(longest.min(Duration::from_millis(SHORT_WAIT)));
            self.ask_listener();
        } else if self.can_accept() {
            self.wait(Duration::ZERO);
        } else {
            self.wait(longest);
            if !self.may_accept {
                self.left_since = None;
            }
        }
        self.loads.looked(self.clients.number, self.time.as_secs());
    }
}
