//! Calls that take long. A seat takes short ones first, and at most half of the seats are at long ones while quick connections are served.

ghost use Rattle.std.specs.Prelude.{◌≡◌};
ghost use Rattle.hall_sockets.specs.Staying.{Rests};

use crate::kind::Kind;
use crate::seat::SocketSeat;
use door::{Socket, peek};
use log::Log;
use std::time::{Clock, Duration};

/// A search of more microseconds is long.
const SHORT_SEARCH: u64 = 300;

/// The milliseconds of a time.
fn millis(time: Duration) -> u64 {
    u64::try_from(time.as_millis()).unwrap_or(u64::MAX)
}

impl<S: Socket + Drop, L: Log, C: Clock> SocketSeat<S, L, C> {
    /// The place that is to be asked next: one whose call isn't long, or one whose long call may begin.
    pub(crate) fn next_place(&mut self) -> Option<usize>
        ensures { Rests self.old self.new }
    {
        self.end_call();
        if self.queue.is_overdue(self.time, self.count) && self.may_begin() {
            return self.next_late();
        }
        let place = self.next_short();
        if place.is_some() || !self.may_begin() {
            return place;
        }
        self.next_late()
    }

    /// The next place whose call isn't long. Those before it whose call is are put off.
    fn next_short(&mut self) -> Option<usize>
        ensures { Rests self.old self.new }
    {
        'places: for _ in 0..self.clients.len() {
            let place = self.queue.next()?;
            if !self.must_wait(place) {
                return Some(place);
            }
            self.put_off(place);
        }
        None
    }

    /// Whether a place is to stand behind others: its next call is long, and was not admitted. Where the seat has one place, and where
    /// nobody else waits and few seats are at long calls, that isn't looked at, nor where nobody made a long call lately.
    fn must_wait(&self, place: usize) -> bool {
        let matters = self.queue.has_more() || self.loads.crowd.is_full(self.clients.number);
        matters
            && !self.loads.crowd.is_calm(millis(self.time))
            && !self.is_single()
            && !self.queue.is_admitted(place)
            && self.is_long_at(place)
    }

    /// Whether the next frame at a place is of a long call, as far as its front has come.
    fn is_long_at(&self, place: usize) -> bool {
        let Some(descriptor) = self.descriptors.get(place) else {
            return false;
        };
        let mut front = [0; 6];
        if peek(*descriptor, &mut front) < front.len() {
            return false;
        }
        self.is_long(Kind::of_frame(front))
    }

    /// Whether a call of this kind is long. Searches are where the last one was.
    fn is_long(&self, kind: Kind) -> bool {
        match kind {
            Kind::Short => false,
            Kind::Search => self.queue.are_searches_long,
            Kind::Long => true,
        }
    }

    /// A place stands behind those whose call isn't long.
    fn put_off(&mut self, place: usize)
        ensures { Rests self.old self.new }
    {
        if !self.queue.put_off(place, self.time) {
            self.has_failed = true;
        }
        self.tell_late();
    }

    /// Shows the other seats since when this one has a long call that it didn't begin.
    fn tell_late(&self) {
        let since = match self.queue.late_since() {
            Some(since) => millis(since),
            None => 0,
        };
        self.loads.crowd.set_waits(self.clients.number, since);
    }

    /// Whether the first long call may begin.
    fn may_begin(&self) -> bool {
        match self.queue.late_since() {
            Some(since) => {
                self.loads
                    .crowd
                    .may_begin(self.clients.number, millis(since), millis(self.time))
            }
            None => false,
        }
    }

    /// The first place whose call is long.
    fn next_late(&mut self) -> Option<usize>
        ensures { Rests self.old self.new }
    {
        let place = self.queue.next_late()?;
        self.tell_late();
        Some(place)
    }

    /// The connection at a place makes a call of this kind. It is asked again until a read would block: its event may have been of what
    /// is still to come, as the end.
    pub(crate) fn begin_call(&mut self, place: usize, kind: Kind)
        ensures rests { Rests self.old self.new }
        ensures called_place { self.new.called_place ≡ self.old.called_place }
    {
        let time = millis(self.time);
        if self.queue.is_admitted(place) || self.is_long(kind) {
            self.queue.call_long(place);
            self.queue.is_at_long = true;
            self.loads.crowd.begin_long(self.clients.number, time);
        } else if self.queue.call_short(place) {
            self.loads.crowd.note_short(time);
        }
        if let Kind::Search = kind {
            self.queue.search_began = self.clock.monotonic().ok();
        }
        self.note(place);
    }

    /// The last call has its reply.
    fn end_call(&mut self)
        ensures { Rests self.old self.new }
    {
        if self.queue.is_at_long {
            self.queue.is_at_long = false;
            self.loads.crowd.end_long(self.clients.number);
        }
        if let Some(began) = self.queue.search_began.take() {
            if let Ok(time) = self.clock.monotonic() {
                self.queue.are_searches_long = time.saturating_sub(began)
                    > Duration::from_micros(SHORT_SEARCH);
            }
        }
    }
}
