//! A seat's events.

ghost use Rattle.std.specs.Prelude.{◌≡◌, ◌%◌, ◌∷◌, [], ◌++◌, ℕ, IfSome, IfNone};
ghost use Rattle.hall.specs.SeatEvents.{seat_app};
ghost use Rattle.line_places.specs.Keeping.{HasGone};
ghost use Rattle.hall_sockets.specs.Staying.{SeatGives, IsEmptyAt, IsNobodyLeft, IsStill, MayEnd, MayGoOnFrom, SeatStays};

use crate::audit::Audited;
use crate::kind::Kind;
use crate::seat::SocketSeat;
use crate::sockets::Title;
use door::{Licence, Outgoing, Socket};
use hall::SeatEvent;
use line::{Ending, Next};
use log::{Log, error, info, warn};
use std::time::Clock;

impl<S: Socket + Drop, L: Log, C: Clock> SocketSeat<S, L, C> {
    /// Asks the connection at a place for its next call, which is an event of the seat, or its end is.
    pub(crate) fn event_at<N: Licence>(&mut self, licence: &N, place: usize) -> Option<SeatEvent>
    where
        S: Outgoing<N>,
        requires may { MayGoOnFrom S.given (N.allows licence.now) self.old }
        ensures { SeatGives S.given self.old self.new result }
    {
        self.asked_since = self.asked_since.saturating_add(1);
        match self
            .clients
            .next_call(self.alloc, place, licence, &mut self.piece)
        {
            Next::Call(call) => {
                let audited = Audited::of(&call.call);
                let kind = Kind::of(&call.call);
                let event = SeatEvent::Call(call);
                self.asked.push(&event);
                self.called_place = place;
                self.audited = audited;
                self.show_socket(place);
                self.begin_call(place, kind);
                Some(event)
            }
            Next::Nothing => {
                let is_stuck = self.is_pending(place);
                self.watch(place, is_stuck);
                None
            }
            Next::Ended(ending) => {
                self.report(place, &ending);
                self.end(place)
            }
        }
    }

    /// Shows by which socket the connection at a place came.
    fn show_socket(&self, place: usize) {
        if let Some(socket) = self.came_by.get(place) {
            self.sockets.serve(self.clients.number, *socket);
        }
    }

    /// How a line names the connection at a place.
    fn title(&self, app: u64, place: usize) -> Title<'_> {
        self.sockets
            .title_at(app, self.came_by.get(place).copied().unwrap_or(0))
    }

    /// Whether bytes of replies are to be written yet at a place.
    pub(crate) fn is_pending(&self, place: usize) -> bool {
        match self.clients.client(place) {
            Some(client) => client.is_pending(),
            None => false,
        }
    }

    /// The connection at a place ends, and its application disconnects.
    #[inline(never)]
    pub(crate) fn end(&mut self, place: usize) -> Option<SeatEvent>
        ensures gives { SeatGives S.given self.old self.new result }
        ensures none { IfNone result (IsStill self.old self.new × IsEmptyAt self.new place) }
    {
        let app = self.clients.close(place)?;
        let event = SeatEvent::Gone { app };
        self.asked.push(&event);
        self.count = self.count.saturating_sub(1);
        self.may_accept = true;
        self.tell_load();
        Some(event)
    }

    /// One of the connections ends, if there is one, and the others need not wait for this seat to accept anybody.
    #[inline(never)]
    pub(crate) fn leave(&mut self) -> Option<SeatEvent>
        ensures gives { SeatGives S.given self.old self.new result }
        ensures none { IfNone result ((MayEnd self.old → MayEnd self.new) × IsNobodyLeft self.new) }
    {
        self.loads.close(self.clients.number);
        'places: for place in 0..self.clients.len() {
            let event = self.end(place);
            if event.is_some() {
                return event;
            }
        }
        None
    }

    /// The connection of which nothing came for too long ends, if there is one.
    #[inline(never)]
    pub(crate) fn end_idle(&mut self) -> Option<SeatEvent>
        ensures { SeatGives S.given self.old self.new result }
    {
        let Some(place) = self.idle_place() else {
            self.idle_checked = self.time;
            return None;
        };
        self.say_idle(place);
        self.end(place)
    }

    #[inline(never)]
    fn say_idle(&self, place: usize) {
        if let Some(client) = self.clients.client(place) {
            let title = self.title(client.app, place);
            info!(self.log; "{title} is ended: nothing came of it for too long");
        }
    }

    /// Logs why a connection ends.
    #[inline(never)]
    fn report(&self, place: usize, ending: &Ending) {
        let Some(client) = self.clients.client(place) else {
            return;
        };
        let title = self.title(client.app, place);
        match ending {
            Ending::Closed => info!(self.log; "{title} ends"),
            Ending::TooLong | Ending::Cut => {
                if self.loads.refused.add(self.time.as_secs()) {
                    warn!(self.log; "{title} is refused: {ending}");
                }
            }
            Ending::Memory => error!(self.log; "{title} is ended: {ending}"),
            Ending::Read(_) | Ending::Write(_) => info!(self.log; "{title} is ended: {ending}"),
        }
    }
}
