//! A seat on a socket before the token.

ghost use Rattle.std.specs.Prelude.{◌≡◌, ◌∷◌, true};
ghost use Rattle.line_places.specs.Keeping.{IsOwed};
ghost use Rattle.line_places.specs.Permitting.{MayTakeAt};
ghost use Rattle.hall_sockets.specs.Staying.{SeatHears, SeatIsDone, SeatStandsAfter, WaitsFor};
ghost use Rattle.hall_sockets.specs.Writing.{IsNameOf};

use crate::leave::Leave;
use crate::seat::SocketSeat;
use ck_calls::Reply;
use door::{Licence, Outgoing, Socket};
use hall::{Seat, SeatEvent};
use hall_log::{Naming, Told};
use line::accounts;
use line_places::dues;
use log::Log;
use std::time::Clock;

impl<J: Naming, S: Outgoing<Leave<J>> + Drop, L: Log, C: Clock + Drop> Seat<J>
    for SocketSeat<S, L, C> {
    ghost number = { λ s. s.clients.number };

    ghost fixed = { λ s. s.clients.number ∷ s.clients.seed };

    ghost knows = { λ fixed. IsNameOf S.given J.given J.seed J.was_read fixed };

    ghost over = { λ s. (s.has_ended ≡ true) × SeatIsDone s };

    ghost stands = { λ s xs. SeatStandsAfter S.given s xs };

    ghost waits = { λ s before call. WaitsFor S.given s before call };

    fn next(&mut self, told: &Told<J>) -> Option<SeatEvent> {
        accounts();
        dues();
        let licence = Leave::by(told);
        let event = self.next_event(&licence);
        drop(licence);
        if event.is_none() {
            self.loads.looked(self.clients.number, u64::MAX);
            self.has_ended = true;
        }
        event
    }

    fn take(&mut self, app: u64, reply: Reply, told: &Told<J>) {
        dues();
        let licence = Leave::by(told);
        self.take_reply(&licence, app, reply);
    }
}

impl<S: Socket + Drop, L: Log, C: Clock> SocketSeat<S, L, C> {
    /// Takes the reply to the last call, which was of this application, and writes it to its connection by the licence.
    pub fn take_reply<N: Licence>(&mut self, licence: &N, app: u64, reply: Reply)
    where
        S: Outgoing<N>,
        requires owed { IsOwed self.old.clients.places.items self.old.called_place app }
        requires may { MayTakeAt (N.allows licence.now) (λ w. w) self.old.clients.places.items self.old.called_place reply }
        ensures { SeatHears S.given self.old self.new app reply }
    {
        let place = self.called_place;
        if let Some(call) = self.audited {
            self.log_outcome(app, call, &reply);
        }
        self.clients.reply(self.alloc, place, licence, app, reply);
        if self.is_pending(place) {
            self.watch(place, true);
        }
    }
}
