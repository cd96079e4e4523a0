//! Seats (connection workers) and the `Gate` before their jobs.

ghost use Rattle.std.specs.Prelude.{◌≡◌, ℕ, List, IfSome, IfNone, MatchOption};
ghost use Rattle.hall_log.specs.Lists.{of};
ghost use Rattle.hall_log.specs.Log.{served};
ghost use Rattle.hall.specs.SeatEvents.{IsAwaitedReply, MayAsk, StandsThen};

use ck_calls::{AppCall, Reply};
use hall_log::{Naming, Told};

/// What a seat puts before the token of itself.
#[derive(Drop)]
pub enum SeatEvent {
    /// A call of one of its applications.
    Call(AppCall),
    /// A disconnect of one of its applications, which is named no more.
    Gone { app: u64 },
}

/// A connection worker: where events come from and replies go. Of four seats, seat s has the applications with remainder s
/// modulo 4.
///
/// Each call of it is told a history that the token has served (`Told`), in which all that this seat has put was answered.
pub trait Seat<J: Naming> {
    ghost use Rattle.hall_log.specs.Histories.{Exchange};
    ghost use Rattle.ck_calls.specs.declared.app_call.AppCall.{AppCall};

    /// Its number, from 0 to 3.
    ghost number: { Self → ℕ };

    /// It has returned that there is no more.
    ghost over: { Self → Type 0 };

    /// What never changes of it, as the seed of its applications' random bytes.
    ghost fixed: { Self → List ℕ };

    /// What must be known of the log's name, by what never changes of it: when a call counts as read.
    ghost knows: { List ℕ → Type 0 };

    /// It stands as after these exchanges of its own.
    ghost stands: { Self → List Exchange → Type 0 };

    /// It waits for the reply to this call, which came after these exchanges of its own.
    ghost waits: { Self → List Exchange → AppCall → Type 0 };

    /// The next event, or that there is no more. An application that has disconnected is named no more. It may wait, and holds up
    /// no other seat.
    fn next(&mut self, told: &Told<J>) -> Option<SeatEvent>
        requires knows { knows (fixed self.old) }
        requires stands { stands self.old (of (number self.old) (served told.now)) }
        ensures number { number self.new ≡ number self.old }
        ensures fixed { fixed self.new ≡ fixed self.old }
        ensures over { IfNone result (over self.new) }
        ensures may { IfSome result (MayAsk J.was_read (number self.old) (of (number self.old) (served told.now))) }
        ensures stands { MatchOption result (stands self.new (of (number self.old) (served told.now)))
            (StandsThen (stands self.new) (waits self.new) (of (number self.old) (served told.now))) };

    /// Takes the reply to its last call, which was of this application. It can't fail, so `next` allocates for it before.
    fn take(&mut self, app: u64, reply: Reply, told: &Told<J>)
        requires knows { knows (fixed self.old) }
        requires reply { IsAwaitedReply (waits self.old) (of (number self.old) (served told.now)) app reply }
        ensures number { number self.new ≡ number self.old }
        ensures fixed { fixed self.new ≡ fixed self.old }
        ensures stands { stands self.new (of (number self.old) (served told.now)) };
}

/// Where a seat passes with a job before it runs it. It may wait there, and holds up no other seat.
pub trait Gate {
    /// Seat `seat`, from 0 to 3, passes with a job of the application.
    fn pass(&self, seat: usize, app: u64);
}
