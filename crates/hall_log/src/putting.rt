//! A seat's end.

ghost use Rattle.std.specs.Prelude.{◌≡◌, ◌<◌, ◌++◌, [], ◌∷◌, IfSome, IsTrue, IsFalse};
ghost use Rattle.hall_log.specs.Histories.{AllOwn};
ghost use Rattle.hall_log.specs.Log.{served};
ghost use Rattle.hall_log.specs.Putting.{MayPut};
ghost use Rattle.hall_log.specs.SeatLogs.{done_by, Awaits, IsIdle};

use crate::entry::Entry;
use crate::event::Event;
use crate::naming::Naming;
use crate::post::{Post, Receipt};
use crate::reached::{Reached, Told};
use crate::rule::LogRule;
use logbook::Word;
use std::marker::Model;
use std::snapshot::Snapshot;

/// A seat's end: it makes a post of each event, and takes the receipt of its answer before the next one. Contracts see it as
/// what it knows of the log.
#[derive(Drop)]
pub struct Putter<J: Naming> {
    pub(crate) seat: u64,
    /// How many events it has put.
    pub(crate) count: u64,
    pub(crate) word: Word<Entry, u64, LogRule>,
    pub(crate) mine: Reached<J>,
    pub(crate) told: Told<J>,
}

impl<J: Naming> Model for Putter<J> {
    ghost use Rattle.std.specs.Prelude.{◌≡◌, ◌<◌, length};
    ghost use Rattle.hall_log.specs.Log.{puts, word_of};
    ghost use Rattle.hall_log.specs.SeatLogs.{SeatLog};

    ghost Value = { SeatLog };

    ghost view = { λ p. record { seat = p.seat; mine = p.mine; told = p.told } };

    ghost invariant = { λ p. (p.seat < 4) × (p.word ≡ word_of J.book p.seat) × (length (puts p.seat p.mine) ≡ p.count) };
}

impl<J: Naming> Putter<J> {
    /// The seat's number, below 4.
    pub fn seat(&self) -> u64
        ensures { (result ≡ self.now.seat) × (result < 4) }
    {
        self.seat
    }

    /// The beginning of the log that it was told. The machine has served its history.
    pub fn told(&self) -> Told<J>
        ensures told { result ≡ self.now.told }
        ensures served { J.served (served result) }
        ensures own { AllOwn (served result) }
    {
        self.told.again()
    }

    /// Puts an event of the seat, once all before it were answered. None where 2^64 - 1 were put; also where the log has more of this
    /// seat than it knows, which no run meets.
    pub fn post(&mut self, event: &Event) -> Option<Post<J>>
        requires idle { IsIdle self.old }
        requires may { MayPut J.was_read self.old.seat (done_by self.old) event.now }
        ensures same { (self.new.seat ≡ self.old.seat) × (self.new.told ≡ self.old.told) }
        ensures awaits { IfSome result (λ _. Awaits self.new event.now) }
        ensures post { IfSome result (λ p. (p.seat ≡ self.old.seat) × (p.event.value ≡ event.now)) }
    {
        let number = self.count;
        if number == u64::MAX {
            return None;
        }
        let mut mine = self.mine.again();
        if !mine.put(&self.word, self.seat, number, event) {
            return None;
        }
        self.mine = mine;
        self.count = number + 1;
        Some(Post {
            seat: self.seat,
            number,
            event: Snapshot::of(event),
            put: self.mine.again(),
            told: self.told.again(),
        })
    }

    /// Takes the receipt of the answer to its last event. False where it is of another event or another seat, and then nothing was
    /// taken.
    pub fn take(&mut self, _event: &Snapshot<Event>, receipt: Receipt<J>) -> bool
        requires { Awaits self.old _event.now.value }
        ensures same { self.new.seat ≡ self.old.seat }
        ensures got { IsTrue result → (done_by self.new ≡ done_by self.old ++ (_event.now.value, receipt.answer.value) ∷ []) × IsIdle self.new }
        ensures refused { IsFalse result → self.new ≡ self.old }
    {
        let Receipt {
            seat,
            number,
            told,
            ..
        } = receipt;
        if seat != self.seat || number >= self.count || number != self.count - 1 {
            return false;
        }
        let ours = self.told.reached();
        let theirs = told.reached();
        let both = ours.with(&theirs);
        let all = both.with(&self.mine);
        drop(all);
        self.told = told;
        true
    }
}
