//! Beginnings of the log.

ghost use Rattle.std.specs.Prelude.{◌≡◌, ◌⊎◌};
ghost use mathlib.Core.List.{IsPrefix};
ghost use Rattle.hall_log.specs.Histories.{AllOwn};
ghost use Rattle.hall_log.specs.Log.{Orderly, served};
ghost use Rattle.hall_log.specs.Suiting.{HistorySuits};

use crate::entry::Entry;
use crate::naming::Naming;
use crate::rule::LogRule;
use logbook::Seen;
use std::marker::{Model, PhantomData};

/// A beginning of the log, that was reached. Contracts see it as its entries.
#[derive(Drop)]
pub struct Reached<J: Naming> {
    pub(crate) seen: Seen<Entry, u64, LogRule>,
    pub(crate) of: PhantomData<J>,
}

impl<J: Naming> Model for Reached<J> {
    ghost use Rattle.std.specs.Prelude.{◌≡◌, List};
    ghost use Rattle.hall_log.specs.declared.entry.Entry.{Entry};

    ghost Value = { List Entry };

    ghost view = { λ r. r.seen.log };

    ghost invariant = { λ r. r.seen.book ≡ J.book };
}

impl<J: Naming> Reached<J> {
    /// A copy.
    pub fn again(&self) -> Reached<J>
        ensures { result ≡ self.now }
    {
        Reached {
            seen: self.seen.again(),
            of: PhantomData,
        }
    }

    /// A beginning of the log that both begin. So of any two that were reached, in any threads, one begins the other.
    pub fn with(&self, other: &Reached<J>) -> Reached<J>
        ensures this { IsPrefix self.now result }
        ensures that { IsPrefix other.now result }
        ensures orderly { Orderly result }
    {
        let mut seen = self.seen.again();
        seen.learn(&other.seen);
        Reached {
            seen,
            of: PhantomData,
        }
    }
}

/// A beginning of the log whose history the machine has served.
#[derive(Drop)]
pub struct Told<J: Naming> {
    pub(crate) reached: Reached<J>,
}

impl<J: Naming> Model for Told<J> {
    ghost use Rattle.std.specs.Prelude.{List};
    ghost use Rattle.hall_log.specs.declared.entry.Entry.{Entry};
    ghost use Rattle.hall_log.specs.Log.{served};

    ghost Value = { List Entry };

    ghost view = { λ t. t.reached };

    ghost invariant = { λ t. J.served (served t.reached) };
}

impl<J: Naming> Told<J> {
    /// That it was reached.
    pub fn reached(&self) -> Reached<J>
        ensures { result ≡ self.now }
    {
        self.reached.again()
    }

    /// A copy. The machine has served its history, in which each event is of an application of its own seat, and has an answer that suits
    /// it.
    pub fn again(&self) -> Told<J>
        ensures same { result ≡ self.now }
        ensures served { J.served (served result) }
        ensures own { AllOwn (served result) }
        ensures suited { HistorySuits (served result) }
    {
        Told {
            reached: self.reached.again(),
        }
    }
}

/// Of any two histories that were told, to any seats, one begins the other.
pub fn one_order<J: Naming>(first: &Told<J>, second: &Told<J>)
    ensures { IsPrefix (served first.now) (served second.now) ⊎ IsPrefix (served second.now) (served first.now) }
{
    let first = first.reached();
    let second = second.reached();
    let both = first.with(&second);
    drop(both);
}
