//! Steps of the log.

ghost use Rattle.std.specs.Prelude.{◌≡◌, ◌+◌, ◌^◌, ◌<◌, ◌++◌, [], ◌∷◌, length, IsTrue, List};
ghost use mathlib.Core.List.{IsPrefix};
ghost use Rattle.hall_log.specs.Lists.{of};
ghost use Rattle.hall_log.specs.Histories.{events};
ghost use Rattle.hall_log.specs.Log.{Orderly, puts, served, word_of};
ghost use Rattle.hall_log.specs.declared.entry.Entry.{Entry as EntryType};

use crate::entry::Entry;
use crate::event::Event;
use crate::naming::Naming;
use crate::reached::Reached;
use crate::rule::{Adds, LogRule, Nothing, PutNote, Puts, ServeNote, Serves};
use logbook::{Offer, Word};
use serve_base::Out;
use std::snapshot::Snapshot;

impl<J: Naming> Reached<J> {
    /// Adds that a seat puts an event, where its word counts as many as it has put here.
    pub(crate) fn put(
        &mut self,
        word: &Word<Entry, u64, LogRule>,
        seat: u64,
        count: u64,
        event: &Event,
    ) -> bool
        requires seat { seat < 4 }
        requires word { word.now ≡ word_of J.book seat }
        requires count { length (puts seat self.old) ≡ count }
        requires room { count + 1 < 2 ^ 64 }
        ensures grows { IsPrefix self.old self.new }
        ensures put { IsTrue result → (puts seat self.new ≡ puts seat self.old ++ event.now ∷ []) × Orderly self.new }
    {
        let note = PutNote {
            seat,
            event: Snapshot::of(event),
        };
        let mut offer: Offer<Entry, u64, LogRule, Nothing> = self
            .seen
            .plain::<Nothing, PutNote, Adds>(&note);
        let mut pen = self.seen.no_pen();
        let found = word.compare_exchange::<Puts, Nothing>(
            count,
            count + 1,
            &mut self.seen,
            &mut offer,
            &mut pen,
        );
        found == count
    }

    /// Adds that the next event of a seat was answered so, where the word counts as many as were served.
    pub(crate) fn serve(
        &mut self,
        word: &Word<Entry, u64, LogRule>,
        count: u64,
        seat: u64,
        event: Snapshot<Event>,
        answer: &Option<Out>,
    ) -> bool
        requires word { word.now ≡ word_of J.book 4 }
        requires room { count + 1 < 2 ^ 64 }
        requires next { (u : List EntryType) × IsPrefix u self.old × (length (served u) ≡ count)
            × IsPrefix (events (of seat (served u)) ++ event.value ∷ []) (puts seat self.old) }
        ensures grows { IsPrefix self.old self.new }
        ensures served { IsTrue result → (served self.new ≡ served self.old ++ (seat, (event.value, answer.now)) ∷ [])
            × (length (served self.old) ≡ count) × Orderly self.new }
    {
        let note = ServeNote {
            seat,
            event,
            answer: Snapshot::of(answer),
        };
        let mut offer: Offer<Entry, u64, LogRule, Nothing> = self
            .seen
            .plain::<Nothing, ServeNote, Adds>(&note);
        let mut pen = self.seen.no_pen();
        let found = word.compare_exchange::<Serves, Nothing>(
            count,
            count + 1,
            &mut self.seen,
            &mut offer,
            &mut pen,
        );
        found == count
    }
}
