//! The token's end.

ghost use Rattle.std.specs.Prelude.{◌≡◌, ◌<◌, ◌++◌, [], ◌∷◌, length, IfNone, IfSome, IsTrue};
ghost use Rattle.hall_log.specs.Lists.{of};
ghost use Rattle.hall_log.specs.Histories.{AllOwn};
ghost use Rattle.hall_log.specs.Log.{served};
ghost use Rattle.hall_log.specs.Putting.{MayPut};
ghost use Rattle.hall_log.specs.SeatLogs.{done_by, IsIdle};
ghost use Rattle.hall_log.specs.Counting.{SeatCounted, count_of};

use crate::entry::Entry;
use crate::naming::Naming;
use crate::post::{Post, Receipt};
use crate::putting::Putter;
use crate::reached::Told;
use crate::rule::LogRule;
use logbook::Word;
use serve_base::Out;
use std::marker::Model;
use std::snapshot::Snapshot;

/// How many events of each of the four seats were served.
#[derive(Clone, Copy)]
pub struct Counts {
    pub first: u64,
    pub second: u64,
    pub third: u64,
    pub fourth: u64,
}

/// The token's end: it serves one event after the other. Contracts see it as the beginning of the log whose history it has served.
#[derive(Drop)]
pub struct Server<J: Naming> {
    /// How many events of each seat were served, and of all.
    pub(crate) counts: Counts,
    pub(crate) count: u64,
    pub(crate) word: Word<Entry, u64, LogRule>,
    pub(crate) told: Told<J>,
}

impl<J: Naming> Model for Server<J> {
    ghost use Rattle.std.specs.Prelude.{◌≡◌, List, length};
    ghost use Rattle.hall_log.specs.Counting.{AreCounts};
    ghost use Rattle.hall_log.specs.Log.{served, word_of};
    ghost use Rattle.hall_log.specs.declared.entry.Entry.{Entry};

    ghost Value = { List Entry };

    ghost view = { λ s. s.told };

    ghost invariant = { λ s. (s.count ≡ length (served s.told)) × AreCounts s.counts (served s.told) × (s.word ≡ word_of J.book 4) };
}

/// The counts once one event more of a seat was served.
fn counted(seat: u64, counts: Counts) -> Option<Counts>
    requires { seat < 4 }
    ensures { IfSome result (λ r. SeatCounted seat counts r) }
{
    let Counts {
        first,
        second,
        third,
        fourth,
    } = counts;
    match seat {
        0 => Some(Counts {
            first: first.checked_add(1)?,
            second,
            third,
            fourth,
        }),
        1 => Some(Counts {
            first,
            second: second.checked_add(1)?,
            third,
            fourth,
        }),
        2 => Some(Counts {
            first,
            second,
            third: third.checked_add(1)?,
            fourth,
        }),
        _ => Some(Counts {
            first,
            second,
            third,
            fourth: fourth.checked_add(1)?,
        }),
    }
}

/// Whether just so many events of a seat were served.
fn is_count(seat: u64, number: u64, counts: Counts) -> bool
    ensures { IsTrue result → (seat < 4) × (count_of counts seat ≡ number) }
{
    match seat {
        0 => number == counts.first,
        1 => number == counts.second,
        2 => number == counts.third,
        3 => number == counts.fourth,
        _ => false,
    }
}

impl<J: Naming> Server<J> {
    /// The beginning of the log whose history the machine has served.
    pub fn told(&self) -> Told<J>
        ensures told { result ≡ self.now }
        ensures served { J.served (served result) }
        ensures own { AllOwn (served result) }
    {
        self.told.again()
    }

    /// Whether just so many events of a seat were served.
    fn is_counted(&self, seat: u64, number: u64) -> bool
        ensures { IsTrue result → (seat < 4) × (length (of seat (served self.now)) ≡ number) }
    {
        is_count(seat, number, self.counts)
    }

    /// Whether a post is the next one of its seat. Then the seat may put its event after all that was served of it.
    pub fn is_next(&self, post: &Post<J>) -> bool
        ensures { IsTrue result → (post.now.seat < 4) × (length (of post.now.seat (served self.now)) ≡ post.now.number)
            × ∥ MayPut J.was_read post.now.seat (of post.now.seat (served self.now)) post.now.event.value ∥₁ }
    {
        let ours = self.told.reached();
        let theirs = post.told.reached();
        let both = ours.with(&theirs);
        drop(both);
        self.is_counted(post.seat, post.number)
    }

    /// Whether as many events of a seat were served as it has put, once all of these were answered. Then the exchanges that the seat
    /// knows are all that the history has of it.
    pub fn has_all(&self, putter: &Putter<J>) -> bool
        requires { IsIdle putter.now }
        ensures { IsTrue result → done_by putter.now ≡ of putter.now.seat (served self.now) }
    {
        let ours = self.told.reached();
        let theirs = putter.told.reached();
        let both = ours.with(&theirs);
        drop(both);
        self.is_counted(putter.seat, putter.count)
    }

    /// Notes that the machine has served the next event of a seat with this answer, None to a disconnect. None where 2^64 - 1 were
    /// served; also where the log has more that was served than it knows, which no run meets.
    pub fn serve(&mut self, post: Post<J>, answer: &Option<Out>) -> Option<Receipt<J>>
        requires next { (post.seat < 4) × (length (of post.seat (served self.old)) ≡ post.number) }
        requires served { J.served (served self.old ++ (post.seat, (post.event.value, answer.now)) ∷ []) }
        ensures served { IfSome result (λ _. served self.new ≡ served self.old ++ (post.seat, (post.event.value, answer.now)) ∷ []) }
        ensures receipt { IfSome result (λ r. (r.told ≡ self.new) × (r.seat ≡ post.seat) × (r.answer.value ≡ answer.now)) }
        ensures none { IfNone result (self.new ≡ self.old) }
    {
        let Post {
            seat,
            number,
            event,
            put,
            ..
        } = post;
        let count = self.count;
        if count == u64::MAX {
            return None;
        }
        let counts = counted(seat, self.counts)?;
        let ours = self.told.reached();
        let mut all = ours.with(&put);
        if !all.serve(&self.word, count, seat, event, answer) {
            return None;
        }
        let told = Told { reached: all };
        self.count = count + 1;
        self.counts = counts;
        self.told = told.again();
        Some(Receipt {
            seat,
            number,
            answer: Snapshot::of(answer),
            told,
        })
    }
}
