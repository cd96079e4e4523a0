//! A new log.

ghost use Rattle.std.specs.Prelude.{◌≡◌, ◌<◌, []};
ghost use Rattle.hall_log.specs.Log.{word_of};

use crate::entry::Entry;
use crate::naming::Naming;
use crate::putting::Putter;
use crate::reached::{Reached, Told};
use crate::rule::{Empty, LogRule};
use crate::serving::{Counts, Server};
use logbook::{Seen, Start, Word};
use std::marker::PhantomData;

/// A new log, in which nothing was put. It has no name yet.
#[derive(Drop)]
pub struct Opened {
    pub(crate) word0: Word<Entry, u64, LogRule>,
    pub(crate) word1: Word<Entry, u64, LogRule>,
    pub(crate) word2: Word<Entry, u64, LogRule>,
    pub(crate) word3: Word<Entry, u64, LogRule>,
    pub(crate) last: Word<Entry, u64, LogRule>,
    pub seen: Seen<Entry, u64, LogRule>,
    pub ghost empty: { seen.log ≡ [] },
    pub ghost word0_is: { word0 ≡ word_of seen.book 0 },
    pub ghost word1_is: { word1 ≡ word_of seen.book 1 },
    pub ghost word2_is: { word2 ≡ word_of seen.book 2 },
    pub ghost word3_is: { word3 ≡ word_of seen.book 3 },
    pub ghost last_is: { last ≡ word_of seen.book 4 },
}

/// The end of the seat with this number, once nothing was put.
fn putter<J: Naming>(seat: u64, word: Word<Entry, u64, LogRule>, reached: &Told<J>) -> Putter<J>
    requires seat { seat < 4 }
    requires word { word ≡ word_of J.book seat }
    requires empty { reached.now ≡ [] }
    ensures { result ≡ record { seat = seat; mine = []; told = [] } }
{
    Putter {
        seat,
        count: 0,
        word,
        mine: reached.reached(),
        told: reached.again(),
    }
}

impl Opened {
    /// A new log. It allocates nothing.
    pub fn new() -> Opened {
        let (seen, mut pens) = Seen::open_row::<(), Empty>(&(), Start::alone(), 5);
        let mut pen0 = pens.take();
        let mut pen1 = pens.take();
        let mut pen2 = pens.take();
        let mut pen3 = pens.take();
        let mut last = pens.take();
        Opened {
            word0: Word::tracked(0, &mut pen0),
            word1: Word::tracked(0, &mut pen1),
            word2: Word::tracked(0, &mut pen2),
            word3: Word::tracked(0, &mut pen3),
            last: Word::tracked(0, &mut last),
            seen,
        }
    }

    /// The ends of the token and of the four seats, under a name. Nothing was put or served.
    pub fn named<J: Naming>(self) -> (Server<J>, (Putter<J>, Putter<J>, Putter<J>, Putter<J>))
        requires book { self.seen.book ≡ J.book }
        requires served { J.served [] }
        ensures server { result.0 ≡ [] }
        ensures seat0 { result.1.0 ≡ record { seat = 0; mine = []; told = [] } }
        ensures seat1 { result.1.1 ≡ record { seat = 1; mine = []; told = [] } }
        ensures seat2 { result.1.2 ≡ record { seat = 2; mine = []; told = [] } }
        ensures seat3 { result.1.3 ≡ record { seat = 3; mine = []; told = [] } }
    {
        let Opened {
            word0,
            word1,
            word2,
            word3,
            last,
            seen,
        } = self;
        let reached = Reached {
            seen,
            of: PhantomData,
        };
        let told = Told { reached };
        let seat0 = putter(0, word0, &told);
        let seat1 = putter(1, word1, &told);
        let seat2 = putter(2, word2, &told);
        let seat3 = putter(3, word3, &told);
        let counts = Counts {
            first: 0,
            second: 0,
            third: 0,
            fourth: 0,
        };
        let server = Server {
            counts,
            count: 0,
            word: last,
            told,
        };
        (server, (seat0, seat1, seat2, seat3))
    }
}
