//! The rule of the log.

use crate::entry::Entry;
use crate::event::Event;
use logbook::{Gain, Opening, Plain, Play, Rule};
use serve_base::Out;
use std::snapshot::Snapshot;

/// The rule of the log: what was served of each seat is the first of what it put, in its order. A word counts what each seat put,
/// and one what was served.
pub struct LogRule;

impl Rule<Entry, u64> for LogRule {
    ghost use Rattle.std.specs.Prelude.{[]};
    ghost use base.Fml.{ftrue};
    ghost use Rattle.hall_log.specs.Log.{IsKept};

    ghost holds = { λ cells log. IsKept cells log };

    ghost first = { [] };

    ghost hinted = { λ n log. Unit {0} };

    ghost shows = { λ log. [] };

    ghost keeps = { λ names log. ftrue };

    ghost moves = { λ ask before after answer. Unit {0} };
}

/// Callers trade nothing.
pub struct Nothing;

impl Gain<Entry, u64> for Nothing {
    ghost use base.Fml.{ftrue};

    ghost after = { λ names about answer. ftrue };
}

/// The log is empty at first.
pub struct Empty;

impl Opening<(), Entry> for Empty {
    ghost use Rattle.std.specs.Prelude.{[]};

    ghost log = { λ count about. [] };
}

/// What a step adds: the entry.
pub struct Adds;

/// A put, of which nothing is stored.
#[derive(Drop)]
pub struct PutNote {
    pub seat: u64,
    pub event: Snapshot<Event>,
}

impl Plain<PutNote, Entry, u64> for Adds {
    ghost use Rattle.std.specs.Prelude.{None};
    ghost use Rattle.hall_log.specs.declared.entry.Entry.TheVariants.{Put};

    ghost ask = { λ note. Put note.seat note.event.value };

    ghost state = { λ note. None };
}

/// An event that is served, of which nothing is stored.
#[derive(Drop)]
pub struct ServeNote {
    pub seat: u64,
    pub event: Snapshot<Event>,
    pub answer: Snapshot<Option<Out>>,
}

impl Plain<ServeNote, Entry, u64> for Adds {
    ghost use Rattle.std.specs.Prelude.{None};
    ghost use Rattle.hall_log.specs.declared.entry.Entry.TheVariants.{Served};

    ghost ask = { λ note. Served note.seat note.event.value note.answer.value };

    ghost state = { λ note. None };
}

/// A step by which a seat puts.
pub struct Puts;

impl Play<Entry, u64> for Puts {
    ghost use Rattle.hall_log.specs.Log.{PutSays};

    ghost then = { PutSays };
}

/// A step by which one event more is served.
pub struct Serves;

impl Play<Entry, u64> for Serves {
    ghost use Rattle.hall_log.specs.Log.{ServeSays};

    ghost then = { ServeSays };
}
