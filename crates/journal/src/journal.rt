//! What the daemon logs while it serves: a line a record on standard error, with the priority that a journal reads.

ghost use Rattle.std.specs.Prelude.{◌≡◌, Some, []};
ghost use Rattle.log.specs.Level.{allows};
ghost use Rattle.journal.specs.Priorities.{priority_of};

use log::kv::Source;
use log::span::Spans;
use log::{Level, LevelFilter, Log, Metadata, Record};
use std::fmt::Display;
use std::io::Write;

/// The priority of a level, as a journal reads it before a line.
fn priority(level: Level) -> u8
    ensures { result ≡ priority_of level }
{
    match level {
        Level::Error => 3,
        Level::Warn => 4,
        Level::Info => 6,
        Level::Debug | Level::Trace => 7,
    }
}

/// Writes each record up to a level as a line with its priority, and drops it where that fails.
#[derive(Clone, Copy, Drop)]
pub struct Journal<E> {
    errors: E,
    max_level: LevelFilter,
}

impl<E: Eprint> Journal<E> {
    /// A log of the records up to a level, on `errors`.
    pub fn new(errors: E, max_level: LevelFilter) -> Journal<E>
        ensures level { result.max_level ≡ max_level }
    {
        Journal { errors, max_level }
    }
}

impl<E: Eprint> Log for Journal<E> {
    ghost enables = { λ journal level _. Some (allows journal.max_level level) };

    ghost target_of = { λ _. Some [] };

    fn enabled(&self, metadata: &Metadata<'_>) -> bool {
        self.max_level.allows(metadata.level())
    }

    fn log<D: Display, K: Source, S: Spans>(&self, record: &Record<'_, D, K, S>) {
        if self.max_level.allows(record.level()) {
            let priority = priority(record.level());
            let text = record.args();
            let _ = self
                .errors
                .eprintln(format_args!("<{priority}>tokend: {text}"));
        }
    }

    fn flush(&self) {}

    fn target(&self) -> &str {
        ""
    }
}

/// The same line on an output of this thread's own, for what is logged before the daemon serves and after.
pub fn note<W: Write, D: Display>(errors: &mut W, max_level: LevelFilter, level: Level, text: &D) {
    if max_level.allows(level) {
        let priority = priority(level);
        let _ = writeln!(errors, "<{priority}>tokend: {text}");
    }
}
