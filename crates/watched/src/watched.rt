//! A reader or a writer that counts its failures.

ghost use Rattle.std.specs.Prelude.{◌≡◌, ◌↔◌, [], IsTrue};
ghost use Rattle.std.specs.Io.{ReadsAtMost, WritesAtMost};
ghost use Rattle.door.specs.Ends.{ReadGives, TookBytes, WriteTakes};
ghost use Rattle.keep.specs.Keeping.{Rises};
ghost use Rattle.watched.specs.Noting.{HoldsBack, IsInterruption, LetsOut, Notes, NotesWrite};

use door::{Licence, Plain, Sink, Source, Taker};
use keep::WriteCount as CallCount;
use lists::GhostBytes;
use std::io::{self, Error, ErrorKind};
use std::marker::Model;

/// A reader or a writer that counts how many of its calls failed. A call that was interrupted did not
/// fail; one that would block did, and a write that took nothing of bytes that were there. For clauses alone, without bytes, it
/// counts all calls, and has the bytes that a writer took and were not flushed yet.
#[derive(Drop)]
pub struct Watched<T> {
    inner: T,
    failures: u64,
    calls: CallCount,
    unflushed: GhostBytes,
}

impl<T> Model for Watched<T> {
    ghost use Rattle.watched.specs.Noting.{Noting};

    ghost Value = { Noting T };

    ghost view = { λ n. record { inner = n.inner; failures = n.failures; calls = n.calls; unflushed = n.unflushed.bytes } };
}

/// Whether a read, a write or a flush that failed so may be tried again.
pub fn is_interrupted(error: &Error) -> bool
    ensures { IsTrue result ↔ IsInterruption error.now }
{
    error.kind() == ErrorKind::Interrupted
}

/// Counts a failure; at its greatest value the count stays.
fn count_failure(failures: &mut u64)
    ensures { Rises failures.old failures.new }
{
    *failures = failures.saturating_add(1);
}

/// Counts a failure where the error is one.
fn note(failures: &mut u64, error: &Error)
    ensures passes { IsInterruption error.now → failures.new ≡ failures.old }
    ensures slips { (¬ IsInterruption error.now) → Rises failures.old failures.new }
{
    if !is_interrupted(error) {
        count_failure(failures);
    }
}

impl<T> Watched<T> {
    /// A reader or a writer of which no call was made yet.
    pub fn new(inner: T) -> Watched<T>
        ensures { result ≡ record { inner = inner; failures = 0; calls = 0; unflushed = [] } }
    {
        Watched {
            inner,
            failures: 0,
            calls: CallCount::new(),
            unflushed: GhostBytes::new(),
        }
    }

    /// How many calls failed; at its greatest value the count stays.
    pub fn failures(&self) -> u64
        ensures { result ≡ self.now.failures }
    {
        self.failures
    }

    /// The reader or the writer itself.
    pub fn into_inner(self) -> T
        ensures { result ≡ self.inner }
    {
        self.inner
    }
}

impl<T> Watched<Plain<T>> {
    /// A reader or a writer of std of which no call was made yet.
    pub fn of_std(inner: T) -> Watched<Plain<T>>
        ensures inner { result.inner.inner ≡ inner }
        ensures none { (result.inner.bytes.bytes ≡ []) × (result.failures ≡ 0) × (result.calls ≡ 0) × (result.unflushed ≡ []) }
    {
        Watched::new(Plain::new(inner))
    }

    /// The reader or the writer of std.
    pub fn into_std(self) -> T
        ensures { result ≡ self.inner.inner }
    {
        self.into_inner().into_inner()
    }
}

impl<R: Source> Source for Watched<R> {
    ghost given = { R.given };

    ghost reading = { λ n. R.reading n.inner };

    fn read(&mut self, buf: &mut [u8]) -> io::Result<usize>
        ensures bound { ReadsAtMost result buf.new }
        ensures bytes { ReadGives (R.reading self.old.inner) (R.reading self.new.inner) result buf.new }
        ensures given { R.given (R.reading self.new.inner).app (R.reading self.new.inner).gave }
        ensures noted { Notes self.old self.new result }
    {
        self.calls.add();
        match self.inner.read(buf) {
            Ok(count) => Ok(count),
            Err(error) => {
                note(&mut self.failures, &error);
                Err(error)
            }
        }
    }
}

impl<W: Taker> Taker for Watched<W> {
    ghost writing = { λ n. W.writing n.inner };
}

impl<L: Licence, W: Sink<L>> Sink<L> for Watched<W> {
    fn write(&mut self, licence: &L, buf: &[u8]) -> io::Result<usize>
        requires may { L.allows licence.now (W.writing self.old.inner).app (W.writing self.old.inner).took buf.now }
        ensures bound { WritesAtMost result buf.now }
        ensures bytes { WriteTakes (W.writing self.old.inner) (W.writing self.new.inner) result buf.now }
        ensures noted { NotesWrite self.old self.new buf.now result }
        ensures unflushed { HoldsBack self.old self.new buf.now result }
    {
        self.calls.add();
        match self.inner.write(licence, buf) {
            Ok(count) => {
                if count == 0 && !buf.is_empty() {
                    count_failure(&mut self.failures);
                }
                let (taken, _) = buf.split_at(count);
                self.unflushed.push(taken);
                Ok(count)
            }
            Err(error) => {
                note(&mut self.failures, &error);
                Err(error)
            }
        }
    }

    fn flush(&mut self) -> io::Result<()>
        ensures bytes { TookBytes (W.writing self.old.inner) (W.writing self.new.inner) [] }
        ensures noted { Notes self.old self.new result }
        ensures flushed { LetsOut self.old self.new result }
    {
        self.calls.add();
        match self.inner.flush() {
            Ok(()) => {
                self.unflushed = GhostBytes::new();
                Ok(())
            }
            Err(error) => {
                note(&mut self.failures, &error);
                Err(error)
            }
        }
    }
}
