//! Readers and writers of std as ends.

ghost use Rattle.std.specs.Prelude.{◌≡◌, []};

use crate::ends::{Licence, Sink, Source, Taker};
use lists::GhostBytes;
use std::io::{self, Read, Write};

/// A reader or a writer as the end of the one connection there is, that of application 0. What it gave or took is for contracts alone.
#[derive(Drop)]
pub struct Plain<T> {
    pub inner: T,
    pub bytes: GhostBytes,
}

impl<T> Plain<T> {
    /// An end that gave or took nothing yet.
    pub fn new(inner: T) -> Plain<T>
        ensures { (result.inner ≡ inner) × (result.bytes.bytes ≡ []) }
    {
        Plain {
            inner,
            bytes: GhostBytes::new(),
        }
    }

    /// The reader or the writer.
    pub fn into_inner(self) -> T
        ensures { result ≡ self.inner }
    {
        self.inner
    }
}

impl<R: Read> Source for Plain<R> {
    ghost given = { λ app bytes. Unit {0} };

    ghost reading = { λ p. record { app = 0; gave = p.bytes.bytes; left = R.remaining p.inner } };

    fn read(&mut self, buf: &mut [u8]) -> io::Result<usize> {
        let count = self.inner.read(buf)?;
        let (front, _) = buf.split_at(count);
        self.bytes.push(front);
        Ok(count)
    }
}

impl<W: Write> Taker for Plain<W> {
    ghost writing = { λ p. record { app = 0; took = p.bytes.bytes; holds = W.contents p.inner } };
}

impl<L: Licence, W: Write> Sink<L> for Plain<W> {
    fn write(&mut self, _licence: &L, buf: &[u8]) -> io::Result<usize> {
        let count = self.inner.write(buf)?;
        let (front, _) = buf.split_at(count);
        self.bytes.push(front);
        Ok(count)
    }

    fn flush(&mut self) -> io::Result<()> {
        self.inner.flush()
    }
}
