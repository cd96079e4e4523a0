//! What is read and what is written.

ghost use Rattle.std.specs.Prelude.{ℕ, List, []};
ghost use Rattle.std.specs.Io.{ReadsAtMost, WritesAtMost};
ghost use Rattle.door.specs.Ends.{ReadGives, Reading, TookBytes, WriteTakes, Writing};

use std::io;

/// By this the prover knows what may be written.
pub trait Licence {
    /// To the writer of this application, after the bytes that it took, these may be written next.
    ghost allows: { Self → ℕ → List ℕ → List ℕ → Type 0 };
}

/// The end of a connection that is read.
pub trait Source {
    /// The reader of this application has given these bytes, at some moment. Nothing but a read says so.
    ghost given: { ℕ → List ℕ → Type 0 };

    /// Its application, what it gave, and what it has left.
    ghost reading: { Self → Reading };

    /// Reads into the front of the buffer, and returns how many bytes, as `std::io::Read` does.
    fn read(&mut self, buf: &mut [u8]) -> io::Result<usize>
        ensures bound { ReadsAtMost result buf.new }
        ensures bytes { ReadGives (reading self.old) (reading self.new) result buf.new }
        ensures given { given (reading self.new).app (reading self.new).gave };
}

/// The end of a connection that takes bytes.
pub trait Taker {
    /// Its application, what it took, and what it holds.
    ghost writing: { Self → Writing };
}

/// The end of a connection that is written, under a licence.
pub trait Sink<L: Licence>: Taker {
    /// Writes bytes at the front of these, and returns how many, as `std::io::Write` does. All of them must be allowed, however many it
    /// takes.
    fn write(&mut self, licence: &L, buf: &[u8]) -> io::Result<usize>
        requires may { L.allows licence.now (Self.writing self.old).app (Self.writing self.old).took buf.now }
        ensures bound { WritesAtMost result buf.now }
        ensures bytes { WriteTakes (Self.writing self.old) (Self.writing self.new) result buf.now };

    /// Passes on what it took.
    fn flush(&mut self) -> io::Result<()>
        ensures bytes { TookBytes (Self.writing self.old) (Self.writing self.new) [] };
}
