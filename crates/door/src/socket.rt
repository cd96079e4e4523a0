//! What is asked of a socket.

ghost use Rattle.std.specs.Prelude.{ℕ, List};
ghost use Rattle.std.specs.Io.{ReadsAtMost, WritesAtMost};
ghost use Rattle.door.specs.Ends.{ReadGives, WriteTakes};

use crate::ends::Licence;
use crate::notes::{Gave, Took};
use std::io;
use std::os::fd::RawFd;
use std::os::unix::net::UnixListener;
use std::time::Duration;

/// A connection's socket. Its bytes are read by who has the connection's `Gave`, and written by who has its `Took`.
pub trait Socket: Sized {
    /// The reader of this application has given these bytes, at some moment. Nothing but a read says so.
    ghost given: { ℕ → List ℕ → Type 0 };

    /// Accepts one who waits. Its reads and writes wait for `patience`, or not at all.
    fn accept(listener: &UnixListener, patience: Option<Duration>) -> io::Result<Self>;

    /// Its descriptor.
    fn descriptor(&self) -> RawFd;

    /// Reads into the front of the buffer, and notes what it gave, as `Source::read` does.
    fn read(&self, gave: &mut Gave, buf: &mut [u8]) -> io::Result<usize>
        ensures bound { ReadsAtMost result buf.new }
        ensures bytes { ReadGives gave.old gave.new result buf.new }
        ensures given { given gave.new.app gave.new.gave };
}

/// A socket that is written under a licence.
pub trait Outgoing<L: Licence>: Socket {
    /// Writes bytes at the front of these, and notes what it took, as `Sink::write` does. All of them must be allowed, however many it
    /// takes.
    fn write(&self, licence: &L, took: &mut Took, buf: &[u8]) -> io::Result<usize>
        requires may { L.allows licence.now took.old.app took.old.took buf.now }
        ensures bound { WritesAtMost result buf.now }
        ensures bytes { WriteTakes took.old took.new result buf.now };

    /// Passes on what it took.
    fn flush(&self) -> io::Result<()>;
}
