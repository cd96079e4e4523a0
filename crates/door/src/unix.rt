//! Unix sockets. Contracts of std know nothing of their bytes: that one gives and takes what is noted is seen here, and trusted.

ghost use Rattle.std.specs.Prelude.{◌≡◌, ◌≤◌, length};

use crate::ends::Licence;
use crate::notes::{Gave, Took};
use crate::socket::{Outgoing, Socket};
use libc::net::{MSG_DONTWAIT, MSG_PEEK, recv};
use std::io::{self, Read, Write};
use std::os::fd::{AsRawFd, RawFd};
use std::os::unix::net::{UnixListener, UnixStream};
use std::time::Duration;

impl Socket for UnixStream {
    ghost given = { λ app bytes. Unit {0} };

    fn accept(listener: &UnixListener, patience: Option<Duration>) -> io::Result<UnixStream> {
        let (stream, _) = listener.accept()?;
        if patience.is_some() {
            stream.set_read_timeout(patience)?;
            stream.set_write_timeout(patience)?;
        } else {
            stream.set_nonblocking(true)?;
        }
        Ok(stream)
    }

    fn descriptor(&self) -> RawFd {
        self.as_raw_fd()
    }

    fn read(&self, gave: &mut Gave, buf: &mut [u8]) -> io::Result<usize> {
        let mut stream: &UnixStream = self;
        let count = Read::read(&mut stream, buf)?;
        gave.note(buf.split_at(count).0);
        Ok(count)
    }
}

impl<L: Licence> Outgoing<L> for UnixStream {
    fn write(&self, _licence: &L, took: &mut Took, buf: &[u8]) -> io::Result<usize> {
        let mut stream: &UnixStream = self;
        let count = Write::write(&mut stream, buf)?;
        took.note(buf.split_at(count).0);
        Ok(count)
    }

    fn flush(&self) -> io::Result<()> {
        let mut stream: &UnixStream = self;
        Write::flush(&mut stream)
    }
}

/// Looks at what the next read of a socket gives, and leaves it there: how many bytes the buffer has of it now.
pub fn peek(socket: RawFd, buf: &mut [u8]) -> usize
    ensures { (result ≤ length buf.new) × (length buf.new ≡ length buf.old) }
{
    let count = unsafe { recv(socket, buf, MSG_PEEK | MSG_DONTWAIT) };
    usize::try_from(count).unwrap_or(0)
}
