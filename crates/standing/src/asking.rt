//! A daemon is asked how it stands.

ghost use Rattle.std.specs.Prelude.{IfOk};
ghost use Rattle.standing.specs.Statuses.{IsStandingStatus};

use crate::address::write_path;
use crate::groups::who_may;
use crate::standing::Standing;
use ck_calls::{Call, Function, Reply};
use libc::net::connect;
use std::alloc::Global;
use std::fs;
use std::io::{self, ErrorKind, Read, Write};
use std::net::Net;
use std::os::fd::AsRawFd;
use std::os::unix::fs::FileTypeExt;
use std::os::unix::net::UnixStream;
use std::time::{Clock, Duration};
use wire::{FrameReader, read_reply, write_call};

/// For how many milliseconds an answer is waited for.
const PATIENCE: u64 = 900;

/// More bytes than an answer has.
const ANSWER_LEN: usize = 256;

/// Prints a line on the daemon of the socket at a path, and returns the exit status. It takes less than a second. The error is of the
/// output.
pub fn print_standing<O: Write>(rt: &HostRuntime, path: &str, output: &mut O) -> io::Result<u8>
    ensures { IfOk result IsStandingStatus }
{
    let found = standing(rt, path);
    match writeln!(output, "{path}: {found}").and_then(|()| output.flush()) {
        Ok(()) => Ok(found.status()),
        Err(error) => Err(error),
    }
}

/// How the daemon of a socket stands.
fn standing(rt: &HostRuntime, path: &str) -> Standing {
    match fs::metadata(rt, path) {
        Ok(found) if !found.file_type().is_socket() => return Standing::NoSocket,
        Err(error) if error.kind() == ErrorKind::NotFound => return Standing::NoFile,
        _ => {}
    }
    match ask(rt, path) {
        Ok(standing) => standing,
        Err(error) => match error.kind() {
            ErrorKind::PermissionDenied => Standing::Forbidden(who_may(rt, path)),
            ErrorKind::ConnectionRefused => Standing::NobodyListens,
            ErrorKind::NotFound => Standing::NoFile,
            ErrorKind::WouldBlock | ErrorKind::TimedOut => Standing::Silent,
            _ => Standing::Failed(error),
        },
    }
}

/// Connects, and asks for the token's information. A queue of connections that is full doesn't hold it up.
fn ask(rt: &HostRuntime, path: &str) -> io::Result<Standing> {
    let deadline = rt
        .monotonic()?
        .saturating_add(Duration::from_millis(PATIENCE));
    let mut addr = [0u8; 128];
    let Some(len) = write_path(&mut addr, path.as_bytes()) else {
        return Err(ErrorKind::InvalidInput.into());
    };
    let mut stream = UnixStream::from(rt.unix_socket()?);
    stream.set_nonblocking(true)?;
    if unsafe { connect(stream.as_raw_fd(), &addr, len) } != 0 {
        return Err(io::Error::from_raw_os_error(os::errno()));
    }
    stream.set_nonblocking(false)?;
    let Ok(frame) = write_call(rt.alloc(), &Call::GetTokenInfo { slot: 0 }) else {
        return Err(ErrorKind::OutOfMemory.into());
    };
    stream.write_all(&frame)?;
    answer(rt, &mut stream, deadline)
}

/// What the daemon answers before the deadline.
fn answer(rt: &HostRuntime, stream: &mut UnixStream, deadline: Duration) -> io::Result<Standing> {
    let mut frames = FrameReader::new(rt.alloc());
    let mut piece = [0u8; ANSWER_LEN];
    for _ in 0..ANSWER_LEN {
        let left = deadline.saturating_sub(rt.monotonic()?);
        if left.is_zero() {
            return Ok(Standing::Silent);
        }
        stream.set_read_timeout(Some(left))?;
        let count = stream.read(&mut piece)?;
        if count == 0 {
            return Err(ErrorKind::UnexpectedEof.into());
        }
        if frames.feed(piece.get(..count).unwrap_or(&[])).is_err() {
            return Err(ErrorKind::OutOfMemory.into());
        }
        match frames.peek() {
            Ok(None) => {}
            Ok(Some(payload)) => return standing_in(rt.alloc(), payload),
            Err(_) => return Err(ErrorKind::InvalidData.into()),
        }
    }
    Err(ErrorKind::InvalidData.into())
}

/// What the payload of an answer to C_GetTokenInfo has (5.5).
fn standing_in(alloc: Global, payload: &[u8]) -> io::Result<Standing> {
    let Ok(reply) = read_reply(alloc, Function::GetTokenInfo as u16, payload) else {
        return Err(ErrorKind::InvalidData.into());
    };
    let found = match &reply {
        Reply::TokenInfo(info) => Ok(Standing::Serves(*info)),
        _ => Err(ErrorKind::InvalidData.into()),
    };
    drop(reply);
    found
}
