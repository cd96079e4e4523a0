//! The daemon's sockets.

use crate::cause::Cause;
use crate::environment::{names_us, number_in};
use crate::failure::{Failure, Fault};
use os::FromRawFd;
use std::fs::{Files, Permissions};
use std::io::ErrorKind;
use std::net::Net;
use std::os::fd::{AsFd, AsRawFd};
use std::os::unix::fs::{FileTypeExt, PermissionsExt};
use std::os::unix::net::{SocketAddr, UnixListener, UnixStream};
use std::{env, fs, io};

/// As many connections may wait to be accepted as the system allows.
const BACKLOG: i32 = -1;

/// The first descriptor that a service manager hands over (sd_listen_fds(3)).
const HANDED_OVER: i32 = 3;

/// How many sockets there are at most.
const MAX_SOCKETS: u64 = 64;

/// The sockets that a service manager hands over, or one at each path, with these permission bits from its first moment.
pub fn daemon_sockets(
    rt: &HostRuntime,
    paths: &[&str],
    mode: u32,
) -> Result<Vec<UnixListener>, Fault> {
    let mut listeners = Vec::new(rt.alloc());
    match handed_over(rt)? {
        Some(count) => {
            for at in 0..count {
                let fd = i32::try_from(at).unwrap_or(i32::MAX);
                add(&mut listeners, listener_at(fd.saturating_add(HANDED_OVER))?)?;
            }
        }
        None => {
            for path in paths {
                add(&mut listeners, listen(rt, path, mode)?)?;
            }
        }
    }
    Ok(listeners)
}

/// The names of the sockets: their paths, or, where several are handed over, the names that they have there (LISTEN_FDNAMES).
pub fn socket_names(rt: &HostRuntime, paths: &[&str]) -> Result<Vec<String>, Fault> {
    let handed_over = handed_over(rt)?;
    let count = match handed_over {
        Some(count) => count as usize,
        None => paths.len(),
    };
    let given = match env::var(rt, "LISTEN_FDNAMES") {
        Ok(text) if count > 1 && handed_over.is_some() => text,
        _ => String::new(rt.alloc()),
    };
    let mut names = Vec::new(rt.alloc());
    for at in 0..count {
        let given = given.split(':').nth(at).unwrap_or("");
        let path = paths.get(at).copied().unwrap_or("a socket without a name");
        let name = if given.is_empty() { path } else { given };
        let Ok(name) = format!(in rt.alloc(); "{name}") else {
            return Err(Failure::Memory.into());
        };
        add(&mut names, name)?;
    }
    Ok(names)
}

fn add<T: Drop>(list: &mut Vec<T>, item: T) -> Result<(), Fault> {
    match list.push(item) {
        Ok(()) => Ok(()),
        Err(_) => Err(Failure::Memory.into()),
    }
}

fn refused(error: io::Error) -> Fault {
    Failure::Socket.because(Cause::Socket(error))
}

/// Why the system's last call failed.
fn last_error() -> io::Error {
    io::Error::from_raw_os_error(os::errno())
}

/// How many listening sockets were handed over to this process, if any were.
fn handed_over(rt: &HostRuntime) -> Result<Option<u64>, Fault> {
    if !names_us(rt, "LISTEN_PID") {
        return Ok(None);
    }
    match number_in(rt, "LISTEN_FDS") {
        None | Some(0) => Ok(None),
        Some(count) if count <= MAX_SOCKETS => Ok(Some(count)),
        Some(count) => Err(Failure::Socket.because(Cause::HandedOver(count))),
    }
}

/// The socket that was handed over as a descriptor.
fn listener_at(fd: i32) -> Result<UnixListener, Fault> {
    if fd < 0 {
        return Err(Failure::Socket.because(Cause::HandedOver(0)));
    }
    let listener = unsafe { UnixListener::from_raw_fd(fd) };
    let checked = listener
        .local_addr()
        .and_then(|_| listener.set_nonblocking(false));
    match checked {
        Ok(()) => Ok(listener),
        Err(error) => Err(Failure::Socket.because(Cause::HandedOverSocket(error))),
    }
}

/// Listens at a path. A socket's file that nobody listens on, as a daemon leaves that was killed, is removed first. Where
/// somebody answers, or another file stands there, it stays, and this is refused.
fn listen(rt: &HostRuntime, path: &str, mode: u32) -> Result<UnixListener, Fault> {
    match bind(rt, path, mode) {
        Ok(listener) => return Ok(listener),
        Err(error) if error.kind() != ErrorKind::AddrInUse => return Err(refused(error)),
        Err(_) => {}
    }
    if !is_stale(rt, path) {
        return Err(Failure::Socket.because(Cause::SocketTaken));
    }
    match fs::remove_file(rt, path).and_then(|()| bind(rt, path, mode)) {
        Ok(listener) => Ok(listener),
        Err(error) => Err(refused(error)),
    }
}

/// Listens at a path where no file is. The file never has other bits than these: it is bound with those of them that the
/// process's umask leaves, gets all of them, and then listens.
fn bind(rt: &HostRuntime, path: &str, mode: u32) -> io::Result<UnixListener> {
    let fd = rt.unix_socket()?;
    if libc::fchmod(fd.as_raw_fd(), mode) != 0 {
        return Err(last_error());
    }
    rt.bind_unix(fd.as_fd(), &SocketAddr::from_pathname(path)?)?;
    fs::set_permissions(rt, path, Permissions::from_mode(mode))?;
    if libc::net::listen(fd.as_raw_fd(), BACKLOG) != 0 {
        return Err(last_error());
    }
    Ok(UnixListener::from(fd))
}

/// Whether a socket stands there on which nobody listens.
fn is_stale(rt: &HostRuntime, path: &str) -> bool {
    let Ok(metadata) = fs::symlink_metadata(rt, path) else {
        return false;
    };
    if !metadata.file_type().is_socket() {
        return false;
    }
    match UnixStream::connect(rt, path) {
        Ok(_) => false,
        Err(error) => error.kind() == ErrorKind::ConnectionRefused,
    }
}
