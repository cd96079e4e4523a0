//! What the daemon sends to a service manager (sd_notify(3), sd_watchdog_enabled(3)).

ghost use Rattle.std.specs.Prelude.{◌≤◌};

use crate::environment::{is_ours, number_in};
use libc::net::{AF_UNIX, MSG_DONTWAIT, MSG_NOSIGNAL, SOCK_CLOEXEC, SOCK_DGRAM, sendto, socket};
use standing::write_address;
use std::env;

/// The socket of the service manager that started the daemon.
#[derive(Clone, Copy, Drop)]
pub struct Manager {
    addr: [u8; 128],
    /// How many bytes of the address count: 0 where there is no manager, or where its socket can't be named.
    len: u32,
    is_named: bool,
    has_watchdog: bool,
    ghost fits: { len ≤ 128 },
}

impl Manager {
    /// The manager whose socket NOTIFY_SOCKET names, if there is one. It watches the daemon where WATCHDOG_USEC is set for this
    /// process.
    pub fn of_process(rt: &HostRuntime) -> Manager {
        let mut addr = [0u8; 128];
        let path = env::var(rt, "NOTIFY_SOCKET");
        let len = match &path {
            Ok(path) => write_address(&mut addr, path.as_str().as_bytes()).unwrap_or(0),
            Err(_) => 0,
        };
        Manager {
            addr,
            len,
            is_named: path.is_ok(),
            has_watchdog: number_in(rt, "WATCHDOG_USEC").is_some() && is_ours(rt, "WATCHDOG_PID"),
        }
    }

    /// Whether there is one.
    pub fn is_there(&self) -> bool {
        self.is_named
    }

    /// Whether it ends a daemon of which it hears nothing.
    pub fn has_watchdog(&self) -> bool {
        self.has_watchdog
    }

    /// Sends a text as one datagram. It never waits. False where there is a manager and that fails.
    pub fn tell(&self, text: &str) -> bool {
        if !self.is_named {
            return true;
        }
        if self.len == 0 {
            return false;
        }
        let fd = unsafe { socket(AF_UNIX, SOCK_DGRAM | SOCK_CLOEXEC, 0) };
        if fd < 0 {
            return false;
        }
        let flags = MSG_NOSIGNAL | MSG_DONTWAIT;
        let sent = unsafe { sendto(fd, text.as_bytes(), flags, &self.addr, self.len) };
        libc::close(fd);
        sent >= 0
    }
}
