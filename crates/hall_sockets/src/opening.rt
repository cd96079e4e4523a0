//! A new seat.

ghost use Rattle.std.specs.Prelude.{◌≡◌, ◌<◌, ◌≤◌, [], IfOk};
ghost use Rattle.hall_sockets.specs.Staying.{IsNew};

use crate::loads::Loads;
use crate::queue::Queue;
use crate::seat::{READ_LEN, Settings, SocketSeat};
use crate::sockets::Sockets;
use crate::waiting::LISTENER;
use door::Door;
use line_places::{MAX_CLIENTS, Places};
use lists::GhostList;
use log::Log;
use mio::unix::SourceFd;
use mio::{Events, Interest, Poll, Token};
use std::alloc::Global;
use std::io;
use std::net::Net;
use std::os::fd::AsRawFd;
use std::os::unix::net::UnixListener;
use std::sync::Arc;
use std::sync::atomic::AtomicBool;
use std::time::{Clock, Duration};

/// What a seat shares with others.
#[derive(Drop)]
pub struct Shared {
    /// The daemon is to end: then its seats accept and read no more.
    pub is_stopping: Arc<AtomicBool, Global>,
    pub loads: Arc<Loads, Global>,
    pub sockets: Arc<Sockets, Global>,
    /// One for each of them, at least one.
    pub listeners: Vec<UnixListener>,
}

/// Has a wait report who is to be accepted by one of the listeners.
fn listen_to(poll: &Poll, listeners: &[UnixListener]) -> io::Result<()> {
    for (listener, at) in listeners.iter().zip(LISTENER..) {
        listener.set_nonblocking(true)?;
        let fd = listener.as_raw_fd();
        poll.registry()
            .register(&mut SourceFd(&fd), Token(at), Interest::READABLE)?;
    }
    Ok(())
}

impl<S: Drop, L: Log + Drop, C: Clock + Drop> SocketSeat<S, L, C> {
    /// The seat with a number from 0 to 3, with no connection.
    ///
    /// # Errors
    ///
    /// Those of the system: it gives no descriptor to wait by, or the listener is none. And where there is no memory.
    pub fn new(
        net: &impl Net,
        alloc: Global,
        clock: C,
        log: L,
        shared: Shared,
        settings: &Settings,
        number: u64,
    ) -> io::Result<SocketSeat<S, L, C>>
        requires number { number < 4 }
        requires clients { settings.now.clients ≤ MAX_CLIENTS }
        ensures { IfOk result (λ seat. IsNew seat settings.now.seed number) }
    {
        let poll = Poll::new(net)?;
        listen_to(&poll, &shared.listeners)?;
        let time = clock.monotonic()?;
        let Shared {
            is_stopping,
            loads,
            sockets,
            listeners,
        } = shared;
        Ok(SocketSeat {
            alloc,
            clock,
            log,
            is_stopping,
            loads,
            sockets,
            poll,
            events: Events::with_capacity(alloc, MAX_CLIENTS.saturating_add(listeners.len()))?,
            door: Door::new(listeners),
            clients: Places::new(alloc, settings.seed, number, settings.clients)?,
            count: 0,
            accepts_left: settings.connections,
            descriptors: [-1; MAX_CLIENTS],
            came_by: [0; MAX_CLIENTS],
            is_stuck: [false; MAX_CLIENTS],
            last_used: [Duration::ZERO; MAX_CLIENTS],
            asked_since: 0,
            called_place: 0,
            audited: None,
            may_accept: true,
            left_since: None,
            is_leaving: false,
            idle: settings.idle,
            time,
            idle_checked: time,
            piece: [0; READ_LEN],
            has_ended: false,
            was_told: false,
            has_failed: false,
            asked: GhostList::new(),
            queue: Queue::new(alloc)?,
        })
    }
}

impl<S, L, C> SocketSeat<S, L, C> {
    /// Whether the seat ended because no connection could be accepted any more, or none be waited for.
    pub fn has_failed(&self) -> bool
        ensures { result ≡ self.now.has_failed }
    {
        self.has_failed
    }
}
