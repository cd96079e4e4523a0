//! A seat on a socket.

ghost use Rattle.std.specs.Prelude.{◌≡◌, map};
ghost use Rattle.line_places.specs.Arriving.{AllCame};
ghost use Rattle.hall_sockets.specs.Telling.{calls_in, gone_in, apps_of};

use crate::audit::Audited;
use crate::loads::Loads;
use crate::queue::Queue;
use crate::sockets::Sockets;
use door::{Door, Reader, Writer};
use hall::SeatEvent;
use line_places::{MAX_CLIENTS, Places};
use lists::GhostList;
use mio::{Events, Poll};
use std::alloc::Global;
use std::sync::Arc;
use std::sync::atomic::AtomicBool;
use std::time::Duration;

/// How many bytes are read at once.
pub(crate) const READ_LEN: usize = 32_768;

/// What the four seats of a daemon have in common.
#[derive(Drop)]
pub struct Settings {
    /// The seed of all applications' random bytes.
    pub seed: [u8; 32],
    /// How many connections each has at once, 1 to 64.
    pub clients: usize,
    /// After how many connections each ends.
    pub connections: u64,
    /// A connection of which nothing came for so long is ended.
    pub idle: Option<Duration>,
}

/// A seat on sockets of this kind: many connections, each an application of its own. It ends early once the daemon is to end.
#[derive(Drop)]
pub struct SocketSeat<S, L, C> {
    pub(crate) alloc: Global,
    pub(crate) clock: C,
    pub(crate) log: L,
    /// The daemon is to end.
    pub(crate) is_stopping: Arc<AtomicBool, Global>,
    pub(crate) loads: Arc<Loads, Global>,
    pub(crate) sockets: Arc<Sockets, Global>,
    pub door: Door<S>,
    pub(crate) poll: Poll,
    pub(crate) events: Events<Global>,
    pub clients: Places<Reader<S>, Writer<S>>,
    /// How many connections there are.
    pub(crate) count: usize,
    /// How many may be accepted yet.
    pub(crate) accepts_left: u64,
    /// The descriptor of each connection, by its place.
    pub(crate) descriptors: [i32; MAX_CLIENTS],
    /// The listener by which it came.
    pub(crate) came_by: [usize; MAX_CLIENTS],
    /// Whether its peer is waited for until it takes more.
    pub(crate) is_stuck: [bool; MAX_CLIENTS],
    /// When something last came of it.
    pub(crate) last_used: [Duration; MAX_CLIENTS],
    /// The places that are to be asked.
    pub(crate) queue: Queue,
    /// How many places were asked since the last wait.
    pub(crate) asked_since: usize,
    /// The place of the last call.
    pub(crate) called_place: usize,
    /// What the last call is, if its outcome may be a line.
    pub(crate) audited: Option<Audited>,
    /// Somebody may wait to be accepted.
    pub(crate) may_accept: bool,
    /// Since when somebody who waits is left to a seat with fewer connections.
    pub(crate) left_since: Option<Duration>,
    /// Somebody was left to another seat, and the listener was not asked since.
    pub(crate) is_leaving: bool,
    pub(crate) idle: Option<Duration>,
    pub(crate) time: Duration,
    /// When idle connections were last looked for.
    pub(crate) idle_checked: Duration,
    /// A buffer for what is read at once.
    pub(crate) piece: [u8; READ_LEN],
    pub(crate) has_ended: bool,
    /// It was told to end.
    pub(crate) was_told: bool,
    /// The listener or the wait failed.
    pub(crate) has_failed: bool,
    /// What it gave, for contracts alone.
    pub asked: GhostList<SeatEvent>,
    pub ghost calls: { calls_in asked.items ≡ clients.asked.items },
    pub ghost gone: { gone_in asked.items ≡ apps_of clients.past.items },
    /// Each connection that came by the door had a place.
    pub ghost came: { ∥ AllCame clients.number clients.places.items door ∥₁ },
}
