//! The ends of all channels.

use hall_channels::inbox::Inbox;
use hall_channels::outbox::Outbox;
use hall_channels::port::Port;
use hall_log::{Naming, Server};

/// The ends of one seat's channels: the token's, and the seat's.
#[derive(Drop)]
pub(crate) struct Link<J: Naming> {
    pub outbox: Outbox<J>,
    pub port: Port<J>,
}

/// The ends of the channels of four seats, in twos.
pub(crate) type Links<J> = ((Link<J>, Link<J>), (Link<J>, Link<J>));

/// The ends of all channels and of the log, before any thread is started.
#[derive(Drop)]
pub(crate) struct Ready<J: Naming> {
    pub inbox: Inbox<J>,
    pub server: Server<J>,
    pub links: Links<J>,
}
