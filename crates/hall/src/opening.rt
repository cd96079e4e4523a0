//! The ends of all channels, before any thread is started.

ghost use Rattle.std.specs.Prelude.{◌≡◌, [], IfOk};
ghost use Rattle.hall.specs.Beginning.{AreFirst};

use crate::link::{Link, Ready};
use hall_channels::ends::Sender;
use hall_channels::inbox::Inbox;
use hall_channels::messages::Inward;
use hall_channels::outbox::Outbox;
use hall_channels::port::Port;
use hall_log::{Naming, Opened, Putter};
use std::alloc::{AllocError, Global};

/// Makes the ends of a seat.
fn link<J: Naming>(
    alloc: Global,
    putter: Putter<J>,
    inward: &mut Sender<Inward<J>>,
) -> Result<Link<J>, AllocError>
    ensures { IfOk result (λ r. r.port.putter ≡ putter) }
{
    let inward = inward.another()?;
    let (outbox, outward) = Outbox::open(alloc)?;
    let port = Port::new(putter, inward, outward);
    Ok(Link { outbox, port })
}

/// Makes the ends of two seats.
fn link_two<J: Naming>(
    alloc: Global,
    putters: (Putter<J>, Putter<J>),
    inward: &mut Sender<Inward<J>>,
) -> Result<(Link<J>, Link<J>), AllocError>
    ensures { IfOk result (λ r. (r.0.port.putter ≡ putters.0) × (r.1.port.putter ≡ putters.1)) }
{
    let (first, second) = putters;
    let first = link(alloc, first, inward)?;
    let second = link(alloc, second, inward)?;
    Ok((first, second))
}

/// Makes all ends, over a new log under its name. Nothing was put or served.
pub(crate) fn open<J: Naming>(alloc: Global, opened: Opened) -> Result<Ready<J>, AllocError>
    requires book { opened.seen.book ≡ J.book }
    requires served { J.served [] }
    ensures server { IfOk result (λ r. r.server ≡ []) }
    ensures seats { IfOk result (λ r. AreFirst r.links.0.0.port.putter r.links.0.1.port.putter r.links.1.0.port.putter r.links.1.1.port.putter) }
{
    let (server, (putter0, putter1, putter2, putter3)) = opened.named::<J>();
    let (inbox, mut inward) = Inbox::open(alloc)?;
    let first = link_two(alloc, (putter0, putter1), &mut inward)?;
    let second = link_two(alloc, (putter2, putter3), &mut inward)?;
    Ok(Ready {
        inbox,
        server,
        links: (first, second),
    })
}
