//! What stands in the log.

use crate::event::Event;
use serve_base::Out;

/// An entry of the log. No value of it is made: it is for contracts alone.
#[derive(Drop)]
pub enum Entry {
    /// A seat put this event.
    Put {
        seat: u64,
        event: Event,
    },
    /// This event of a seat was served, and answered so. None is the answer to a disconnect.
    Served {
        seat: u64,
        event: Event,
        answer: Option<Out>,
    },
}
