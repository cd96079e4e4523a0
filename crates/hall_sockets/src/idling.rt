//! Connections of which nothing comes.

use crate::seat::SocketSeat;
use crate::waiting::PATIENCE;
use std::time::{Clock, Duration};

impl<S: Drop, L, C: Clock> SocketSeat<S, L, C> {
    /// The place of a connection of which nothing came for too long. They are looked for once a second.
    pub(crate) fn idle_place(&self) -> Option<usize> {
        let idle = self.idle?;
        'places: for place in 0..self.clients.len() {
            if let (Some(_), Some(used)) = (self.clients.client(place), self.last_used.get(place)) {
                if self.time.saturating_sub(*used) > idle {
                    return Some(place);
                }
            }
        }
        None
    }

    /// Whether a second has passed since idle connections were looked for.
    pub(crate) fn must_look(&self) -> bool {
        self.idle.is_some()
            && self.time.saturating_sub(self.idle_checked) >= Duration::from_secs(PATIENCE)
    }
}
