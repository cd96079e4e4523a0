//! What the seats show of themselves.

use crate::crowd::Crowd;
use crate::tally::Tally;
use std::sync::atomic::{AtomicBool, AtomicU64, AtomicUsize, Ordering};

/// How many connections each of the four seats has, so that a new one comes to a seat with the fewest. Also when each looked round
/// last: a seat that waits for the token doesn't.
#[derive(Drop)]
pub struct Loads {
    counts: [AtomicUsize; 4],
    /// Which of them accept no more.
    is_closed: [AtomicBool; 4],
    /// Seconds of the seats' clock.
    looks: [AtomicU64; 4],
    pub(crate) crowd: Crowd,
    /// Connections that were refused for their frames.
    pub refused: Tally,
    /// Connections that were not accepted.
    pub unaccepted: Tally,
}

impl Loads {
    /// Four seats with no connection, which didn't look round yet.
    pub fn new() -> Loads {
        Loads {
            counts: [
                AtomicUsize::new(0),
                AtomicUsize::new(0),
                AtomicUsize::new(0),
                AtomicUsize::new(0),
            ],
            is_closed: [
                AtomicBool::new(false),
                AtomicBool::new(false),
                AtomicBool::new(false),
                AtomicBool::new(false),
            ],
            looks: [
                AtomicU64::new(0),
                AtomicU64::new(0),
                AtomicU64::new(0),
                AtomicU64::new(0),
            ],
            crowd: Crowd::new(),
            refused: Tally::new(),
            unaccepted: Tally::new(),
        }
    }

    /// How many connections there are.
    pub fn connections(&self) -> usize {
        let mut sum = 0usize;
        for count in &self.counts {
            sum = sum.saturating_add(count.load(Ordering::SeqCst));
        }
        sum
    }

    /// In which second of their clock the last of the four seats looked round that did so longest ago. One that is over doesn't count.
    pub fn last_look(&self) -> u64 {
        let mut last = u64::MAX;
        for look in &self.looks {
            last = last.min(look.load(Ordering::SeqCst));
        }
        last
    }

    /// A seat has so many connections now.
    pub(crate) fn set(&self, seat: u64, count: usize) {
        if let Some(own) = self.counts.get(seat as usize) {
            own.store(count, Ordering::SeqCst);
        }
    }

    /// A seat accepts no more, so that no other waits for it.
    pub(crate) fn close(&self, seat: u64) {
        if let Some(own) = self.is_closed.get(seat as usize) {
            own.store(true, Ordering::SeqCst);
        }
    }

    /// A seat looked round in this second.
    pub(crate) fn looked(&self, seat: u64, second: u64) {
        if let Some(own) = self.looks.get(seat as usize) {
            if own.load(Ordering::SeqCst) != second {
                own.store(second, Ordering::SeqCst);
            }
        }
    }

    /// Whether no seat that accepts has fewer connections than this one.
    pub(crate) fn is_least(&self, seat: u64) -> bool {
        let Some(own) = self.counts.get(seat as usize) else {
            return true;
        };
        let own = own.load(Ordering::SeqCst);
        for (count, is_closed) in self.counts.iter().zip(&self.is_closed) {
            if !is_closed.load(Ordering::SeqCst) && count.load(Ordering::SeqCst) < own {
                return false;
            }
        }
        true
    }
}
