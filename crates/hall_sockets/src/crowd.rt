//! Which seats are at long calls.

use std::sync::atomic::{AtomicBool, AtomicU64, Ordering};

/// How many seats are at long calls at once, while connections with short calls are served: half of them.
const MOST: usize = 2;

/// For how many milliseconds after a short call its connection counts as served.
const SERVED: u64 = 100;

/// After so many milliseconds without a long call nobody has to look for them.
const CALM: u64 = 1_000;

/// Which of the four seats are at a long call, and which are to begin one. Times are milliseconds of the seats' clock.
#[derive(Drop)]
pub(crate) struct Crowd {
    is_at_long: [AtomicBool; 4],
    /// Since when a seat has one that it didn't begin yet, or 0.
    waits: [AtomicU64; 4],
    /// When a quick connection made its last call.
    last_short: AtomicU64,
    /// When anybody made the last long one.
    last_long: AtomicU64,
}

impl Crowd {
    /// Four seats that are at none.
    pub(crate) fn new() -> Crowd {
        Crowd {
            is_at_long: [
                AtomicBool::new(false),
                AtomicBool::new(false),
                AtomicBool::new(false),
                AtomicBool::new(false),
            ],
            waits: [
                AtomicU64::new(0),
                AtomicU64::new(0),
                AtomicU64::new(0),
                AtomicU64::new(0),
            ],
            last_short: AtomicU64::new(0),
            last_long: AtomicU64::new(0),
        }
    }

    /// A seat begins a long call.
    pub(crate) fn begin_long(&self, seat: u64, time: u64) {
        if let Some(own) = self.is_at_long.get(seat as usize) {
            own.store(true, Ordering::SeqCst);
        }
        self.last_long.store(time, Ordering::SeqCst);
    }

    /// A seat's long call has its reply.
    pub(crate) fn end_long(&self, seat: u64) {
        if let Some(own) = self.is_at_long.get(seat as usize) {
            own.store(false, Ordering::SeqCst);
        }
    }

    /// Whether nobody made a long call lately.
    pub(crate) fn is_calm(&self, time: u64) -> bool {
        time.saturating_sub(self.last_long.load(Ordering::SeqCst)) > CALM
    }

    /// Since when a seat has a long call that it didn't begin yet, or 0.
    pub(crate) fn set_waits(&self, seat: u64, since: u64) {
        if let Some(own) = self.waits.get(seat as usize) {
            if own.load(Ordering::SeqCst) != since {
                own.store(since, Ordering::SeqCst);
            }
        }
    }

    /// A quick connection makes a short call.
    pub(crate) fn note_short(&self, time: u64) {
        if self.last_short.load(Ordering::SeqCst) != time {
            self.last_short.store(time, Ordering::SeqCst);
        }
    }

    /// Whether as many of the other seats are at long calls as may be.
    pub(crate) fn is_full(&self, seat: u64) -> bool {
        self.count_before(seat, 0) >= MOST
    }

    /// Whether a seat may begin a long call, which it has since then: unless a quick connection is served, and as many others are at long
    /// calls, or have waited for longer.
    pub(crate) fn may_begin(&self, seat: u64, since: u64, time: u64) -> bool {
        let last_short = self.last_short.load(Ordering::SeqCst);
        time.saturating_sub(last_short) > SERVED || self.count_before(seat, since) < MOST
    }

    /// How many of the other seats are at a long call, or wait for one since before then.
    fn count_before(&self, seat: u64, since: u64) -> usize {
        let mut count = 0usize;
        let mut other = 0u64;
        for (is_at_long, waits) in self.is_at_long.iter().zip(&self.waits) {
            let waits = waits.load(Ordering::SeqCst);
            let is_before = waits != 0 && waits < since;
            if other != seat && (is_before || is_at_long.load(Ordering::SeqCst)) {
                count = count.saturating_add(1);
            }
            other = other.saturating_add(1);
        }
        count
    }
}
