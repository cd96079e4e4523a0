//! How often something happened that anybody may cause.

ghost use Rattle.std.specs.Prelude.{◌≢◌, IfSome};

use std::sync::atomic::{AtomicU64, Ordering};

/// How many seconds are between two lines.
const EACH: u64 = 60;

/// How often something happened that anybody may cause. The first time is a line of its own. The others are counted, and their
/// number is a line once a minute.
#[derive(Drop)]
pub struct Tally {
    /// One more than the second of the last line; 0 before the first.
    told: AtomicU64,
    count: AtomicU64,
}

impl Tally {
    pub(crate) fn new() -> Tally {
        Tally {
            told: AtomicU64::new(0),
            count: AtomicU64::new(0),
        }
    }

    /// It happens once more, in this second. Whether that is a line of its own; otherwise it is counted.
    pub(crate) fn add(&self, second: u64) -> bool {
        let told = self.told.load(Ordering::SeqCst);
        let is_quiet = self.count.load(Ordering::SeqCst) == 0;
        let is_line = is_quiet
            && is_past(told, second)
            && self
                .told
                .compare_exchange(
                    told,
                    second.saturating_add(1),
                    Ordering::SeqCst,
                    Ordering::SeqCst,
                )
                .is_ok();
        if !is_line {
            self.count.fetch_add(1, Ordering::SeqCst);
        }
        is_line
    }

    /// How many were counted since the last line, if there are any and a line is due in this second. Then it counts from 0 again.
    pub fn take_due(&self, second: u64) -> Option<u64>
        ensures { IfSome result (λ count. count ≢ 0) }
    {
        if !is_past(self.told.load(Ordering::SeqCst), second) {
            return None;
        }
        let count = self.count.swap(0, Ordering::SeqCst);
        if count == 0 {
            return None;
        }
        self.told.store(second.saturating_add(1), Ordering::SeqCst);
        Some(count)
    }
}

/// Whether a minute has passed since the last line.
fn is_past(told: u64, second: u64) -> bool {
    told == 0 || second.saturating_add(1).saturating_sub(told) >= EACH
}
