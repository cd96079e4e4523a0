//! The places that a seat is to ask, in their order.

use line_places::MAX_CLIENTS;
use std::alloc::{AllocError, Global};
use std::collections::VecDeque;
use std::time::Duration;

/// For how many milliseconds a long call stands behind short ones, at most.
const BEHIND: u64 = 20;

/// A connection is quick after so many short calls without a long one.
const QUICK: u8 = 16;

/// The places whose connections have something, each once. Those whose next call is long stand behind the others.
#[derive(Drop)]
pub(crate) struct Queue {
    due: VecDeque<usize>,
    /// Those whose next call is long, and since when.
    late: VecDeque<(usize, Duration)>,
    /// Whether a place is among them.
    is_noted: [bool; MAX_CLIENTS],
    /// Whether a place's next call is long and may begin: it is read as it comes.
    is_admitted: [bool; MAX_CLIENTS],
    /// How many short calls each made since its last long one, 255 at most.
    short_calls: [u8; MAX_CLIENTS],
    /// How many all made since the last long one.
    since_long: usize,
    /// The last call is long, and has no reply yet.
    pub(crate) is_at_long: bool,
    /// When the last call began, if it begins a search and has no reply yet.
    pub(crate) search_began: Option<Duration>,
    /// The last search took long.
    pub(crate) are_searches_long: bool,
}

impl Queue {
    /// No place.
    pub(crate) fn new(alloc: Global) -> Result<Queue, AllocError> {
        Ok(Queue {
            due: VecDeque::with_capacity(alloc, MAX_CLIENTS)?,
            late: VecDeque::with_capacity(alloc, MAX_CLIENTS)?,
            is_noted: [false; MAX_CLIENTS],
            is_admitted: [false; MAX_CLIENTS],
            short_calls: [0; MAX_CLIENTS],
            since_long: 0,
            is_at_long: false,
            search_began: None,
            are_searches_long: false,
        })
    }

    /// A place is to be asked. False where there is no memory for that.
    pub(crate) fn note(&mut self, place: usize) -> bool {
        match self.is_noted.get_mut(place) {
            Some(is_noted) if !*is_noted => {
                *is_noted = true;
                self.due.push_back(place).is_ok()
            }
            _ => true,
        }
    }

    /// The next place, of those whose next call isn't known to be long.
    pub(crate) fn next(&mut self) -> Option<usize> {
        let place = self.due.pop_front()?;
        self.forget(place);
        Some(place)
    }

    /// Whether others are to be asked.
    pub(crate) fn has_more(&self) -> bool {
        !self.due.is_empty() || self.has_late()
    }

    /// A place's next call is long. False where there is no memory for that.
    pub(crate) fn put_off(&mut self, place: usize, time: Duration) -> bool {
        if let Some(is_noted) = self.is_noted.get_mut(place) {
            *is_noted = true;
        }
        self.late.push_back((place, time)).is_ok()
    }

    /// Whether a place's next call is known to be long.
    pub(crate) fn has_late(&self) -> bool {
        !self.late.is_empty()
    }

    /// Since when the first of them waits.
    pub(crate) fn late_since(&self) -> Option<Duration> {
        match self.late.front() {
            Some((_, since)) => Some(*since),
            None => None,
        }
    }

    /// Whether the first of them has waited for long enough, and each of so many connections may have made a short call since the last
    /// long one.
    pub(crate) fn is_overdue(&self, time: Duration, connections: usize) -> bool {
        match self.late_since() {
            Some(since) => {
                self.since_long >= connections
                    && time.saturating_sub(since) >= Duration::from_millis(BEHIND)
            }
            None => false,
        }
    }

    /// The first place whose next call is long, which may begin.
    pub(crate) fn next_late(&mut self) -> Option<usize> {
        let (place, _) = self.late.pop_front()?;
        self.forget(place);
        if let Some(is_admitted) = self.is_admitted.get_mut(place) {
            *is_admitted = true;
        }
        Some(place)
    }

    /// Whether a place's next call is long and may begin.
    pub(crate) fn is_admitted(&self, place: usize) -> bool {
        self.is_admitted.get(place).copied().unwrap_or(false)
    }

    fn forget(&mut self, place: usize) {
        if let Some(is_noted) = self.is_noted.get_mut(place) {
            *is_noted = false;
        }
    }

    /// A connection has come to a place.
    pub(crate) fn begin(&mut self, place: usize) {
        self.reset(place, 0);
    }

    /// The connection at a place makes a long call.
    pub(crate) fn call_long(&mut self, place: usize) {
        self.reset(place, 0);
        self.since_long = 0;
    }

    /// The connection at a place makes a short call. Whether it is quick.
    pub(crate) fn call_short(&mut self, place: usize) -> bool {
        let calls = match self.short_calls.get(place) {
            Some(calls) => calls.saturating_add(1),
            None => 0,
        };
        self.reset(place, calls);
        self.since_long = self.since_long.saturating_add(1);
        calls >= QUICK
    }

    /// A place made so many short calls, and its next call is not known.
    fn reset(&mut self, place: usize, calls: u8) {
        if let (Some(short_calls), Some(is_admitted)) = (
            self.short_calls.get_mut(place),
            self.is_admitted.get_mut(place),
        ) {
            *short_calls = calls;
            *is_admitted = false;
        }
    }
}
