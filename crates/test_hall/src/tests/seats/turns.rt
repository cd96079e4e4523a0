//! Whose turn it is.

use std::sync::atomic::{AtomicBool, AtomicUsize, Ordering};
use std::thread;
use std::time::{Clock, Duration};
use test_scripts::{Row, Step};

/// The rows of a script, and the place of the row whose turn it is.
#[derive(Drop)]
pub(crate) struct Turns {
    rows: Vec<Row>,
    turn: AtomicUsize,
    /// Someone waited in vain.
    is_stuck: AtomicBool,
}

impl Turns {
    pub(crate) fn new(rows: Vec<Row>) -> Turns {
        Turns {
            rows,
            turn: AtomicUsize::new(0),
            is_stuck: AtomicBool::new(false),
        }
    }

    /// The index of the first `Finish` of the application's pending call after the row whose turn it is.
    fn finish_of(&self, app: u64) -> Option<usize> {
        let from = self.turn().checked_add(1)?;
        for place in from..self.rows.len() {
            let row = *self.rows.get(place)?;
            if row.0 == app && is_finish(row.1) {
                return Some(place);
            }
        }
        None
    }

    fn turn(&self) -> usize {
        self.turn.load(Ordering::SeqCst)
    }

    fn give_turn(&self, place: usize) {
        self.turn.store(place, Ordering::SeqCst);
    }

    /// Whether each turn that was waited for came, and that of the row after the last.
    pub(crate) fn went_on(&self) -> bool {
        !self.is_stuck.load(Ordering::SeqCst) && self.turn() == self.rows.len()
    }

    /// Waits for the turn of a row, at most 10,000 milliseconds. False where it doesn't come.
    pub(crate) fn wait_for<R: Clock>(&self, rt: &R, place: usize) -> bool {
        for _ in 0..10_000 {
            if self.turn() == place {
                return true;
            }
            thread::sleep(rt, Duration::from_millis(1));
        }
        self.is_stuck.store(true, Ordering::SeqCst);
        false
    }

    /// The row whose turn it is is a call that returns a job: the next row may begin, and this waits for the job's result.
    pub(crate) fn wait_for_finish<R: Clock>(&self, rt: &R, app: u64) {
        let Some(place) = self.finish_of(app) else {
            return;
        };
        let next = self.turn().wrapping_add(1);
        self.give_turn(next);
        let _ = self.wait_for(rt, place);
    }

    /// The row whose turn it is is over, and so is the result of a job that it did not return.
    pub(crate) fn go_on(&self, app: u64) {
        let mut next = self.turn().wrapping_add(1);
        if let Some(row) = self.rows.get(next)
            && row.0 == app
            && is_finish(row.1)
        {
            next = next.wrapping_add(1);
        }
        self.give_turn(next);
    }
}

/// Whether the step is the result of a job.
pub(crate) fn is_finish(step: Step) -> bool {
    matches!(step, Step::Finish)
}
