//! A `Gate` that a job passes in its turn.

use super::turns::Turns;
use hall::Gate;
use std::alloc::Global;
use std::sync::Arc;
use std::time::Clock;

#[derive(Drop)]
pub(crate) struct TurnGate<R: Clock + Drop> {
    pub(crate) rt: R,
    pub(crate) turns: Arc<Turns, Global>,
}

impl<R: Clock + Drop> Gate for TurnGate<R> {
    fn pass(&self, _seat: usize, app: u64) {
        self.turns.wait_for_finish(&self.rt, app);
    }
}
