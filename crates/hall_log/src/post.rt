//! What passes between seats and the token.

ghost use Rattle.std.specs.Prelude.{◌≡◌, length};
ghost use Rattle.hall_log.specs.Lists.{of};
ghost use Rattle.hall_log.specs.Log.{HasGot, HasPut, served};
ghost use Rattle.hall_log.specs.Putting.{MayPut};

use crate::event::Event;
use crate::naming::Naming;
use crate::reached::{Reached, Told};
use serve_base::Out;
use std::snapshot::Snapshot;

/// That a seat put an event, with how many it put before, and a beginning of the log in which it was put. All that it put before
/// was answered, and after that it may put this event. The event itself is for contracts alone.
#[derive(Drop)]
pub struct Post<J: Naming> {
    pub seat: u64,
    pub number: u64,
    pub event: Snapshot<Event>,
    pub put: Reached<J>,
    pub told: Told<J>,
    pub ghost has_put: { HasPut put seat event.value number },
    pub ghost count: { length (of seat (served told)) ≡ number },
    pub ghost may: { ∥ MayPut J.was_read seat (of seat (served told)) event.value ∥₁ },
}

/// That a seat's event was served, with how many were served before, and a beginning of the log in which it was. The answer is for
/// contracts alone: None to a disconnect.
#[derive(Drop)]
pub struct Receipt<J: Naming> {
    pub seat: u64,
    pub number: u64,
    pub answer: Snapshot<Option<Out>>,
    pub told: Told<J>,
    pub ghost has_got: { HasGot told seat answer.value number },
}
