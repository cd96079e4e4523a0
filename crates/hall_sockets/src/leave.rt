//! The licence by which a seat writes.

ghost use Rattle.std.specs.Prelude.{◌≡◌};
ghost use Rattle.hall_log.specs.Histories.{AllOwn};
ghost use Rattle.hall_log.specs.Log.{served};
ghost use Rattle.hall_log.specs.Suiting.{HistorySuits};

use door::Licence;
use hall_log::{Naming, Told};

/// The licence to write to connections by a history that the token has served.
#[derive(Drop)]
pub struct Leave<J: Naming> {
    pub told: Told<J>,
}

impl<J: Naming> Licence for Leave<J> {
    ghost use Rattle.hall_log.specs.Log.{served};
    ghost use Rattle.hall_sockets.specs.Writing.{MayWrite};

    /// With these bytes, what the application's writer took begins the frames of the answers to its calls in this history, and these
    /// calls are the first of those that its own reader has given.
    ghost allows = { λ l app taken bytes. J.served (served l.told) × ∥ MayWrite J.given J.seed app (served l.told) taken bytes ∥₁ };
}

impl<J: Naming> Leave<J> {
    /// By the history that a seat was told.
    pub(crate) fn by(told: &Told<J>) -> Leave<J>
        ensures told { result.told ≡ told.now }
        ensures served { J.served (served result.told) }
        ensures own { AllOwn (served result.told) }
        ensures suited { HistorySuits (served result.told) }
    {
        Leave { told: told.again() }
    }
}
