//! Which log it is.

ghost use Rattle.std.specs.Prelude.{ℕ, List};

use std::marker::Brand;

/// Which log it is, and which histories were served in it. Its members are for contracts alone: each call of a program that begins a
/// log picks them.
pub trait Naming {
    ghost use Rattle.logbook.specs.Pages.{Book};
    ghost use Rattle.hall_log.specs.Histories.{AllOwn, Exchange, History};
    ghost use Rattle.hall_log.specs.Suiting.{HistorySuits};
    ghost use Rattle.ck_calls.specs.declared.app_call.AppCall.{AppCall};

    /// The book that the log is of.
    ghost book: { Book };

    /// The seed of all applications' random bytes.
    ghost seed: { List ℕ };

    /// The reader of this application has given these bytes, at some moment.
    ghost given: { ℕ → List ℕ → Type 0 };

    /// This call was read of its application's connection, after these exchanges of its seat.
    ghost was_read: { List Exchange → AppCall → Type 0 };

    /// The machine has served this history.
    ghost served: { History → Type 0 };

    /// Each event of such a history is of an application of its own seat.
    ghost own: { (h : History) → served h → AllOwn h };

    /// And each has an answer that suits it.
    ghost suited: { (h : History) → served h → HistorySuits h };
}

impl Naming for Brand {
    ghost use Rattle.std.specs.Prelude.{[]};
    ghost use Rattle.hall_log.specs.Histories.{AllOwn};
    ghost use Rattle.hall_log.specs.Suiting.{HistorySuits};

    ghost book = { record { number = 0; log_name = 0; cells_name = 0 } };

    ghost seed = { [] };

    ghost given = { λ app bytes. Unit {0} };

    ghost was_read = { λ before call. Unit {0} };

    ghost served = { λ history. AllOwn history × HistorySuits history };

    ghost own = { λ history so. so.0 };

    ghost suited = { λ history so. so.1 };
}
