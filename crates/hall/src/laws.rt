//! Laws of histories: what `hold` promises, in a reader's words. They speak of the definitions alone.

ghost use Rattle.std.specs.Prelude.{◌≡◌, ℕ, ◌+◌, ◌≤◌, ◌%◌, List, [], ◌∷◌, ◌++◌};
ghost use Rattle.model_views.specs.Views.{mask};
ghost use Rattle.model_worlds.specs.Worlds.{World, after, replies};
ghost use Rattle.model_worlds.specs.Traces.{replies_to, replies_told, trace};
ghost use Rattle.keep.specs.Contents.{Contents, greatest_id};
ghost use Rattle.token.specs.States.{HasJobs, ShowsAfter, TokenState, blames, opening};
ghost use Rattle.hall_log.specs.Histories.{AllMay, Exchange, event_app, History};
ghost use Rattle.hall_log.specs.Putting.{MayPut};
ghost use Rattle.hall.specs.Given.{IsSoFar};
ghost use Rattle.hall.specs.Histories.{AllProper, IsHistory, TellsEvent, Unfolds, ids_in, moves_in, replies_in, told_in};
ghost use Rattle.hall.specs.SpareIds.{HasSpareIds};

use crate::machine::Machine;
use hall_log::Naming;
use keep::Keep;

/// In a history that unfolds from a world, each event was answered as the token's model says at its place: in the world that the
/// events before it made.
pub fn answered_in_place()
    ensures { (w : World) (before : History) (x : ℕ × Exchange) (rest : History) → Unfolds w (before ++ x ∷ rest)
        → TellsEvent (after w (moves_in before)) x.1.0 x.1.1 }
{}

/// A beginning of a history that unfolds unfolds too. So what a daemon gave before it was killed is covered as well.
pub fn beginnings()
    ensures { (w : World) (before rest : History) → Unfolds w (before ++ rest) → Unfolds w before }
{}

/// Every application got the replies that its own trace determines, for its whole life, whatever the other seats did.
pub fn told_by_trace()
    ensures { (w : World) (history : History) (app : ℕ) → Unfolds w history
        → replies_to app (told_in history) ≡ replies_told (mask (w.views app)) (trace app w (moves_in history)) }
{}

/// Each event of a history of proper seats is of an application of its own seat, and so is its answer.
pub fn own_seat()
    ensures { (before : History) (x : ℕ × Exchange) (rest : History) → AllProper (before ++ x ∷ rest) → event_app x.1.0 % 4 ≡ x.0 }
{}

/// What `hold` returns of a whole history: it unfolds, and its replies are those of the token's run.
pub fn whole_history<M: Machine>()
    ensures unfolds { (m n : M) (w : World) (history : History) → IsHistory (M.terms.shows n) (M.terms.leaves m) (M.terms.leaves n) w history
        → Unfolds w history }
    ensures told { (m n : M) (w : World) (history : History) → IsHistory (M.terms.shows n) (M.terms.leaves m) (M.terms.leaves n) w history
        → told_in history ≡ replies w (moves_in history) }
{}

/// What the machine has served at any moment, while seats put what they might, unfolds where its store was faithful. So does what a
/// daemon has served that was killed.
pub fn given_so_far<M: Machine, J: Naming>()
    ensures { (m n : M) (w : World) (history : History)
        → IsSoFar M.terms J.was_read m n history
        → M.terms.doubt n ≡ 0 → M.terms.shows m w → HasJobs w [] → Unfolds w history }
{}

/// No answer that was given at any moment is CKR_DEVICE_ERROR, where the machine had an id for each call and each result that it had
/// served.
pub fn spared_so_far<M: Machine, J: Naming>()
    ensures { (m n : M) (w : World) (history : History) (count : ℕ)
        → IsSoFar M.terms J.was_read m n history
        → M.terms.spare m w (count + ids_in history) → HasJobs w [] → blames (replies_in (told_in history)) ≡ 0 }
{}

/// Each seat kept to its order in what was served, and each event was of an application of its own seat that was there.
pub fn proper_so_far<J: Naming>()
    ensures { (history : History) → AllMay (MayPut J.was_read) history → AllProper history }
{}

/// A new token over a steady keeper has an id for each of so many calls and results, if its keeper has.
pub fn spared_at_first<K: Keep>()
    ensures { (t : TokenState K) (c : Contents) (count : ℕ) → ShowsAfter K.terms c 0 t (opening c) → K.terms.is_steady t.store.keep
        → c.last_id + count ≤ greatest_id → HasSpareIds K.terms t (opening c) count }
{}
