//! Laws of what may be written. They speak of the definitions alone.

ghost use Rattle.std.specs.Prelude.{◌≡◌, ◌⊎◌, ℕ, List, ◌++◌};
ghost use Rattle.std.specs.List.{flat_map};
ghost use mathlib.Core.List.{IsPrefix};
ghost use Rattle.model_views.specs.Views.{mask};
ghost use Rattle.model_worlds.specs.Worlds.{World};
ghost use Rattle.model_worlds.specs.Traces.{replies_told, trace};
ghost use Rattle.hall_log.specs.Histories.{History};
ghost use Rattle.hall.specs.Histories.{Unfolds, moves_in};
ghost use Rattle.line.specs.Turns.{answers_with, messages, reply_frame};
ghost use Rattle.hall_sockets.specs.Writing.{MayWrite};

use hall_log::Naming;

/// An application's bytes so far are determined by its own frames and its own trace: its calls with their random words, the results that
/// it asked for, and the changes of others that it sees. They begin the frames of the replies that this trace determines.
pub fn bytes_by_trace<J: Naming>()
    ensures { (w : World) (history : History) (app : ℕ) (taken bytes : List ℕ) → Unfolds w history
        → (m : MayWrite J.given J.seed app history taken bytes)
        → (taken ++ bytes) ++ m.lacking ≡ flat_map reply_frame (answers_with (messages m.due.payloads)
        (replies_told (mask (w.views app)) (trace app w (moves_in history)))) }
{}

/// Two daemons, at any two writes: where an application's view at first is the same but for what is masked, its trace in one begins that
/// in the other, and so do its frames, then its bytes do too. So what is masked doesn't come out, whatever the other applications do.
pub fn bytes_of_two<I: Naming, J: Naming>()
    ensures { (v w : World) (h k : History) (app : ℕ) (taken bytes taken' bytes' : List ℕ) → Unfolds v h → Unfolds w k
        → mask (v.views app) ≡ mask (w.views app)
        → IsPrefix (trace app v (moves_in h)) (trace app w (moves_in k))
        → (m : MayWrite I.given I.seed app h taken bytes) (n : MayWrite J.given J.seed app k taken' bytes')
        → IsPrefix m.read n.read ⊎ IsPrefix n.read m.read
        → IsPrefix (taken ++ bytes) (taken' ++ bytes') ⊎ IsPrefix (taken' ++ bytes') (taken ++ bytes) }
{}
