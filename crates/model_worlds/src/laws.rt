//! Laws of the definitions alone: of answers, and of any worlds and runs.

ghost use Rattle.std.specs.Prelude.{◌≡◌, ℕ, ◌≤◌, List, [], None};
ghost use Rattle.ck_types.specs.declared.user_type.UserType.{UserType as Who};
ghost use Rattle.pin_record.specs.Charges.{after as charged_after};
ghost use Rattle.pin_record.specs.Records.{tries_limit, tries_of};
ghost use Rattle.model_views.specs.Views.{View, mask};
ghost use Rattle.model_views.specs.Changes.{Change, seen};
ghost use Rattle.model_worlds.specs.Worlds.{World, Move, event_of, happens, after, replies};
ghost use Rattle.model_worlds.specs.Traces.{saw, trace, replies_to, NoResourceError, HasNoFailure, failures_in, faults_in, IsTold, IsQuiet, AllQuiet, own_moves};
ghost use Rattle.model_worlds.specs.Tries.{charges_of, events_in, IsSoundWorld, spent_in};

pub use model_answers::laws::blind_answers;

/// A change by others comes to an application just where it alters what the application sees.
pub fn seen_changes()
    ensures left_out { (v : View) (change : Change) → mask (seen change v) ≡ mask v → saw v change ≡ [] }
    ensures only { (v : View) (change : Change) → saw v change ≡ [] → mask (seen change v) ≡ mask v }
{}

/// Every application got the replies, and has the view, of the fold of its own trace: for its whole life, also where events of
/// its own met resource errors, which stand in the trace.
pub fn told_by_trace()
    ensures { (app : ℕ) (w : World) (ms : List Move) → IsTold app w ms }
{}

/// What a trace reveals of resource errors is what the application was answered: these errors are those of its replies, in their
/// order. So it learns of no other.
pub fn told_failures()
    ensures { (app : ℕ) (w : World) (ms : List Move) → failures_in (trace app w ms) ≡ faults_in (replies_to app (replies w ms)) }
{}

/// A corollary: the trace of an application that met no resource error has none. So its replies and its view are those of its
/// calls, its results, its disconnect and what it sees of others.
pub fn told_without_failures()
    ensures none { (app : ℕ) (w : World) (ms : List Move) → NoResourceError app (replies w ms) → HasNoFailure (trace app w ms) }
    ensures told { (app : ℕ) (w : World) (ms : List Move) → NoResourceError app (replies w ms) → IsTold app w ms }
{}

/// Two runs in which the same comes to an application, from worlds in which it sees the same, return the same
/// to it. They leave it the same view, whatever else the worlds hold.
pub fn agreeing_runs()
    ensures replies { (app : ℕ) (v w : World) (ms ns : List Move) → mask (v.views app) ≡ mask (w.views app) → trace app v ms ≡ trace app w ns
        → replies_to app (replies v ms) ≡ replies_to app (replies w ns) }
    ensures views { (app : ℕ) (v w : World) (ms ns : List Move) → mask (v.views app) ≡ mask (w.views app) → trace app v ms ≡ trace app w ns
        → mask ((after v ms).views app) ≡ mask ((after w ns).views app) }
{}

/// A quiet (non-interfering) event of another application leaves the full view, and so the view.
pub fn quiet_event()
    ensures { (app : ℕ) (w : World) (m : Move) → IsQuiet app w (event_of m) → (happens w m).views app ≡ w.views app }
{}

/// Where the others are quiet, an application gets the replies that it would get alone.
pub fn quiet_run()
    ensures replies { (app : ℕ) (w : World) (ms : List Move) → AllQuiet app w ms
        → replies_to app (replies w ms) ≡ replies_to app (replies w (own_moves app ms)) }
    ensures views { (app : ℕ) (w : World) (ms : List Move) → AllQuiet app w ms → (after w ms).views app ≡ (after w (own_moves app ms)).views app }
{}

/// The ten tries, over a run: the record and the checks in progress are what its events of PINs make of them
/// (`pin_record::laws::ten_tries`). So the tries of each PIN stay those in progress and those that ended wrong
/// or abandoned since it was last entered right or set. At most ten do so end. It begins so with each world in
/// which no call is pending and no check is in progress.
pub fn ten_tries()
    ensures begins { (w : World) → w.checks ≡ [] → ((app : ℕ) → (w.views app).question ≡ None) → ((app : ℕ) → (w.views app).token_record ≡ w.token_record)
        → ((who : Who) → tries_of (w.token_record) who ≤ tries_limit) → IsSoundWorld (tries_of (w.token_record)) w }
    ensures goes { (s : Who → ℕ) (w : World) (ms : List Move) → IsSoundWorld s w → charges_of (after w ms) ≡ charged_after (charges_of w) (events_in w ms) }
    ensures goes_on { (s : Who → ℕ) (w : World) (ms : List Move) → IsSoundWorld s w → IsSoundWorld (spent_in s w ms) (after w ms) }
    ensures ten { (who : Who) (s : Who → ℕ) (w : World) (ms : List Move) → IsSoundWorld s w → spent_in s w ms who ≤ tries_limit }
{}
