//! Laws of runs that crashes end.

ghost use Rattle.std.specs.Prelude.{ℕ, ◌+◌, ◌≤◌, List};
ghost use Rattle.ck_types.specs.declared.user_type.UserType.{UserType as Who};
ghost use Rattle.keep.specs.Contents.{Contents};
ghost use Rattle.pin_record.specs.Records.{TokenRecord, tries_limit, tries_of};
ghost use Rattle.model_worlds.specs.Worlds.{World, Move, after};
ghost use Rattle.model_worlds.specs.Tries.{IsSoundWorld};
ghost use Rattle.model_runs.specs.Applications.{opening};
ghost use Rattle.model_runs.specs.Lives.{AreLives, BeginsWith, Leaves, Life, failed_in, failed_over, in_progress};
ghost use Rattle.model_runs.specs.Runs.{Lasting};

/// No crash gives a try back. In whatever a crash leaves after a run from a sound world, the tries of each PIN are at least two
/// kinds of its checks: those in progress, and those that failed since it was last entered right or set. They are ten at most.
pub fn tries_after_crash()
    ensures kept { (who : Who) (s : Who → ℕ) (n : ℕ) (w : World) (ms : List Move) (left : Lasting) → IsSoundWorld s w → n ≤ s who → Leaves w ms left
        → failed_in who n w ms + in_progress who (after w ms) ≤ tries_of left.token_record who }
    ensures ten { (who : Who) (s : Who → ℕ) (w : World) (ms : List Move) (left : Lasting) → IsSoundWorld s w → Leaves w ms left
        → tries_of left.token_record who ≤ tries_limit }
{}

/// However often a token is killed, at most ten checks of a PIN fail between two times that it is entered right or set. What
/// `opening` makes of contents, which a new token refines, is how a life begins.
pub fn ten_tries_over_lives()
    ensures begins { (c : Contents) → BeginsWith c.token_record (opening c) }
    ensures ten { (who : Who) (n : ℕ) (r : TokenRecord) (lives : List Life) → ((w : Who) → tries_of r w ≤ tries_limit) → n ≤ tries_of r who
        → AreLives r lives → failed_over who n lives ≤ tries_limit }
{}
