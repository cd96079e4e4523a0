//! What takes one event after the other.

ghost use Rattle.std.specs.Prelude.{◌≡◌, ℕ, [], Some, None, Option};
ghost use Rattle.ck_calls.specs.declared.reply.Reply.TheVariants.{Code};
ghost use Rattle.ck_types.specs.declared.rv.Rv.TheVariants.{FunctionFailed};
ghost use Rattle.hall_log.specs.declared.event.Event.TheVariants.{Call as CallEvent, Finish as FinishEvent, Gone as GoneEvent};
ghost use Rattle.serve_base.specs.Short.{IsShort, IsShortCall, IsShortSaid, IsShortTask};
ghost use Rattle.serve_base.specs.Shown.{said_of, task_of};
ghost use Rattle.serve_base.specs.declared.out.Out.TheVariants.{Reply as OutReply};
ghost use Rattle.model_worlds.specs.Worlds.{World};
ghost use Rattle.model_runs.specs.Applications.{IsOther};
ghost use Rattle.token.specs.States.{IsOpen, Lasting};
ghost use Rattle.hall.specs.Terms.{MachineTerms};
ghost use Rattle.hall.specs.Histories.{Counts, Spends, EventTakesPlace, replies_in, told_out};

use ck_calls::{AppCall, Reply};
use std::alloc::Global;
use token::{Done, Out};

/// What takes one event after the other: the token. The hall is proved over this trait, so that it speaks of no keeper.
pub trait Machine {
    /// What is known of it.
    ghost terms: { MachineTerms Self };

    /// A call of an application: a reply, or a job.
    fn call(&mut self, alloc: Global, call: AppCall) -> Out
        ensures takes { terms.doubt self.new ≡ 0 → (w : World) → terms.shows self.old w
            → EventTakesPlace (terms.shows self.new) (terms.leaves self.old) (terms.leaves self.new) w (CallEvent call) (Some result) }
        ensures counts { Counts (terms.doubt self.old) (terms.doubt self.new) (terms.failures self.old) (terms.failures self.new)
            (replies_in (told_out call.app result)) }
        ensures spends { (w : World) → Spends (terms.spare self.old) (terms.spare self.new) w (CallEvent call) (Some result) }
        // A call with data that fits into a frame returns something as short, or a job for it.
        ensures short { IsShortCall call.call → IsShortSaid (said_of result) };

    /// The result of the job of an application's pending call: the reply to that call. That of no pending call changes nothing.
    fn finish(&mut self, alloc: Global, app: u64, done: Done) -> Reply
        ensures takes { terms.doubt self.new ≡ 0 → (w : World) → terms.shows self.old w → IsOpen w app done.job.value
            → EventTakesPlace (terms.shows self.new) (terms.leaves self.old) (terms.leaves self.new) w (FinishEvent app done) (Some (OutReply result)) }
        ensures counts { Counts (terms.doubt self.old) (terms.doubt self.new) (terms.failures self.old) (terms.failures self.new)
            (replies_in (told_out app (OutReply result))) }
        ensures spends { (w : World) → IsOpen w app done.job.value
            → Spends (terms.spare self.old) (terms.spare self.new) w (FinishEvent app done) (Some (OutReply result)) }
        ensures other { (w : World) → terms.shows self.old w → IsOther (w.views app).question app done.job.value → (result ≡ Code FunctionFailed)
            × (self.new ≡ self.old) }
        // What is returned for a short job is short.
        ensures short { IsShortTask (task_of done.job.value.work.value) → IsShort result };

    /// A disconnect of an application.
    fn gone(&mut self, app: u64)
        ensures takes { terms.doubt self.new ≡ 0 → (w : World) → terms.shows self.old w
            → EventTakesPlace (terms.shows self.new) (terms.leaves self.old) (terms.leaves self.new) w (GoneEvent app) None }
        ensures counts { Counts (terms.doubt self.old) (terms.doubt self.new) (terms.failures self.old) (terms.failures self.new) (replies_in []) }
        ensures spends { (w : World) → Spends (terms.spare self.old) (terms.spare self.new) w (GoneEvent app) None };

    // A steady store has returned what was written, and the world is the one that is refined.
    ghost sure: { (m : Self) (w : World) (count : ℕ) → terms.spare m w count → (terms.doubt m ≡ 0) × terms.shows m w };
}
