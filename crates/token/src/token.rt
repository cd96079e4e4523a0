//! The token: one event at a time.

ghost use Rattle.std.specs.Prelude.{◌≡◌, ◌≢◌, ◌⊎◌, ◌++◌, [], ℕ, ◌<◌, ◌≤◌, ◌==◌, ◌&&◌, true, not, All, IfErr, IfOk, IsErrOf, IsSome, None, OnErr, OnOk, Option, count_by, length, map, option_to_list, reverse, vec_capacity, vec_len};
ghost use Rattle.std.specs.List.{position};
ghost use Rattle.std.specs.BTreeMap.{get};
ghost use Rattle.std.specs.Ordering.{nat_cmp};
ghost use Rattle.ck_calls.specs.declared.reply.Reply.TheVariants.{Code};
ghost use Rattle.ck_calls.specs.Need.{random_bytes};
ghost use Rattle.ck_types.specs.declared.rv.Rv.TheVariants.{DeviceError, FunctionFailed, HostMemory};
ghost use Rattle.ck_types.specs.declared.user_type.UserType.{UserType as Who};
ghost use Rattle.desk.specs.Desks.{SameDesk, empty_desk, over};
ghost use Rattle.keep.specs.Contents.{Contents};
ghost use Rattle.pin_record.specs.Charges.{is_same_user};
ghost use Rattle.pin_record.specs.Records.{tries_limit, tries_of};
ghost use Rattle.keep.specs.Keeping.{Counted, HasCause, Rises, Stays};
ghost use Rattle.keep.specs.declared.keep.KeepFault.TheVariants as keep_faults;
ghost use Rattle.model_worlds.specs.declared.event.Event.TheVariants.{Finish, Gone};
ghost use Rattle.model_worlds.specs.Events.{HasRandom};
ghost use Rattle.model_views.specs.declared.fault.Fault.TheVariants.{Device};
ghost use Rattle.model_views.specs.Answering.{pin_checked_in};
ghost use Rattle.model_answers.specs.Answers.{answer};
ghost use Rattle.model_views.specs.Refusals.{resource_error_in};
ghost use Rattle.model_worlds.specs.Worlds.{World, called, checks_of, goes, is_init_token, others_checking, reveal_by_call, without_checks};
ghost use Rattle.model_worlds.specs.Tries.{IsSoundWorld};
ghost use Rattle.serve_base.specs.Shown.{IsFor, IsReply, RepliesAtOnce, said_of};
ghost use Rattle.serve_base.specs.Short.{IsShortCall, IsShortSaid};
ghost use Rattle.token.specs.Endings.{under_way_of};
ghost use Rattle.token.specs.Dispatching.{DeskStands};
ghost use Rattle.token.specs.Memory.{takes_no_memory};
ghost use Rattle.token.specs.Turns.{TokenCalled, TokenFinished};
ghost use Rattle.model_runs.specs.Applications.{Finishes, HasJobs, reveal_by_job, checks_after, has_session_at, are_others_in_session, TakesJob, desk_at, is_answer, opening, or_fault_code, Shows, ShowsAfter};
ghost use Rattle.serve_base.specs.Refusing.{IsServedIf};
ghost use Rattle.serve_base.specs.Stores.{FailsForIds, SameIds, Served};
ghost use Rattle.model_runs.specs.Runs.{AccountsFor, RunAdvances, BlamesForIds, HasIds, IsRun, IsStep, MayLeave, blames};

use crate::ending::{Others, finish_at};
use crate::no_memory::takes_no_memory;
use crate::ran::Ran;
use crate::serving::serve;
use ck_calls::{Call, Function, Reply};
use ck_types::{Rv, UserType};
use desk::{Desk, Question};
use keep::{Keep, KeepFault};
use mech::{Done, Job, Work};
use model_views::Fault;
use model_worlds::{Check, Event};
use serve_base::{Out, Returned, Store};
use std::alloc::{AllocError, Global};
use std::collections::BTreeMap;
use std::marker::Model;

/// A token with one slot, over a keeper, for several applications, each of which is a number.
#[derive(Drop)]
pub struct Token<K: Keep> {
    store: Store<K>,
    desks: BTreeMap<u64, Desk>,
    checks: Vec<Check>,
}

impl<K: Keep> Model for Token<K> {
    ghost use Rattle.model_runs.specs.Applications.{TokenState};

    ghost Value = { TokenState K };

    ghost view = { λ t. record { store = t.store; desks = t.desks.entries; checks = t.checks.items } };
}

impl<K: Keep> Token<K> {
    /// A token over a keeper, which nobody has called yet. It reads the ids of the keeper's objects. A keeper that fails comes back
    /// beside its fault, as it was.
    pub fn new(alloc: Global, keep: K) -> Result<Token<K>, (KeepFault, K)>
        // It refines what the keeper holds, with no application.
        ensures shows { (c : Contents) → K.terms.holds keep c → IfOk result (λ t. K.terms.doubt t.store.keep ≡ 0 → Shows K.terms t (opening c)) }
        // It has given no id: all that the keeper had are to come.
        ensures ids { (c : Contents) → K.terms.holds keep c → IfOk result (λ t. K.terms.doubt t.store.keep ≡ 0 → ShowsAfter K.terms c 0 t (opening c)) }
        // The ten tries begin.
        ensures sound { IfOk result (λ t. (w : World) → Shows K.terms t w → ((who : Who) → tries_of (w.token_record) who ≤ tries_limit)
            → IsSoundWorld (tries_of (w.token_record)) w) }
        // No call is pending.
        ensures jobs { IfOk result (λ t. (w : World) → Shows K.terms t w → HasJobs w []) }
        ensures leaves { (c : Contents) → K.terms.holds keep c
            → IfOk result (λ t. (left : Option Contents) → K.terms.may_leave t.store.keep left → K.terms.may_leave keep left) }
        ensures back { IfErr result (λ e. Stays K.terms keep e.1) }
        // A steady keeper stays so, and is not refused by `Device`.
        ensures steady { K.terms.is_steady keep → IfOk result (λ t. K.terms.is_steady t.store.keep) }
        ensures device { K.terms.is_steady keep → IfErr result (λ e. e.0 ≢ keep_faults.Device) }
    {
        let store = Store::adopt(alloc, keep)?;
        Ok(Token {
            store,
            desks: BTreeMap::new(alloc),
            checks: Vec::new(alloc),
        })
    }

    /// Reads the objects that no search has read yet, so that none has to, up to the first that can't be read. Nobody is told another reply
    /// for it.
    pub fn note_marks(&mut self, alloc: Global) -> Result<(), KeepFault>
        ensures same { Stays K.terms self.old.store.keep self.new.store.keep }
        ensures ids { SameIds K.terms self.old.store self.new.store }
        ensures desks { self.new.desks ≡ self.old.desks }
        ensures checks { self.new.checks ≡ self.old.checks }
        ensures counts { Counted K.terms self.old.store.keep self.new.store.keep 0 0 }
        ensures cause { HasCause (K.terms.failures self.old.store.keep) (K.terms.failures self.new.store.keep) result }
    {
        self.store.note_marks(alloc)
    }

    /// The keeper, with all that was acknowledged. All applications are disconnected.
    pub fn into_keep(self) -> K
        ensures { result ≡ self.store.keep }
    {
        let Token { store, .. } = self;
        store.into_keep()
    }

    /// One call of an application, with its random bytes (`ck_calls::need`). Where an allocation failed the reply is
    /// `CKR_HOST_MEMORY`, where the keeper failed `CKR_DEVICE_ERROR`; then nothing has changed.
    pub fn call(&mut self, alloc: Global, app: u64, call: Call, random: &[u8]) -> Out
        requires { length random.now ≡ random_bytes call }
        ensures { TokenCalled K.terms self.old app call random.now result self.new }
    {
        self.store.on_behalf_of(app);
        or_fault_code(serve_app(
            alloc,
            app,
            &mut self.desks,
            &mut self.store,
            &mut self.checks,
            call,
            random,
        ))
    }

    /// The result of an application's pending call. A `Done` of another application, job number or function, or without a pending
    /// call, returns `CKR_FUNCTION_FAILED` and changes nothing. Where an allocation failed, in the job too, the reply is
    /// `CKR_HOST_MEMORY`; the call is pending no more.
    pub fn finish(&mut self, _alloc: Global, app: u64, done: Done) -> Reply
        ensures { TokenFinished K.terms self.old app done.job.value result self.new }
    {
        if !is_pending_job(&self.desks, app, &done) {
            return Reply::Code(Rv::FunctionFailed);
        }
        self.store.on_behalf_of(app);
        let reply = or_fault_code(finish_app(
            &mut self.desks,
            &mut self.store,
            &self.checks,
            app,
            done,
        ));
        retain_others(&mut self.checks, app);
        reply
    }

    /// A disconnect: the application's state ends. Allocates nothing.
    pub fn gone(&mut self, app: u64)
        ensures world { (w : World) → Shows K.terms self.old w → Shows K.terms self.new (goes w (Gone app)) }
        // No id is given.
        ensures ids { (w : World) → (s : Shows K.terms self.old w) → ShowsAfter K.terms s.contents 0 self.new (goes w (Gone app)) }
        // Neither the keeper nor what a crash may leave changes.
        ensures keep { self.new.store ≡ self.old.store }
        // It has nothing any more, and its checks are over; the others have what they had.
        ensures own { desk_at self.new.desks app ≡ empty_desk }
        ensures others { (b : ℕ) → b ≢ app → desk_at self.new.desks b ≡ desk_at self.old.desks b }
        ensures checks { self.new.checks ≡ without_checks app self.old.checks }
    {
        drop_desk(&mut self.desks, app);
        retain_others(&mut self.checks, app);
    }

    /// One event, with the pending jobs. A call may add one, for which memory is allocated.
    fn event(
        &mut self,
        alloc: Global,
        event: Event,
        out: &mut Vec<(u64, Job)>,
    ) -> Option<(u64, Reply)>
        requires room { vec_len out.old < vec_capacity out.old }
        requires random { HasRandom event }
        ensures step { K.terms.doubt self.new.store.keep ≡ 0 → (w : World) → (s : Shows K.terms self.old w) → HasJobs w out.old.items
            → IsStep (ShowsAfter K.terms s.contents 1 self.new) (MayLeave K.terms self.old) (MayLeave K.terms self.new) w event
            (option_to_list result) out.new.items }
        ensures steady { K.terms.is_steady self.old.store.keep → (w : World) → (s : Shows K.terms self.old w) → HasJobs w out.old.items
            → BlamesForIds w event s.contents (map (λ r. r.1) (option_to_list result)) }
        ensures counts { Counted K.terms self.old.store.keep self.new.store.keep 0 1 }
        ensures accounts { AccountsFor (K.terms.failures self.old.store.keep) (K.terms.failures self.new.store.keep) (map (λ r. r.1) (option_to_list result)) }
    {
        match event {
            Event::Call { app, call, words } => match self.call(alloc, app, call, &words) {
                Out::Reply(reply) => Some((app, reply)),
                Out::Ask(job) => {
                    out.push_reserved((app, job));
                    None
                }
            },
            Event::Finish { app } => match take_job(out, app) {
                Some(job) => {
                    let reply = self.finish(alloc, app, job.run(alloc));
                    Some((app, reply))
                }
                None => None,
            },
            Event::Gone { app } => {
                let _ = take_job(out, app);
                self.gone(app);
                None
            }
        }
    }

    /// Takes the last event, and adds its reply, if there is one.
    fn advance(
        &mut self,
        alloc: Global,
        events: &mut Vec<Event>,
        out: &mut Vec<(u64, Job)>,
        replies: &mut Vec<(u64, Reply)>,
    ) -> Result<(), AllocError>
        requires some { 0 < vec_len events.old }
        requires random { All HasRandom events.old.items }
        ensures ok { OnOk result
            (RunAdvances (K.terms.doubt self.new.store.keep ≡ 0) (Shows K.terms self.old) (Shows K.terms self.new) (MayLeave K.terms self.old)
            (MayLeave K.terms self.new) (reverse events.old.items) out.old.items replies.old.items (reverse events.new.items) out.new.items replies.new.items) }
        ensures err { OnErr result ((events.new.items ≡ events.old.items) × (out.new.items ≡ out.old.items)
            × (replies.new.items ≡ replies.old.items) × (self.new ≡ self.old)) }
        ensures shorter { OnOk result (vec_len events.new < vec_len events.old) }
        ensures random { All HasRandom events.new.items }
        ensures doubt { K.terms.doubt self.old.store.keep ≤ K.terms.doubt self.new.store.keep }
        ensures accounts { (before : ℕ) → AccountsFor before (K.terms.failures self.old.store.keep) (map (λ r. r.1) replies.old.items)
            → AccountsFor before (K.terms.failures self.new.store.keep) (map (λ r. r.1) replies.new.items) }
        ensures ids { HasIds K.terms self.old out.old.items (length events.old.items)
            → OnOk result ((blames (map (λ r. r.1) replies.new.items) ≡ blames (map (λ r. r.1) replies.old.items))
            × HasIds K.terms self.new out.new.items (length events.new.items)) }
    {
        replies.reserve(1)?;
        out.reserve(1)?;
        let Some(event) = events.pop() else {
            unreachable!()
        };
        if let Some(reply) = self.event(alloc, event, out) {
            replies.push_reserved(reply);
        }
        Ok(())
    }

    /// Takes the events in turn, as long as there is memory for the replies and jobs. `out` has the job of each pending call, once,
    /// and nothing else.
    pub fn run(&mut self, alloc: Global, mut events: Vec<Event>, mut out: Vec<(u64, Job)>) -> Ran
        requires random { All HasRandom events.items }
        requires jobs { (w : World) → Shows K.terms self.old w → HasJobs w out.items }
        ensures run { K.terms.doubt self.new.store.keep ≡ 0 → (w : World) → Shows K.terms self.old w
            → IsRun (Shows K.terms self.new) (MayLeave K.terms self.old)
            (MayLeave K.terms self.new) w events.items result.replies.items result.left.items result.out.items }
        // No fault of the disk is forgotten.
        ensures doubt { K.terms.doubt self.old.store.keep ≤ K.terms.doubt self.new.store.keep }
        // For each CKR_DEVICE_ERROR a failure of the keeper was counted.
        ensures accounts { AccountsFor (K.terms.failures self.old.store.keep) (K.terms.failures self.new.store.keep) (map (λ r. r.1) result.replies.items) }
        // None is returned over a steady keeper that has an id for each event.
        ensures ids { HasIds K.terms self.old out.items (length events.items) → (blames (map (λ r. r.1) result.replies.items) ≡ 0)
            × HasIds K.terms self.new result.out.items (length result.left.items) }
    {
        let mut replies = Vec::new(alloc);
        events.reverse();
        'events: while !events.is_empty() {
            match self.advance(alloc, &mut events, &mut out, &mut replies) {
                Ok(()) => {}
                Err(_) => break,
            }
        }
        events.reverse();
        Ran {
            replies,
            out,
            left: events,
        }
    }
}

/// What an application gets: what is returned, or the code of the fault.
fn or_fault_code<T: Returned>(outcome: Result<T, Fault>) -> T
    ensures { result ≡ or_fault_code T.of_reply outcome }
{
    match outcome {
        Ok(value) => value,
        Err(Fault::Memory) => T::of_reply(Reply::Code(Rv::HostMemory)),
        Err(Fault::Device) => T::of_reply(Reply::Code(Rv::DeviceError)),
    }
}

/// One call, at the desk of its application. Memory for a check is allocated before it is charged.
fn serve_app<K: Keep>(
    alloc: Global,
    app: u64,
    desks: &mut BTreeMap<u64, Desk>,
    store: &mut Store<K>,
    checks: &mut Vec<Check>,
    call: Call,
    random: &[u8],
) -> Result<Out, Fault>
    requires { length random.now ≡ random_bytes call }
    ensures serves { Served K.terms said_of
        (λ v. answer v call random.now (reveal_by_call call (are_others_in_session desks.old.entries app))) store.old store.new
        (desk_at desks.old.entries app) (desk_at desks.old.entries app) result (desk_at desks.new.entries app) }
    ensures others { (b : ℕ) → b ≢ app → SameDesk (desk_at desks.old.entries b) (desk_at desks.new.entries b) }
    ensures checks { checks.new.items ≡ checks_after app result checks.old.items }
    ensures asker { IfOk result (IsFor app) }
    ensures counts { Counted K.terms store.old.keep store.new.keep 0 1 }
    ensures cause { IsErrOf result Device → Rises (K.terms.failures store.old.keep) (K.terms.failures store.new.keep) }
    ensures steady { FailsForIds K.terms Device
        (λ c v. answer v call random.now (reveal_by_call call (are_others_in_session desks.old.entries app))) store.old (desk_at desks.old.entries app) result }
    ensures plain { IfOk result (λ out. resource_error_in (said_of out) ≡ None) }
    ensures stays { IfErr result (λ fault. SameDesk (desk_at desks.old.entries app) (desk_at desks.new.entries app)) }
    ensures refused { DeskStands (λ v. answer v call random.now (reveal_by_call call (are_others_in_session desks.old.entries app)))
        (desk_at desks.old.entries app) result (desk_at desks.new.entries app) }
    ensures small { takes_no_memory call ≡ true → RepliesAtOnce Fault.Memory result }
    ensures short { IsShortCall call → IfOk result (λ out. IsShortSaid (said_of out)) }
{
    reserve_check(checks, &call)?;
    let others_have_sessions = is_in_use_for(desks, app, &call);
    let outcome = serve_at_desk(alloc, app, desks, store, call, random, others_have_sessions);
    if let Ok(out) = &outcome {
        note_check(checks, app, out);
    }
    outcome
}

/// Reserves memory for a check that the call may begin.
fn reserve_check(checks: &mut Vec<Check>, call: &Call) -> Result<(), AllocError>
    ensures same { checks.new.items ≡ checks.old.items }
    ensures room { OnOk result ((takes_no_memory call.now ≡ true) ⊎ (vec_len checks.new < vec_capacity checks.new)) }
    ensures small { takes_no_memory call.now ≡ true → IfErr result (λ error. ⊥) }
{
    if takes_no_memory(call) {
        return Ok(());
    }
    checks.reserve(1)
}

/// One call, where it is known whether another application has a session.
fn serve_at_desk<K: Keep>(
    alloc: Global,
    app: u64,
    desks: &mut BTreeMap<u64, Desk>,
    store: &mut Store<K>,
    call: Call,
    random: &[u8],
    others_have_sessions: bool,
) -> Result<Out, Fault>
    requires { length random.now ≡ random_bytes call }
    ensures serves { Served K.terms said_of (λ v. answer v call random.now (reveal_by_call call others_have_sessions)) store.old store.new
        (desk_at desks.old.entries app) (desk_at desks.old.entries app) result (desk_at desks.new.entries app) }
    ensures others { (b : ℕ) → b ≢ app → SameDesk (desk_at desks.old.entries b) (desk_at desks.new.entries b) }
    ensures asker { IfOk result (IsFor app) }
    ensures counts { Counted K.terms store.old.keep store.new.keep 0 1 }
    ensures cause { IsErrOf result Device → Rises (K.terms.failures store.old.keep) (K.terms.failures store.new.keep) }
    ensures steady { FailsForIds K.terms Device (λ c v. answer v call random.now (reveal_by_call call others_have_sessions)) store.old
        (desk_at desks.old.entries app) result }
    ensures plain { IfOk result (λ out. resource_error_in (said_of out) ≡ None) }
    ensures stays { IfErr result (λ fault. SameDesk (desk_at desks.old.entries app) (desk_at desks.new.entries app)) }
    ensures refused { DeskStands (λ v. answer v call random.now (reveal_by_call call others_have_sessions))
        (desk_at desks.old.entries app) result (desk_at desks.new.entries app) }
    ensures small { takes_no_memory call ≡ true → RepliesAtOnce Fault.Memory result }
    ensures short { IsShortCall call → IfOk result (λ out. IsShortSaid (said_of out)) }
{
    if !desks.contains_key(&app) && takes_no_memory(&call) {
        return serve_unseated(alloc, app, store, call, random, others_have_sessions);
    }
    add_desk(alloc, desks, app)?;
    match desks.get_mut(&app) {
        Some(desk) => serve(alloc, app, desk, store, call, random, others_have_sessions),
        None => unreachable!(),
    }
}

/// One call that takes no memory, of an application that has no desk. It is given none, since such a call leaves an empty desk as it is.
fn serve_unseated<K: Keep>(
    alloc: Global,
    app: u64,
    store: &mut Store<K>,
    call: Call,
    random: &[u8],
    others_have_sessions: bool,
) -> Result<Out, Fault>
    requires random { length random.now ≡ random_bytes call }
    requires small { takes_no_memory call ≡ true }
    ensures served { IsServedIf (IsShortCall call) K.terms (IsFor app)
        (λ v. answer v call random.now (reveal_by_call call others_have_sessions)) store.old store.new empty_desk result empty_desk }
    ensures small { RepliesAtOnce Fault.Memory result }
{
    let mut desk = Desk::new(alloc);
    serve(
        alloc,
        app,
        &mut desk,
        store,
        call,
        random,
        others_have_sessions,
    )
}

/// Whether another application has a session, where the call depends on it.
fn is_in_use_for(desks: &BTreeMap<u64, Desk>, app: u64, call: &Call) -> bool
    ensures { reveal_by_call call.now result ≡ reveal_by_call call.now (are_others_in_session desks.now.entries app) }
{
    is_init_token(Function::of(call)) && are_others_in_session(desks, app)
}

fn is_init_token(function: Function) -> bool
    ensures { result ≡ is_init_token function }
{
    matches!(function, Function::InitToken)
}

/// Whether another application has a session.
fn are_others_in_session(desks: &BTreeMap<u64, Desk>, app: u64) -> bool
    ensures { result ≡ are_others_in_session desks.now.entries app }
{
    desks.keys().any(|b| *b != app && has_session_at(desks, *b))
}

fn has_session_at(desks: &BTreeMap<u64, Desk>, app: u64) -> bool
    ensures { result ≡ has_session_at desks.now.entries app }
{
    match desks.get(&app) {
        Some(desk) => desk.has_session(),
        None => false,
    }
}

/// A check that a call has begun is in progress.
fn note_check(checks: &mut Vec<Check>, app: u64, out: &Out)
    requires { IsReply out.now ⊎ (vec_len checks.old < vec_capacity checks.old) }
    ensures { checks.new.items ≡ checks.old.items ++ checks_of app (pin_checked_in (said_of out.now)) }
{
    if let Some(user) = pin_checked(out) {
        checks.push_reserved(Check { user, app });
    }
}

/// The PIN that a pending call checks.
fn pin_checked(out: &Out) -> Option<UserType>
    ensures { result ≡ pin_checked_in (said_of out.now) }
{
    let Out::Ask(job) = out else {
        return None;
    };
    match job.work() {
        Work::CheckPin { who, .. } | Work::ChangePin { who, .. } => Some(*who),
        Work::ResetToken { .. } => Some(UserType::So),
        Work::Cipher { .. }
        | Work::Take { .. }
        | Work::Sign { .. }
        | Work::Verify { .. }
        | Work::Wrap { .. }
        | Work::Unwrap { .. }
        | Work::MakePin { .. }
        | Work::InitToken { .. } => None,
    }
}

/// Adds a desk for the application where it has none.
fn add_desk(alloc: Global, desks: &mut BTreeMap<u64, Desk>, app: u64) -> Result<(), Fault>
    ensures same { (b : ℕ) → SameDesk (desk_at desks.old.entries b) (desk_at desks.new.entries b) }
    ensures there { OnOk result (IsSome (get nat_cmp desks.new app)) }
    ensures small { IsSome (get nat_cmp desks.old app) → IfErr result (λ fault. ⊥) }
    ensures cause { IfErr result (λ fault. fault ≡ Fault.Memory) }
{
    if !desks.contains_key(&app) {
        desks
            .insert(app, Desk::new(alloc))
            .map_err(AllocError::from)?;
    }
    Ok(())
}

/// Whether a job that was run is of this pending call.
fn is_of(done: &Done, app: u64, question: &Question) -> bool
    ensures { result ≡ is_answer (Some question.now) app done.now.job.value }
{
    done.app() == app
        && done.question() == question.number()
        && done.function() == question.function()
}

/// Whether a job that was run is of the application's pending call.
fn is_pending_job(desks: &BTreeMap<u64, Desk>, app: u64, done: &Done) -> bool
    ensures { result ≡ is_answer (desk_at desks.now.entries app).question app done.now.job.value }
{
    match desks.get(&app) {
        Some(desk) => match desk.question() {
            Some(question) => is_of(done, app, question),
            None => false,
        },
        None => false,
    }
}

/// The result of the application's pending call.
fn finish_app<K: Keep>(
    desks: &mut BTreeMap<u64, Desk>,
    store: &mut Store<K>,
    checks: &[Check],
    app: u64,
    done: Done,
) -> Result<Reply, Fault>
    ensures finishes { Finishes K.terms done.job.value
        (reveal_by_job done.job.value (others_checking checks.now app) (are_others_in_session desks.old.entries app)) store.old store.new
        (desk_at desks.old.entries app) result (desk_at desks.new.entries app) }
    ensures others { (b : ℕ) → b ≢ app → desk_at desks.new.entries b ≡ desk_at desks.old.entries b }
{
    let others = others_for(desks, checks, app, &done);
    match desks.get_mut(&app) {
        Some(desk) => finish_at(desk, store, done, &others),
        None => Ok(Reply::Code(Rv::FunctionFailed)),
    }
}

/// What the other applications have in progress, where the answer to a result may depend on it: that of work on a PIN.
fn others_for(desks: &BTreeMap<u64, Desk>, checks: &[Check], app: u64, done: &Done) -> Others
    ensures { reveal_by_job done.now.job.value (under_way_of result) result.others_have_sessions
        ≡ reveal_by_job done.now.job.value (others_checking checks.now app) (are_others_in_session desks.now.entries app) }
{
    if !done.was_on_pin() {
        return Others {
            so_checks: 0,
            user_checks: 0,
            others_have_sessions: false,
        };
    }
    Others {
        so_checks: others_checking(checks, app, UserType::So),
        user_checks: others_checking(checks, app, UserType::User),
        others_have_sessions: are_others_in_session(desks, app),
    }
}

/// How many other applications check a PIN.
fn others_checking(checks: &[Check], app: u64, who: UserType) -> usize
    ensures { result ≡ others_checking checks.now app who }
{
    count_others(checks, app, who)
}

fn count_others(checks: &[Check], app: u64, who: UserType) -> usize
    ensures { result ≡ count_by (λ c. is_same_user who c.user && not (c.app == app)) checks.now }
{
    checks
        .iter()
        .filter(|check| is_other_check(check, app, who))
        .count()
}

fn is_other_check(check: &Check, app: u64, who: UserType) -> bool
    ensures { result ≡ (is_same_user who check.now.user && not (check.now.app == app)) }
{
    let same = match (who, check.user) {
        (UserType::So, UserType::So) | (UserType::User, UserType::User) => true,
        (UserType::So, UserType::User) | (UserType::User, UserType::So) => false,
    };
    same && check.app != app
}

/// The application has no desk any more.
fn drop_desk(desks: &mut BTreeMap<u64, Desk>, app: u64)
    ensures own { desk_at desks.new.entries app ≡ empty_desk }
    ensures others { (b : ℕ) → b ≢ app → desk_at desks.new.entries b ≡ desk_at desks.old.entries b }
{
    let _ = desks.remove(&app);
}

/// The checks of the application end.
fn retain_others(checks: &mut Vec<Check>, app: u64)
    ensures { checks.new.items ≡ without_checks app checks.old.items }
{
    checks.retain(|check| check.app != app);
}

/// Takes the application's job out of the list, if there is one.
fn take_job(out: &mut Vec<(u64, Job)>, app: u64) -> Option<Job>
    ensures { TakesJob app out.old.items result out.new.items }
{
    let place = index_of_job(out, app)?;
    Some(out.remove(place).1)
}

/// The index of the application's job.
fn index_of_job(out: &[(u64, Job)], app: u64) -> Option<usize>
    ensures { result ≡ position (λ j. app == j.0) out.now }
{
    out.iter().position(|job| app == job.0)
}
