//! A job that was run.

ghost use Rattle.std.specs.Prelude.{◌≡◌, ◌≢◌, IfErr, IfOk, IsTrue};
ghost use Rattle.mech.specs.declared.outcome.Outcome.{Outcome as OutcomeType};
ghost use Rattle.mech.specs.declared.work.Work.{Work as WorkType};
ghost use Rattle.mech.specs.declared.work.Work.TheVariants.{Cipher, CheckPin, ChangePin, ResetToken};
ghost use Rattle.mech.specs.declared.job_cell.JobCell.TheVariants.{Empty as EmptyCell, Outcome as OutcomeCell, Work as WorkCell};
ghost use Rattle.mech.specs.Endings.{ended_as};
ghost use Rattle.mech.specs.Rooms.{HasRoom};
ghost use Rattle.mech.specs.Runnable.{is_runnable};
ghost use Rattle.mech.specs.Works.{is_pin_work, outcome_of};

use crate::job::Job;
use crate::job_cell::JobCell;
use crate::key_wrapping::{key_unwrapped, wrapped};
use crate::message_tags::{signed, taken, verified};
use crate::outcome::Outcome;
use crate::work::Work;
use aes_modes::ModeFault;
use ck_calls::Function;
use ck_types::{Bytes, Label, UserType};
use pin_record::Verifier;
use std::alloc::Global;
use std::mem;
use std::snapshot::Snapshot;
use streams::{Part, Stream};

/// A job that was run, with what came of it in its cell. The job itself is for contracts alone, and takes no bytes.
#[derive(Drop)]
pub struct Done {
    app: u64,
    question: u64,
    function: Function,
    cell: Box<JobCell>,
    job: Snapshot<Job>,
    ghost app_is: { app ≡ job.value.app },
    ghost question_is: { question ≡ job.value.question },
    ghost function_is: { function ≡ job.value.function },
    ghost full: { cell.value ≢ EmptyCell },
    ghost value: { (o : OutcomeType) → cell.value ≡ OutcomeCell o → o ≡ outcome_of job.value.work.value },
    ghost room: { (o : OutcomeType) → cell.value ≡ OutcomeCell o → HasRoom job.value.work.value o },
    ghost back: { (given : WorkType) → cell.value ≡ WorkCell given → given ≡ job.value.work.value },
}

impl Done {
    /// The application whose job it was.
    pub fn app(&self) -> u64
        ensures { result ≡ self.now.job.value.app }
    {
        self.app
    }

    /// The number of the pending call.
    pub fn question(&self) -> u64
        ensures { result ≡ self.now.job.value.question }
    {
        self.question
    }

    /// The function of the call.
    pub fn function(&self) -> Function
        ensures { result ≡ self.now.job.value.function }
    {
        self.function
    }

    /// Whether the work was on a PIN (C_InitToken, C_InitPIN, C_SetPIN and C_Login, PKCS #11 v3.1, 5.5 and 5.6).
    pub fn was_on_pin(&self) -> bool
        ensures { result ≡ is_pin_work self.now.job.value.work.value }
    {
        match &*self.cell {
            JobCell::Outcome(outcome) => outcome.is_of_pin(),
            JobCell::Work(work) => work.is_on_pin(),
            JobCell::Empty => unreachable!(),
        }
    }

    /// What the work returned, or because an allocation failed the work as it was.
    pub fn into_outcome(self) -> Result<Outcome, Work>
        ensures value { IfOk result (λ o. o ≡ outcome_of self.job.value.work.value) }
        // It is no longer than its work's may be.
        ensures room { IfOk result (λ o. HasRoom self.job.value.work.value o) }
        ensures back { IfErr result (λ work. work ≡ self.job.value.work.value) }
    {
        let Done { mut cell, .. } = self;
        match mem::replace(&mut *cell, JobCell::Empty) {
            JobCell::Outcome(outcome) => Ok(outcome),
            JobCell::Work(work) => Err(work),
            JobCell::Empty => unreachable!(),
        }
    }
}

/// Does a cipher's work, or returns the work if an allocation fails.
fn ciphered(alloc: Global, stream: Stream, part: Part, input: Bytes) -> Result<Outcome, Work>
    requires { IsTrue (is_runnable (Cipher stream part input)) }
    ensures value { IfOk result (λ o. o ≡ outcome_of (Cipher stream part input)) }
    ensures room { IfOk result (λ o. HasRoom (Cipher stream part input) o) }
    ensures back { IfErr result (λ back. back ≡ Cipher stream part input) }
{
    stream.is_right();
    match part {
        Part::Update => {
            let mut further = stream.copied();
            match further.update(alloc, input.as_slice()) {
                Ok(output) => Ok(Outcome::Piece {
                    output: Bytes::from_vec(output),
                    stream: further,
                }),
                Err(_) => Err(Work::Cipher {
                    stream,
                    part,
                    input,
                }),
            }
        }
        Part::Last => match stream.last(alloc, input.as_slice()) {
            Ok(output) => {
                let output = Bytes::from_vec(output);
                Ok(Outcome::Rest {
                    direction: stream.direction(),
                    output,
                })
            }
            Err(ModeFault::BadPad) => Ok(Outcome::BadPadding(stream.direction())),
            Err(_) => Err(Work::Cipher {
                stream,
                part,
                input,
            }),
        },
    }
}

/// Checks a PIN against the verifier. No memory is taken.
fn pin_checked(who: UserType, verifier: &Verifier, pin: &[u8]) -> Outcome
    ensures { result ≡ outcome_of (CheckPin who verifier.now pin.now) }
{
    if verifier.accepts(pin) {
        Outcome::RightPin(who)
    } else {
        Outcome::WrongPin
    }
}

/// Checks a PIN against the verifier, and makes the new one's where it is right. No memory is taken.
fn pin_changed(
    who: UserType,
    verifier: &Verifier,
    pin: &[u8],
    new_pin: &[u8],
    salt: [u8; 16],
) -> Outcome
    ensures { result ≡ outcome_of (ChangePin who verifier.now pin.now new_pin.now salt) }
{
    if verifier.accepts(pin) {
        Outcome::PinChanged {
            who,
            verifier: Verifier::made(new_pin, salt),
        }
    } else {
        Outcome::WrongPin
    }
}

/// Checks the SO's PIN against the verifier, for a token that is to have this label. No memory is taken.
fn token_reset(label: Label, verifier: &Verifier, pin: &[u8]) -> Outcome
    ensures { result ≡ outcome_of (ResetToken label verifier.now pin.now) }
{
    if verifier.accepts(pin) {
        Outcome::TokenReset { label }
    } else {
        Outcome::WrongPin
    }
}

/// Does any work, or returns it if an allocation fails. The work of PINs allocates nothing.
#[inline(never)]
fn run_other(alloc: Global, work: Work) -> Result<Outcome, Work>
    requires { IsTrue (is_runnable work) }
    ensures value { IfOk result (λ o. o ≡ outcome_of work) }
    ensures room { IfOk result (λ o. HasRoom work o) }
    ensures back { IfErr result (λ back. back ≡ work) }
{
    match work {
        Work::Cipher {
            stream,
            part,
            input,
        } => ciphered(alloc, stream, part, input),
        Work::Take { place, mac, input } => Ok(taken(place, mac, input.as_slice())),
        Work::Sign { mac, input } => signed(alloc, mac, input),
        Work::Verify {
            mac,
            input,
            signature,
        } => Ok(verified(mac, input.as_slice(), signature.as_slice())),
        Work::Wrap { key, value } => wrapped(alloc, key, value),
        Work::Unwrap {
            key,
            wrapped,
            state,
            template,
            random,
        } => key_unwrapped(alloc, key, wrapped, state, template, random),
        Work::CheckPin { who, verifier, pin } => Ok(pin_checked(who, &verifier, pin.as_slice())),
        Work::MakePin { pin, salt } => Ok(Outcome::PinMade(Verifier::made(pin.as_slice(), salt))),
        Work::ChangePin {
            who,
            verifier,
            pin,
            new_pin,
            salt,
        } => Ok(pin_changed(who, &verifier, pin.as_slice(), new_pin.as_slice(), salt)),
        Work::InitToken { label, pin, salt } => Ok(Outcome::TokenMade {
            label,
            verifier: Verifier::made(pin.as_slice(), salt),
        }),
        Work::ResetToken {
            label,
            verifier,
            pin,
        } => Ok(token_reset(label, &verifier, pin.as_slice())),
    }
}

/// Does the work, or returns the work if an allocation fails. A cipher's goes by itself, since a function clears what it has for each
/// of its arms.
fn work_done(alloc: Global, work: Work) -> Result<Outcome, Work>
    requires { IsTrue (is_runnable work) }
    ensures value { IfOk result (λ o. o ≡ outcome_of work) }
    ensures room { IfOk result (λ o. HasRoom work o) }
    ensures back { IfErr result (λ back. back ≡ work) }
{
    match work {
        Work::Cipher {
            stream,
            part,
            input,
        } => ciphered(alloc, stream, part, input),
        other => run_other(alloc, other),
    }
}

/// The work is taken out of a cell.
fn taken_out(cell: &mut JobCell, work: Snapshot<Work>) -> Work
    requires { cell.old ≡ WorkCell work.value }
    ensures { result ≡ work.value }
{
    match mem::replace(cell, JobCell::Empty) {
        JobCell::Work(work) => work,
        JobCell::Outcome(_) | JobCell::Empty => unreachable!(),
    }
}

/// What came of work is put into a cell.
fn put(cell: &mut JobCell, outcome: Result<Outcome, Work>)
    ensures { cell.new ≡ ended_as outcome }
{
    let ended = match outcome {
        Ok(outcome) => JobCell::Outcome(outcome),
        Err(work) => JobCell::Work(work),
    };
    drop(mem::replace(cell, ended));
}

impl Job {
    /// Does the work. It waits for nobody, and fails only if an allocation fails.
    pub fn run(self, alloc: Global) -> Done
        ensures { result.job.value ≡ self }
    {
        let job = Snapshot::of(&self);
        let Job {
            app,
            question,
            function,
            work,
            mut cell,
            ..
        } = self;
        let work = taken_out(&mut *cell, work);
        put(&mut *cell, work_done(alloc, work));
        Done {
            app,
            question,
            function,
            cell,
            job,
        }
    }
}
