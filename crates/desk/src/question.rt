//! Pending calls.

ghost use Rattle.std.specs.Prelude.{◌≡◌};

use ck_calls::Function;
use mech::Job;
use std::marker::Model;
use std::snapshot::Snapshot;

/// The pending call: the number of its job, its function and its session. The job itself is for contracts alone, and has no
/// bytes at run time.
#[derive(Drop)]
pub struct Question {
    number: u64,
    function: Function,
    session: u64,
    job: Snapshot<Job>,
}

impl Model for Question {
    ghost use Rattle.std.specs.Prelude.{◌≡◌};
    ghost use Rattle.mech.specs.declared.job.Job.{Job};

    ghost Value = { Job };

    ghost view = { λ q. q.job.value };

    ghost invariant = { λ q. (q.number ≡ q.job.value.question) × (q.function ≡ q.job.value.function) × (q.session ≡ q.job.value.session) };
}

impl Question {
    /// The pending call that a job answers.
    pub fn new(job: &Job) -> Question
        ensures { result ≡ job.now }
    {
        Question {
            number: job.question,
            function: job.function,
            session: job.session,
            job: Snapshot::of(job),
        }
    }

    /// The number of its job.
    pub fn number(&self) -> u64
        ensures { result ≡ self.now.question }
    {
        self.number
    }

    /// Its function.
    pub fn function(&self) -> Function
        ensures { result ≡ self.now.function }
    {
        self.function
    }

    /// Its session.
    pub fn session(&self) -> u64
        ensures { result ≡ self.now.session }
    {
        self.session
    }
}
