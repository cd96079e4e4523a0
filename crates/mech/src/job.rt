//! The work of a pending call.

ghost use Rattle.std.specs.Prelude.{◌≡◌, IfOk, IsTrue};
ghost use Rattle.mech.specs.declared.job_cell.JobCell.TheVariants.{Work as WorkCell};
ghost use Rattle.mech.specs.Runnable.{is_runnable};

use crate::job_cell::JobCell;
use crate::work::Work;
use ck_calls::Function;
use std::alloc::{AllocError, Global};
use std::snapshot::Snapshot;

/// The work of a pending call, and whose call it is: the application, the number of the pending call, and its
/// function and session. The work stands in a cell of its own, so that a job is small; beside it,
/// it is for contracts alone, and takes no bytes.
#[derive(Drop)]
pub struct Job {
    pub app: u64,
    pub question: u64,
    pub function: Function,
    pub session: u64,
    pub work: Snapshot<Work>,
    pub(crate) cell: Box<JobCell>,
    pub ghost has: { cell.value ≡ WorkCell work.value },
    pub ghost runnable: { IsTrue (is_runnable work.value) },
}

impl Job {
    /// The job of this work. It allocates the cell; where that fails there is no job.
    pub fn new(
        alloc: Global,
        app: u64,
        question: u64,
        function: Function,
        session: u64,
        work: Work,
    ) -> Result<Job, AllocError>
        requires { IsTrue (is_runnable work) }
        ensures { IfOk result (λ job. (job.app ≡ app) × (job.question ≡ question) × (job.function ≡ function) × (job.session ≡ session)
            × (job.work.value ≡ work)) }
    {
        let snapshot = Snapshot::of(&work);
        match Box::new(alloc, JobCell::Work(work)) {
            Ok(cell) => Ok(Job {
                app,
                question,
                function,
                session,
                work: snapshot,
                cell,
            }),
            Err(refused) => {
                drop(refused);
                Err(AllocError)
            }
        }
    }

    /// The work.
    pub fn work(&self) -> &Work
        ensures { result.now ≡ self.now.work.value }
    {
        match &*self.cell {
            JobCell::Work(work) => work,
            JobCell::Outcome(_) | JobCell::Empty => unreachable!(),
        }
    }
}
