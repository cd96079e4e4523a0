//! The cell of a job.

use crate::outcome::Outcome;
use crate::work::Work;

/// The cell of a job: it has the work, and then what that returns.
#[derive(Drop)]
pub enum JobCell {
    /// What is to be done.
    Work(Work),
    /// What was done.
    Outcome(Outcome),
    /// Nothing, while the work is done.
    Empty,
}
