//! What came of a list of events.

use ck_calls::Reply;
use mech::Job;
use model_worlds::Event;

/// What came of a list of events.
#[derive(Drop)]
pub struct Ran {
    /// The replies, each with its application.
    pub replies: Vec<(u64, Reply)>,
    /// The pending jobs.
    pub out: Vec<(u64, Job)>,
    /// The events that were not taken. There are some only where an allocation failed.
    pub left: Vec<Event>,
}
