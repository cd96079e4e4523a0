//! What a seat puts before the token.

use ck_calls::AppCall;
use mech::Done;

/// What a seat puts before the token.
#[derive(Drop)]
pub enum Event {
    /// A call of an application.
    Call(AppCall),
    /// The result of the job that was the answer to a call of the application.
    Finish { app: u64, done: Done },
    /// A disconnect of an application. It is not answered.
    Gone { app: u64 },
}
