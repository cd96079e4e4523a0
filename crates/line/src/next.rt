//! What comes of a connection.

use crate::ending::Ending;
use ck_calls::AppCall;

/// What comes next of a connection.
#[derive(Drop)]
pub enum Next {
    /// A call, to which a reply is owed.
    Call(AppCall),
    /// A read would block, or a write.
    Nothing,
    /// The connection ended, now or before.
    Ended(Ending),
}
