//! Session objects.

use attrs::Object;

/// A session object, with its handle and the session that made it.
#[derive(Drop)]
pub struct OwnObject {
    pub handle: u64,
    pub session: u64,
    pub object: Object,
}
