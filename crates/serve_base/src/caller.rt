//! Who calls.

use std::alloc::Global;

/// The application whose call is served, and where memory for it comes from.
#[derive(Clone, Copy, Debug)]
pub struct Caller {
    pub alloc: Global,
    pub app: u64,
}
