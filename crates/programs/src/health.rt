//! How the daemon's store is, for who watches the daemon.

use std::sync::atomic::{AtomicBool, AtomicU64, Ordering};

/// How many objects the store has, and whether its last change failed.
#[derive(Drop)]
pub struct Health {
    objects: AtomicU64,
    has_failed: AtomicBool,
}

impl Health {
    /// Of a store of which nothing is known yet.
    pub fn new() -> Health {
        Health {
            objects: AtomicU64::new(0),
            has_failed: AtomicBool::new(false),
        }
    }

    pub(crate) fn objects(&self) -> u64 {
        self.objects.load(Ordering::SeqCst)
    }

    pub(crate) fn has_failed(&self) -> bool {
        self.has_failed.load(Ordering::SeqCst)
    }

    pub(crate) fn set_objects(&self, count: u64) {
        self.objects.store(count, Ordering::SeqCst);
    }

    /// A change succeeded, after one that failed or not.
    pub(crate) fn succeed(&self, has_failed: bool) {
        if has_failed {
            self.set_failed(false);
        }
    }

    /// An object was made. Only the keeper's thread calls it, and the next one.
    pub(crate) fn add_object(&self) {
        self.set_objects(self.objects().saturating_add(1));
    }

    /// An object was destroyed.
    pub(crate) fn remove_object(&self) {
        self.set_objects(self.objects().saturating_sub(1));
    }

    pub(crate) fn set_failed(&self, has_failed: bool) {
        self.has_failed.store(has_failed, Ordering::SeqCst);
    }
}
