//! Numbers in the environment, as a service manager sets them.

use std::env;

/// A number in an environment variable.
pub(crate) fn number_in(rt: &HostRuntime, name: &str) -> Option<u64> {
    match env::var(rt, name) {
        Ok(text) => text.parse::<u64>().ok(),
        Err(_) => None,
    }
}

/// Whether a variable names this process, or isn't set.
pub(crate) fn is_ours(rt: &HostRuntime, name: &str) -> bool {
    env::var(rt, name).is_err() || names_us(rt, name)
}

/// Whether a variable names this process.
pub(crate) fn names_us(rt: &HostRuntime, name: &str) -> bool {
    number_in(rt, name) == u64::try_from(libc::getpid()).ok()
}
