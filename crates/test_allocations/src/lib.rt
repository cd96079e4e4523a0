//! An allocation that fails, wherever it does: scripts over a list that meet one, and go on.
//!
//! `rt try --test --fail-alloc N` has the N-th allocation of each test fail. Where it is one of the token's, the test passes. Where it
//! is one of the test's own, the test fails by it (`AllocError`). Without it, as in CI, none fails, and the scripts go as they are
//! written. `bin/fail_each_allocation` tries all.
#![tactic(auto)]

#[cfg(test)]
mod ciphers;
#[cfg(test)]
mod events;
#[cfg(test)]
mod pins;
#[cfg(test)]
mod talk;
