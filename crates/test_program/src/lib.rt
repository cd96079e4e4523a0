//! Tests of `programs` and `commands`:
//! - `tests.rt` has command lines over strings of bytes, and `tests/statuses.rt` how they end;
//! - `tests/daemon.rt` has a daemon in a thread and clients of its socket;
//! - `tests/operating.rt` and `tests/options.rt` have what an operator asks for.
#![tactic(auto)]

#[cfg(test)]
mod tests;
