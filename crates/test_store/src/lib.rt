//! Tests of the token over its stores. What applications get is the same over each keeper (storage backend): `tests/keepers.rt`
//! has a line for each. Each test runs over all of them, as one list of events that a new token takes, or through a line.
//!
//! `tests/crashes.rt` has a token over a store whose machine stops at each call of either of its files. What is found when the
//! store is opened again has every change that was acknowledged, and perhaps the next one, whole.
#![tactic(auto)]

#[cfg(test)]
mod tests;
