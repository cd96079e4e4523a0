//! Tests of the hall, a worker pool. Four seats in threads of their own play rows before one token (`tests/seats.rt`). Other
//! tests have jobs that are done beside one another, and threads that are not started. The rows of all chapters go over a list, and over
//! one behind a cache.
#![tactic(auto)]

#[cfg(test)]
mod tests;
