//! Tests of the store: what it keeps over a reopening, what is damaged, and what a crash leaves.
#![tactic(auto)]

#[cfg(test)]
mod tests;
