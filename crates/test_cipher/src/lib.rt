//! Tests of the ciphers, modes and codes against the examples of their standards and of other programs.
#![tactic(auto)]

#[cfg(test)]
mod tests;
