//! Tests of the token's parts: objects and templates, PINs, sessions, handles, keepers, the order of codes, and messages.
#![tactic(auto)]

#[cfg(test)]
mod tests;
