//! Tests of a daemon's connections, whose clients `test_daemons` has:
//! - `tests/peers.rt` has the seats of a socket before peers that break off;
//! - `tests/many.rt`, `full.rt`, `neighbours.rt`, `unread.rt`, `lost.rt` and `idle.rt` have many connections at once;
//! - `tests/largest.rt` has a call and a reply that are as long as a frame may be;
//! - `tests/randomness.rt` has the random bytes of each connection.
#![tactic(auto)]

#[cfg(test)]
mod tests;
