//! A place for one client after the other.

use crate::client::Client;

/// A place, with its client if it has one.
#[derive(Drop)]
pub struct Place<R, W> {
    /// How many clients it had before.
    pub turn: u64,
    pub client: Option<Client<R, W>>,
}
