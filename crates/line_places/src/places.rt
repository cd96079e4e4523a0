//! The clients of one worker.

ghost use Rattle.std.specs.Prelude.{◌<◌, ◌≤◌, length};
ghost use Rattle.line_places.specs.declared.places.TheConstants.{MAX_CLIENTS};
ghost use Rattle.line_places.specs.Keeping.{PlacesKeep};

use crate::client::Client;
use crate::place::Place;
use ck_calls::{AppCall, Reply};
use lists::GhostList;

/// How many clients a worker has at once, at most.
pub const MAX_CLIENTS: usize = 64;

/// The clients of one worker, at most one at each of its places, and for contracts alone all that it ever had, with what they
/// gave and took, in the order in which they did.
#[derive(Drop)]
pub struct Places<R, W> {
    /// The seed of all applications' random bytes.
    pub seed: [u8; 32],
    /// The worker's number.
    pub number: u64,
    pub places: Vec<Place<R, W>>,
    /// The clients that are there no more.
    pub past: GhostList<Client<R, W>>,
    pub asked: GhostList<AppCall>,
    pub told: GhostList<(u64, Reply)>,
    pub ghost worker: { number < 4 },
    pub ghost count: { length places.items ≤ MAX_CLIENTS },
    pub ghost kept: { ∥ PlacesKeep seed number places.items past.items asked.items told.items ∥₁ },
}
