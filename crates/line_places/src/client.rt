//! A connection with its reader and its writer.

ghost use Rattle.std.specs.Prelude.{◌≡◌};
ghost use Rattle.line_places.specs.Standing.{Stands};

use ck_calls::{AppCall, Reply};
use line::{Connection, Words};
use lists::GhostList;
use std::snapshot::Snapshot;
use watched::Watched;

/// A connection of an application, with its reader and its writer. What it gave and took is for contracts alone.
#[derive(Drop)]
pub struct Client<R, W> {
    pub reader: Watched<R>,
    pub writer: Watched<W>,
    pub connection: Connection,
    pub app: u64,
    /// The last call that it gave is owed its reply.
    pub is_owed: bool,
    /// The words of the application, from the first.
    pub first: Snapshot<Words>,
    pub asked: GhostList<AppCall>,
    pub told: GhostList<Reply>,
    pub ghost named: { connection.words.stream ≡ app },
    pub ghost stands: { ∥ Stands first.value connection is_owed asked.items told.items ∥₁ },
}
