//! What passed through a stream.

ghost use Rattle.std.specs.Prelude.{◌≡◌, ◌+◌, ◌*◌, ◌≤◌, ◌++◌, [], length, drop};

use crate::kept::Kept;
use lists::GhostBytes;

/// All data that a stream took and its output so far, of which contracts alone speak, and the
/// bytes that are buffered.
#[derive(Drop)]
pub(crate) struct Passed {
    pub(crate) kept: Kept,
    pub(crate) taken: GhostBytes,
    pub(crate) given: GhostBytes,
}

impl Passed {
    /// Nothing yet.
    pub(crate) fn new() -> Passed
        ensures kept { result.kept ≡ [] }
        ensures taken { result.taken.bytes ≡ [] }
        ensures given { result.given.bytes ≡ [] }
    {
        Passed {
            kept: Kept::new(),
            taken: GhostBytes::new(),
            given: GhostBytes::new(),
        }
    }

    /// The same once more.
    pub(crate) fn copied(&self) -> Passed
        ensures kept { result.kept ≡ self.now.kept }
        ensures taken { result.taken.bytes ≡ self.now.taken.bytes }
        ensures given { result.given.bytes ≡ self.now.given.bytes }
    {
        Passed {
            kept: self.kept.copied(),
            taken: self.taken.copied(),
            given: self.given.copied(),
        }
    }

    /// Adds a part and its output to them, and buffers what the buffered bytes and the part have
    /// behind their first `blocks` blocks.
    pub(crate) fn advance(&mut self, piece: &[u8], blocks: usize, given: &[u8])
        requires within { 16 * blocks ≤ length self.old.kept + length piece.now }
        requires rest { length self.old.kept + length piece.now ≤ 16 * blocks + 16 }
        ensures kept { self.new.kept ≡ drop (16 * blocks) (self.old.kept ++ piece.now) }
        ensures taken { self.new.taken.bytes ≡ self.old.taken.bytes ++ piece.now }
        ensures given { self.new.given.bytes ≡ self.old.given.bytes ++ given.now }
    {
        self.kept = self.kept.behind(piece, blocks);
        self.taken.push(piece);
        self.given.push(given);
    }
}
