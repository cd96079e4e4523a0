//! Whether a log is what a first opening writes.

ghost use Rattle.std.specs.Prelude.{◌≡◌, ◌↔◌, IsTrue};
ghost use Rattle.sqlite_wal.specs.Recovery.{IsBegun};
ghost use Rattle.sql_log.specs.Damage.{IsUnwritten};

use crate::format::{HEADER_LEN, is_signed, number_at};

/// The page size of a new file.
const PAGE_SIZE: u32 = 4096;

/// The version of the format.
const VERSION: u32 = 3_007_000;

/// The count of checkpoints in the header that a first opening writes, and no checkpoint.
const BEGUN: u32 = 0xffff_ffff;

/// The header of an empty log, and the first frame up to its salt's first byte.
const EMPTY_LEN: usize = 41;

/// Whether the log has the header of a first opening, which stands from there to the first checkpoint.
pub fn is_begun(log: &[u8]) -> bool
    ensures { IsTrue result ↔ IsBegun 4096 log.now }
{
    if log.len() < HEADER_LEN {
        return false;
    }
    let head = &log[..HEADER_LEN];
    if !is_signed(head) {
        return false;
    }
    let version = number_at(head, 4);
    let size = number_at(head, 8);
    let round = number_at(head, 12);
    (version == VERSION) & (size == PAGE_SIZE) & (round == BEGUN)
}

/// Whether the log has no header yet, whole or not: at most 41 bytes, which a first opening may have been cut off in.
pub fn is_unwritten(log: &[u8]) -> bool
    ensures { IsTrue result ↔ IsUnwritten log.now }
{
    if log.len() > EMPTY_LEN {
        return false;
    }
    if log.len() < HEADER_LEN {
        return true;
    }
    !is_signed(&log[..HEADER_LEN])
}
