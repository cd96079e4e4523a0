//! A log's round: how often it was begun anew.

ghost use Rattle.std.specs.Prelude.{◌≡◌, ◌≤◌, ◌+◌, ◌-◌, ◌%◌, ◌^◌, length, IfSome, IsNone};
ghost use Rattle.sqlite_wal.specs.Format.{IsSigned, be32};
ghost use Rattle.sqlite_wal.specs.Recovery.{header};

use crate::format::{HEADER_LEN, is_signed, number_at};

/// Where the header has the count of checkpoints.
const ROUND_AT: usize = 12;

/// The count that a first opening writes. The first checkpoint goes on to 0.
const BEGUN: u32 = 0xffff_ffff;

/// The number of a log's round, or none where it has no header that passes its test. A checkpoint copies the log into the database
/// file, and begins the next round.
pub fn round_of(log: &[u8]) -> Option<u32>
    ensures round { IfSome result (λ round. round ≡ be32 (header log.now) 12) }
    ensures signed { IfSome result (λ round. IsSigned (header log.now)) }
    ensures none { IsNone result → 32 ≤ length log.now → IsSigned (header log.now) → ⊥ }
{
    if log.len() < HEADER_LEN {
        return None;
    }
    let head = &log[..HEADER_LEN];
    if is_signed(head) {
        Some(number_at(head, ROUND_AT))
    } else {
        None
    }
}

/// The number of the round behind one.
pub fn next_round(round: u32) -> u32
    ensures { result ≡ (round + 1) % 2 ^ 32 % (2 ^ 32 - 1) }
{
    round.wrapping_add(1) % BEGUN
}
