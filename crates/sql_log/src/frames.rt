//! The frames of a log, one by one.

ghost use Rattle.std.specs.Prelude.{◌≡◌, ◌+◌, ◌*◌, ◌^◌, ◌<◌, ◌≤◌, ◌↔◌, length, IsTrue};
ghost use Rattle.sqlite_wal.specs.Recovery.{frame, frame_at, sum_before};
ghost use Rattle.sqlite_wal.specs.Format.{commit_size};
ghost use Rattle.sql_log.specs.Damage.{PassesUnder, CommitsAt};

use crate::format::{FRAME_HEADER_LEN, HEADER_LEN, Sum, is_frame, number_at, sum_at};

/// Where a frame begins.
fn start_of(size: usize, at: usize) -> usize
    requires number { at < 2 ^ 32 }
    requires size { size ≤ 65536 }
    ensures value { result ≡ frame_at size at }
    ensures small { result < 2 ^ 51 }
{
    HEADER_LEN + at * (FRAME_HEADER_LEN + size)
}

/// The frame, counted from 0.
pub(crate) fn frame_of(log: &[u8], size: usize, at: usize) -> &[u8]
    requires within { frame_at size at + (24 + size) ≤ length log.now }
    requires number { at < 2 ^ 32 }
    requires size { size ≤ 65536 }
    ensures value { result.now ≡ frame size log.now at }
    ensures len { length result.now ≡ 24 + size }
{
    let start = start_of(size, at);
    &log[start..start + (FRAME_HEADER_LEN + size)]
}

/// The checksum that a frame goes on from.
fn sum_ahead_of(log: &[u8], size: usize, at: usize) -> Sum
    requires within { frame_at size at ≤ length log.now }
    requires number { at < 2 ^ 32 }
    requires size { size ≤ 65536 }
    ensures { result ≡ sum_before size log.now at }
{
    if at == 0 {
        sum_at(&log[..HEADER_LEN], 24)
    } else {
        sum_at(frame_of(log, size, at - 1), 16)
    }
}

/// Whether the log has the frame, and it passes SQLite's test under a header.
pub(crate) fn passes_under(head: &[u8], log: &[u8], size: usize, at: usize) -> bool
    requires head { length head.now ≡ 32 }
    requires number { at < 2 ^ 32 }
    requires size { size ≤ 65536 }
    ensures { IsTrue result ↔ PassesUnder head.now size log.now at }
{
    let start = start_of(size, at);
    if start + (FRAME_HEADER_LEN + size) > log.len() {
        return false;
    }
    is_frame(head, sum_ahead_of(log, size, at), frame_of(log, size, at))
}

/// Whether a frame that the log has commits.
pub(crate) fn commits_at(log: &[u8], size: usize, at: usize) -> bool
    requires within { frame_at size at + (24 + size) ≤ length log.now }
    requires number { at < 2 ^ 32 }
    requires size { size ≤ 65536 }
    ensures { IsTrue result ↔ CommitsAt size log.now at }
{
    number_at(frame_of(log, size, at), 4) != 0
}
