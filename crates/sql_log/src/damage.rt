//! Damage in a log that no power cut leaves.

ghost use Rattle.std.specs.Prelude.{◌≡◌, ◌⊎◌, ◌+◌, ◌-◌, ◌*◌, ◌^◌, ◌<◌, ◌≤◌, ◌↔◌, ℕ, length, true, IsTrue, IfSome, IsNone};
ghost use Rattle.sqlite_wal.specs.Format.{IsSigned, be32};
ghost use Rattle.sqlite_wal.specs.Recovery.{Passes, frame_at, header};
ghost use Rattle.sql_log.specs.Damage.{HasAnyCommit, HasCommit, HasEarlyCommit, HasTwoCommits, IsBroken, IsDamaged, IsPlainlyBroken, IsPlainlyDamaged};
ghost use Rattle.sql_log.specs.Damage.{frame_count, is_shut as is_shut_gate, mended_header};

use crate::format::{FRAME_HEADER_LEN, HEADER_LEN, is_signed, number_at};
use crate::frames::{commits_at, frame_of, passes_under};

/// The page size of a token's store.
const PAGE_SIZE: usize = 4096;

/// A log of more frames is left to sqlite.
const MOST_FRAMES: usize = 0xffff_0000;

/// How many pages a transaction has written before it goes to the log in parts, behind one shut gate. Each part ends in a frame that
/// commits.
const SPILL_FRAMES: usize = 2000;

/// How many frames of a run commit, up to two. The run begins at `from`, and ends before `end`.
fn commits_in_run(head: &[u8], log: &[u8], size: usize, from: usize, end: usize) -> u8
    requires head { length head.now ≡ 32 }
    requires number { end ≤ 2 ^ 32 }
    requires size { size ≤ 65536 }
    ensures most { result ≤ 2 }
    ensures one { 1 ≤ result → HasCommit head.now size log.now from }
    ensures two { 2 ≤ result → HasTwoCommits head.now size log.now from }
    ensures none { result ≡ 0 → (it : HasCommit head.now size log.now from) → it.one < end → ⊥ }
    ensures few { result ≤ 1 → (it : HasTwoCommits head.now size log.now from) → it.two < end → ⊥ }
{
    let mut count = 0;
    for at in from..end {
        if !passes_under(head, log, size, at) {
            return count;
        }
        if commits_at(log, size, at) {
            if count == 1 {
                return 2;
            }
            count = 1;
        }
    }
    count
}

/// The first frame before `end` that fails its test.
fn first_bad(log: &[u8], size: usize, end: usize) -> Option<usize>
    requires head { 32 ≤ length log.now }
    requires number { end ≤ 2 ^ 32 }
    requires size { size ≤ 65536 }
    ensures bad { IfSome result (λ at. at < end × ¬ Passes size log.now at) }
    ensures earlier { IfSome result (λ at. (i : ℕ) → i < at → Passes size log.now i) }
    ensures none { IsNone result → (i : ℕ) → i < end → Passes size log.now i }
{
    for at in 0..end {
        if !passes_under(&log[..HEADER_LEN], log, size, at) {
            return Some(at);
        }
    }
    None
}

/// Whether a frame's gate is shut, the first byte of its salt: 0, or 1 where the header's is 0.
fn is_shut(log: &[u8], size: usize, at: usize) -> bool
    requires within { frame_at size at + (24 + size) ≤ length log.now }
    requires number { at < 2 ^ 32 }
    requires size { size ≤ 65536 }
    ensures { result ≡ is_shut_gate size log.now at }
{
    let gate = frame_of(log, size, at)[8];
    let shut = if log[16] == 0 { 1 } else { 0 };
    gate == shut
}

/// Whether two commits stand behind a frame that fails its test.
fn is_broken(log: &[u8], size: usize) -> bool
    requires head { 32 ≤ length log.now }
    requires size { size ≤ 65536 }
    ensures sound { IsTrue result → IsBroken size log.now }
    ensures found { IsPlainlyBroken size log.now → IsTrue result }
{
    let frames = (log.len() - HEADER_LEN) / (FRAME_HEADER_LEN + size);
    if frames > MOST_FRAMES {
        return false;
    }
    let Some(bad) = first_bad(log, size, frames) else {
        return false;
    };
    let end = if is_shut(log, size, bad) {
        frames.min(bad + SPILL_FRAMES)
    } else {
        frames
    };
    let head = &log[..HEADER_LEN];
    commits_in_run(head, log, size, bad + 1, end) == 2
        || commits_in_run(head, log, size, bad + 2, end) == 2
}

/// The header with another fourth byte, which says how words are read, and with the first frame's salts.
fn header_with(log: &[u8], magic: u8) -> [u8; 32]
    requires long { 56 ≤ length log.now }
    requires byte { magic < 256 }
    ensures { result ≡ mended_header magic log.now }
{
    let mut head = [0u8; 32];
    head.copy_from_slice(&log[..32]);
    head[3] = magic;
    head[16..24].copy_from_slice(&log[40..48]);
    head
}

/// Whether a commit stands behind a damaged header.
fn is_beheaded(log: &[u8]) -> bool
    requires { 56 ≤ length log.now }
    ensures sound { IsTrue result → HasAnyCommit 4096 log.now }
    ensures found { frame_count 4096 log.now ≤ 4294901760 → HasEarlyCommit (mended_header 0x82 log.now) log.now
        ⊎ HasEarlyCommit (mended_header 0x83 log.now) log.now → IsTrue result }
{
    let frames = (log.len() - HEADER_LEN) / (FRAME_HEADER_LEN + PAGE_SIZE);
    if frames > MOST_FRAMES {
        return false;
    }
    let little = header_with(log, 0x82);
    let big = header_with(log, 0x83);
    has_commit(&little, log, frames) || has_commit(&big, log, frames)
}

/// Whether one of the first frames begins a run that commits, under a header.
fn has_commit(head: &[u8], log: &[u8], frames: usize) -> bool
    requires head { length head.now ≡ 32 }
    requires number { frames ≤ 2 ^ 32 }
    ensures sound { IsTrue result → HasAnyCommit 4096 log.now }
    ensures found { frame_count 4096 log.now ≤ frames → HasEarlyCommit head.now log.now → IsTrue result }
{
    commits_in_run(head, log, PAGE_SIZE, 0, frames) > 0
        || commits_in_run(head, log, PAGE_SIZE, 1, frames) > 0
}

/// Whether commits stand in a log behind damage that no power cut leaves. Those are two commits behind a frame that fails SQLite's
/// test, or one behind a header that fails it and does not begin with 0. The page size is the header's, or 4096 where that is damaged.
/// Where the header passes and names pages of at most 65,536 bytes, two commits behind the first bad frame are always found, and one
/// behind a header that is damaged in its salts or its fourth byte alone. `IsPlainlyDamaged` defines how far frames are looked at.
pub fn has_commits_behind(log: &[u8]) -> bool
    ensures sound { IsTrue result → IsDamaged log.now }
    ensures found { IsPlainlyDamaged log.now → IsTrue result }
{
    if log.len() < HEADER_LEN + FRAME_HEADER_LEN {
        return false;
    }
    let head = &log[..HEADER_LEN];
    if is_signed(head) {
        let size = number_at(head, 8) as usize;
        size <= 65536 && is_broken(log, size)
    } else {
        log[0] != 0 && is_beheaded(log)
    }
}
