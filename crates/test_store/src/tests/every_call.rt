//! Each of the 41 calls: through a line, where it is written as a frame, answered with CKR_OK, and its reply read.

use super::keepers::{Script, see_over_each};
use super::served::expect_served;
use keep::Keep;
use pin_record::Record;
use std::alloc::Global;
use std::test::*;
use test_scripts::EVERY_CALL;
use wire::FrameReader;

/// Sees that so many replies begin with CKR_OK.
fn expect_ok(alloc: Global, written: &[u8], count: usize) -> Result<(), Fail> {
    let mut frames = FrameReader::new(alloc);
    frames.feed(written)?;
    for number in 0..count {
        let payload = frames.next(alloc)?.ok_or("a reply is missing")?;
        if !payload.starts_with(&[0; 8]) {
            return Err(Fail::new(format_args!("call {number}: {payload:?}")));
        }
    }
    Ok(())
}

#[derive(Clone, Copy)]
struct Line;

impl Script for Line {
    fn see<K: Keep>(&self, alloc: Global, keep: K) -> Result<(), Fail> {
        let written = expect_served(alloc, keep, EVERY_CALL)?;
        expect_ok(alloc, &written, EVERY_CALL.len())
    }
}

#[test]
fn every_call_is_answered(rt: HostRuntime) -> Result<(), Fail> {
    see_over_each(rt.alloc(), Record::new(), &Line)
}
