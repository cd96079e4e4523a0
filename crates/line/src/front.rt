//! The payload at the front.

ghost use Rattle.std.specs.Prelude.{◌≡◌, false};
ghost use Rattle.line.specs.Asking.{Asks, Means};

use crate::asked::Asked;
use crate::refusal::reply_to_fault;
use crate::words::Words;
use ck_calls::{AppCall, need};
use std::alloc::Global;
use wire::{FrameReader, read_call};

/// The greatest length of a payload whose memory is kept for the next one.
const KEPT_LEN: usize = 65_536;

/// What a payload comes to.
fn asked_in(alloc: Global, payload: &[u8], words: &mut Words) -> Asked
    ensures { Means payload.now words.old words.new result }
{
    match read_call(alloc, payload) {
        Ok(call) => match words.take(alloc, need(&call)) {
            Ok(random) => {
                let app = words.app();
                Asked::Call(AppCall { app, call, random })
            }
            Err(_) => Asked::Memory,
        },
        Err(fault) => match reply_to_fault(fault) {
            Ok(reply) => Asked::Refused(reply),
            Err(_) => Asked::Memory,
        },
    }
}

/// What the frame at the front comes to, which is consumed. It sets `has_grown` for a long one.
pub(crate) fn asked_at(
    alloc: Global,
    frames: &mut FrameReader,
    words: &mut Words,
    has_grown: &mut bool,
) -> Asked
    requires { frames.old.failed ≡ false }
    ensures asks { Asks frames.old.bytes frames.new.bytes words.old words.new result }
    ensures well { frames.new.failed ≡ false }
{
    let payload = match frames.peek() {
        Ok(Some(payload)) => payload,
        Ok(None) => return Asked::Lacking,
        Err(_) => return Asked::TooLong,
    };
    if payload.len() > KEPT_LEN {
        *has_grown = true;
    }
    let asked = asked_in(alloc, payload, words);
    frames.consume();
    asked
}
