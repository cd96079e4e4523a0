//! Each of the 41 calls through a line: written as a frame, answered with CKR_OK, and its reply read; and how many random
//! bytes each takes.

use crate::keepers::frame_of;
use ck_calls::{Function, Reply, need};
use keep::ListKeep;
use line::Words;
use pin_record::Record;
use std::alloc::Global;
use std::process::Abort;
use std::test::*;
use stdio_line::{LineFault, serve_one};
use test_scripts::{EVERY_CALL, Step, call_of, expect_row, token_over};
use watched::Watched;
use wire::{FrameReader, read_reply};

/// The frames of all calls.
fn all_frames(alloc: Global) -> Result<Vec<u8>, Fail> {
    let mut frames = Vec::new(alloc);
    for (_, step, _) in EVERY_CALL {
        frames.extend_from_slice(&frame_of(alloc, *step)?)?;
    }
    Ok(frames)
}

fn function_of(alloc: Global, step: Step) -> Result<Function, Fail> {
    let call = call_of(alloc, step)?;
    let function = Function::of(&call);
    drop(call);
    Ok(function)
}

/// How a line for a new token ends that takes the frames, and what it writes.
fn served(
    alloc: Global,
    frames: &[u8],
    words: &mut Words,
) -> Result<(Result<u64, LineFault>, Vec<u8>), Fail> {
    let mut reader = Watched::of_std(frames);
    let mut writer = Watched::of_std(Vec::<u8>::new(alloc));
    let mut token = token_over(alloc, ListKeep::new(alloc, Record::new()))?;
    let ended = serve_one(alloc, &mut reader, &mut writer, &mut token, words);
    drop(token);
    Ok((ended, writer.into_std()))
}

/// The reply in a payload that begins with CKR_OK.
fn ok_reply(alloc: Global, step: Step, payload: &[u8]) -> Result<Reply, Fail> {
    let function = function_of(alloc, step)?;
    if !payload.starts_with(&[0; 8]) {
        return Err(Fail::new(format_args!("{function:?}: {payload:?}")));
    }
    Ok(read_reply(alloc, function.number(), payload)?)
}

/// Sees that these are the frames of what all rows get.
fn expect_replies(alloc: Global, written: &[u8]) -> Result<(), Fail> {
    let mut frames = FrameReader::new(alloc);
    frames.feed(written)?;
    for row in EVERY_CALL {
        let payload = frames.next(alloc)?.ok_or("a reply is missing")?;
        let got = ok_reply(alloc, row.1, &payload)?;
        expect_row(alloc, "a line", *row, Some(got))?;
    }
    if frames.is_empty() {
        Ok(())
    } else {
        Err("replies that no row tells".into())
    }
}

#[test]
fn each_call_is_written_and_answered_with_ok_and_its_reply_is_read(
    rt: HostRuntime,
) -> Result<(), Fail> {
    let mut words = Words::for_app([0; 32], 0);
    let (ended, written) = served(rt.alloc(), &all_frames(rt.alloc())?, &mut words)?;
    assert_eq!(rt; ended, Ok(EVERY_CALL.len() as u64));
    expect_replies(rt.alloc(), &written)
}

/// Whether one of the rows calls the function of this number.
fn has_row(alloc: Global, number: u16) -> Result<bool, Fail> {
    for (_, step, _) in EVERY_CALL {
        if function_of(alloc, *step)?.number() == number {
            return Ok(true);
        }
    }
    Ok(false)
}

#[test]
fn each_of_the_41_functions_has_its_row(rt: HostRuntime) -> Result<(), Fail> {
    for number in 1..=41 {
        let has_row = has_row(rt.alloc(), number)?;
        assert!(rt; has_row, "function {number}");
    }
    Ok(())
}

/// What the token's identifiers, salts, keys and random numbers take.
fn taken(step: Step) -> usize {
    match step {
        Step::CreateObject(..)
        | Step::CopyObject(..)
        | Step::UnwrapKey(..)
        | Step::InitToken(..)
        | Step::InitPin(..)
        | Step::SetPin(..) => 16,
        // An identifier and a value of 16 bytes.
        Step::GenerateKey(..) => 32,
        Step::GenerateRandom(_, len) => len as usize,
        _ => 0,
    }
}

fn need_of(alloc: Global, step: Step) -> Result<usize, Fail> {
    let call = call_of(alloc, step)?;
    let need = need(&call);
    drop(call);
    Ok(need)
}

/// How many random bytes all calls need, each as many as it is to take.
fn needed(rt: &impl Abort, alloc: Global) -> Result<usize, Fail> {
    let mut sum = 0usize;
    for (_, step, _) in EVERY_CALL {
        let need = need_of(alloc, *step)?;
        assert_eq!(rt; need, taken(*step), "{step:?}");
        sum = sum.saturating_add(need);
    }
    Ok(sum)
}

#[test]
fn a_line_takes_the_random_bytes_that_its_calls_need(rt: HostRuntime) -> Result<(), Fail> {
    let sum = needed(&rt, rt.alloc())?;
    let mut words = Words::for_app([0; 32], 0);
    let (ended, _) = served(rt.alloc(), &all_frames(rt.alloc())?, &mut words)?;
    assert_eq!(rt; ended, Ok(EVERY_CALL.len() as u64));
    let mut others = Words::for_app([0; 32], 0);
    let _ = others.take(rt.alloc(), sum)?;
    let next = others.take(rt.alloc(), 16)?;
    assert!(rt; words.take(rt.alloc(), 16)? == next, "{sum} bytes");
    Ok(())
}
