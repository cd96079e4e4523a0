//! A keeper that fails at its n-th call: one reply of the line has the code of the failure.

use ck_types::Rv;
use keep::ListKeep;
use line::Words;
use pin_record::Record;
use std::alloc::Global;
use std::process::Abort;
use std::test::*;
use stdio_line::serve_one;
use test_keepers::{FailingKeep, Failure};
use test_scripts::given::*;
use test_scripts::{Step, call_of, token_over};
use watched::Watched;
use wire::{FrameReader, write_call};

/// A session, a token object, its size, and its end.
const STEPS: &[Step] = &[
    OPEN,
    Step::CreateObject(1, TOKEN_DATA),
    Step::GetObjectSize(1, 1),
    Step::DestroyObject(1, 1),
];

/// How often these calls, and the token's making before them, call the keeper for what may be refused.
const CALLS: u64 = 5;

/// The frame of a step's call.
pub(crate) fn frame_of(alloc: Global, step: Step) -> Result<Vec<u8>, Fail> {
    let call = call_of(alloc, step)?;
    let frame = write_call(alloc, &call);
    drop(call);
    Ok(frame?)
}

/// The frames of the steps.
fn input(alloc: Global) -> Result<Vec<u8>, Fail> {
    let mut frames = Vec::new(alloc);
    for step in STEPS {
        frames.extend_from_slice(&frame_of(alloc, *step)?)?;
    }
    Ok(frames)
}

/// What a line writes over a keeper whose n-th call fails.
fn output(alloc: Global, input: &[u8], n: u64, failure: Failure) -> Result<Vec<u8>, Fail> {
    let list = ListKeep::new(alloc, Record::new());
    let mut token = token_over(alloc, FailingKeep::new(list, n, failure))?;
    let mut words = Words::for_app([0; 32], 0);
    let mut reader = Watched::of_std(input);
    let mut writer = Watched::of_std(Vec::<u8>::new(alloc));
    let ended = serve_one(alloc, &mut reader, &mut writer, &mut token, &mut words);
    drop(token);
    ended?;
    Ok(writer.into_std())
}

/// How many of the four replies have the code.
fn replies_of(alloc: Global, bytes: &[u8], code: Rv) -> Result<u64, Fail> {
    let mut frames = FrameReader::new(alloc);
    frames.feed(bytes)?;
    let mut count = 0_u64;
    for _ in 0..4 {
        match frames.next(alloc)? {
            Some(payload) => {
                if payload.starts_with(&code.number().to_be_bytes()) {
                    count = count.saturating_add(1);
                }
            }
            None => return Err("a reply is missing".into()),
        }
    }
    Ok(count)
}

fn expect_one(rt: &impl Abort, alloc: Global, failure: Failure, code: Rv) -> Result<(), Fail> {
    let input = input(alloc)?;
    for n in 2..=CALLS + 1 {
        let written = output(alloc, &input, n, failure)?;
        let count = replies_of(alloc, &written, code)?;
        assert_eq!(rt; count, (n <= CALLS) as u64, "call {n}");
    }
    Ok(())
}

#[test]
fn a_failed_device_is_told_in_one_reply(rt: HostRuntime) -> Result<(), Fail> {
    expect_one(&rt, rt.alloc(), Failure::Device, Rv::DeviceError)
}

#[test]
fn want_of_memory_is_told_in_one_reply(rt: HostRuntime) -> Result<(), Fail> {
    expect_one(&rt, rt.alloc(), Failure::Memory, Rv::HostMemory)
}
