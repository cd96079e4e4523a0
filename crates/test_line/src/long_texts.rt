//! Long texts through a line: in parts as at once, by each mechanism both ways, and one that fills a frame.

use crate::keepers::frame_of;
use crate::tests::served;
use ck_calls::{Call, Function};
use std::alloc::Global;
use std::test::*;
use test_scripts::given::CBC_PAD;
use test_scripts::{FIRST_RUN, Server, Step, add_output, expect_each_mechanism, expect_long_chain};
use wire::{FrameReader, read_reply, write_call};

/// A line for a new token, which takes the frames of all calls.
#[derive(Clone, Copy)]
struct NewLine;

impl Server for NewLine {
    fn output(&self, alloc: Global, calls: Vec<Call>) -> Result<Vec<u8>, Fail> {
        let (ended, written, _) = served(alloc, &frames_of(alloc, &calls)?)?;
        if ended != Ok(calls.len() as u64) {
            return Err("the line ended otherwise".into());
        }
        outputs(alloc, &calls, &written)
    }
}

/// The frames of the calls.
fn frames_of(alloc: Global, calls: &[Call]) -> Result<Vec<u8>, Fail> {
    let mut frames = Vec::new(alloc);
    for call in calls {
        frames.extend_from_slice(&write_call(alloc, call)?)?;
    }
    Ok(frames)
}

/// What the replies to the calls give out, one after the other.
fn outputs(alloc: Global, calls: &[Call], written: &[u8]) -> Result<Vec<u8>, Fail> {
    let mut frames = FrameReader::new(alloc);
    frames.feed(written)?;
    let mut bytes = Vec::new(alloc);
    for call in calls {
        let payload = frames.next(alloc)?.ok_or("a reply is missing")?;
        let function = Function::of(call).number();
        let reply = read_reply(alloc, function, &payload)?;
        let added = add_output(&mut bytes, &reply);
        drop(reply);
        added?;
    }
    Ok(bytes)
}

#[test]
fn a_long_text_in_4000_pieces_is_chained_as_at_once(rt: HostRuntime) -> Result<(), Fail> {
    expect_long_chain(&NewLine, rt.alloc())
}

#[test]
fn a_text_in_pieces_is_by_each_mechanism_as_at_once(rt: HostRuntime) -> Result<(), Fail> {
    expect_each_mechanism(&NewLine, rt.alloc())
}

/// The front of C_Encrypt of 1,048,553 bytes, whose payload is as long as the limit, and what comes after them: a buffer of
/// 1,048,576 bytes.
const LARGEST_FRONT: &[u8] =
    b"\x00\x10\x00\x00\x00\x17\x00\x00\x00\x00\x00\x00\x00\x01\x00\x0f\xff\xe9";

const LARGEST_BUFFER: &[u8] = b"\x01\x00\x00\x00\x00\x00\x10\x00\x00";

/// A session, the key of FIPS 197, C.1, the beginning of CKM_AES_CBC_PAD, and such a text of zeros.
fn largest_line(alloc: Global) -> Result<Vec<u8>, Fail> {
    let mut frames = Vec::from_slice(alloc, FIRST_RUN.get(..121).unwrap_or(&[]))?;
    frames.extend_from_slice(&frame_of(alloc, Step::EncryptInit(1, CBC_PAD, 1))?)?;
    frames.extend_from_slice(LARGEST_FRONT)?;
    frames.resize(frames.len().saturating_add(1_048_553), 0)?;
    frames.extend_from_slice(LARGEST_BUFFER)?;
    Ok(frames)
}

/// The front of the reply, with the first block, and its last block, both as another program computed them (OpenSSL).
const LARGEST_REPLY: &[u8] = b"\x00\x0f\xff\xfd\x00\x00\x00\x00\x00\x00\x00\x00\x01\x00\x0f\xff\xf0\
\x0a\x94\x0b\xb5\x41\x6e\xf0\x45\xf1\xc3\x94\x58\xc6\x53\xea\x5a";

const LAST_BLOCK: &[u8] = b"\x34\x8a\x6f\x72\xe0\x92\x6d\xd9\x48\xd7\xf6\x2c\x72\xa7\x6a\x79";

#[test]
fn a_text_that_fills_a_frame_is_encrypted_whole(rt: HostRuntime) -> Result<(), Fail> {
    let (ended, written, _) = served(rt.alloc(), &largest_line(rt.alloc())?)?;
    assert_eq!(rt; ended, Ok(4));
    let reply = written.get(52..).unwrap_or(&[]);
    assert_eq!(rt; reply.len(), 4 + 1_048_573);
    assert!(rt; reply.starts_with(LARGEST_REPLY) && reply.ends_with(LAST_BLOCK));
    Ok(())
}
