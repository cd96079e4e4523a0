//! A call and a reply that are as long as a frame may be, through a socket.

use std::alloc::Global;
use std::io::{Read, Write};
use std::test::*;
use test_daemons::{ask, clear, expect_end, join, pass_by, start_with};
use test_scripts::{FIRST_REPLIES, FIRST_RUN};

const LARGEST: &[&str] = &["largest.seed", "largest.sock"];

/// C_EncryptInit by CKM_AES_CBC_PAD, with the initialization vector of SP 800-38A, appendix F, and its reply.
const BEGIN: &[u8] =
    b"\x00\x00\x00\x2f\x00\x16\x00\x00\x00\x00\x00\x00\x00\x01\x01\x00\x00\x00\x00\x00\x00\x10\x85\
\x00\x00\x00\x10\x00\x01\x02\x03\x04\x05\x06\x07\x08\x09\x0a\x0b\x0c\x0d\x0e\x0f\x00\x00\x00\x00\x00\x00\x00\x01";

const BEGUN: &[u8] = b"\x00\x00\x00\x08\x00\x00\x00\x00\x00\x00\x00\x00";

/// The front of C_Encrypt of 1,048,553 bytes, whose payload is as long as the limit, and what comes after them: a buffer of
/// 1,048,576 bytes.
const FRONT: &[u8] = b"\x00\x10\x00\x00\x00\x17\x00\x00\x00\x00\x00\x00\x00\x01\x00\x0f\xff\xe9";

const BUFFER: &[u8] = b"\x01\x00\x00\x00\x00\x00\x10\x00\x00";

/// The front of the reply, with the first block, and its last block, both as another program computed them (OpenSSL).
const REPLY: &[u8] = b"\x00\x0f\xff\xfd\x00\x00\x00\x00\x00\x00\x00\x00\x01\x00\x0f\xff\xf0\
\x0a\x94\x0b\xb5\x41\x6e\xf0\x45\xf1\xc3\x94\x58\xc6\x53\xea\x5a";

const LAST_BLOCK: &[u8] = b"\x34\x8a\x6f\x72\xe0\x92\x6d\xd9\x48\xd7\xf6\x2c\x72\xa7\x6a\x79";

/// The frame of such a call, of a text of zeros.
fn largest_call(alloc: Global) -> Result<Vec<u8>, Fail> {
    let mut frame = Vec::from_slice(alloc, FRONT)?;
    frame.resize(FRONT.len().saturating_add(1_048_553), 0)?;
    frame.extend_from_slice(BUFFER)?;
    Ok(frame)
}

/// The reply to it of an application of its own, under the key of FIPS 197, C.1.
fn largest_reply(rt: &HostRuntime) -> Result<Vec<u8>, Fail> {
    let mut peer = join(rt, "largest.sock")?;
    let calls = FIRST_RUN.get(..121).ok_or("no such calls")?;
    let replies = FIRST_REPLIES.get(..40).ok_or("no such replies")?;
    ask(rt, &mut peer, calls, replies)?;
    ask(rt, &mut peer, BEGIN, BEGUN)?;
    peer.write_all(&largest_call(rt.alloc())?)?;
    let mut reply = vec![in rt.alloc(); 0u8; 4 + 1_048_573]?;
    peer.read_exact(&mut reply)?;
    Ok(reply)
}

#[test]
fn a_text_that_fills_a_frame_is_encrypted_whole(rt: HostRuntime) -> Result<(), Fail> {
    clear(&rt, LARGEST);
    let options = ("4", "1", "");
    let daemon = start_with(&rt, rt, "largest.sock", "largest.seed", options)?;
    let reply = largest_reply(&rt)?;
    assert!(rt; reply.starts_with(REPLY) && reply.ends_with(LAST_BLOCK));
    pass_by(&rt, "largest.sock", 3)?;
    expect_end(rt, daemon)?;
    clear(&rt, LARGEST);
    Ok(())
}
