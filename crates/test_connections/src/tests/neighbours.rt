//! Connections that go on beside one that sends what is no call.

use std::io::Write;
use std::net::Shutdown;
use std::os::unix::net::UnixStream;
use std::test::*;
use test_daemons::{
    OPEN_SESSION, SESSION_ONE, SESSION_TWO, ask, ask_all, clear, encrypt_all, expect_end,
    expect_over, hear, join, join_all, start_with,
};
use test_scripts::{FIRST_REPLIES, FIRST_RUN};

const BESIDE: &[&str] = &["beside.seed", "beside.sock"];

/// CKR_ARGUMENTS_BAD and CKR_FUNCTION_NOT_SUPPORTED.
const BAD_ARGUMENTS: &[u8] = b"\x00\x00\x00\x08\x00\x00\x00\x00\x00\x00\x00\x07";

const NO_FUNCTION: &[u8] = b"\x00\x00\x00\x08\x00\x00\x00\x00\x00\x00\x00\x54";

/// Payloads that are no call, each in its frame, and what is answered: a byte, no byte, C_OpenSession with a byte left over and
/// with one missing; and functions that are not known.
const NO_CALLS: &[(&[u8], &[u8])] = &[
    (b"\x00\x00\x00\x01\x07", BAD_ARGUMENTS),
    (b"\x00\x00\x00\x00", BAD_ARGUMENTS),
    (
        b"\x00\x00\x00\x13\x00\x07\x00\x00\x00\x00\x00\x00\x00\x00\x00\x00\x00\x00\x00\x00\x00\x06\x00",
        BAD_ARGUMENTS,
    ),
    (
        b"\x00\x00\x00\x11\x00\x07\x00\x00\x00\x00\x00\x00\x00\x00\x00\x00\x00\x00\x00\x00\x00",
        BAD_ARGUMENTS,
    ),
    (b"\x00\x00\x00\x02\x00\x00", NO_FUNCTION),
    (b"\x00\x00\x00\x02\x00\x2a", NO_FUNCTION),
    (b"\x00\x00\x00\x03\xff\xff\x00", NO_FUNCTION),
];

/// The ends of streams: within a length, before and within a payload, and lengths above the limit.
const ENDINGS: &[&[u8]] = &[
    b"\x00\x00\x00",
    b"\x00\x00\x00\x12",
    b"\x00\x00\x00\x12\x00\x07\x00",
    b"\x00\x10\x00\x01",
    b"\xff\xff\xff\xff",
];

/// One that sends what is no call is answered so each time, and goes on.
fn send_no_calls(rt: &HostRuntime, socket: &str, peers: &mut [UnixStream]) -> Result<(), Fail> {
    let mut bad = join(rt, socket)?;
    for (payload, reply) in NO_CALLS {
        ask(rt, &mut bad, payload, reply)?;
        encrypt_all(rt, peers)?;
    }
    ask(rt, &mut bad, OPEN_SESSION, SESSION_ONE)?;
    // What is no call is answered at its place among calls.
    bad.write_all(b"\x00\x00\x00\x01\x07")?;
    ask(rt, &mut bad, OPEN_SESSION, BAD_ARGUMENTS)?;
    hear(rt, &mut bad, SESSION_TWO)
}

/// One whose stream ends badly is answered its calls before that, and ended.
fn end_badly(rt: &HostRuntime, socket: &str, ending: &[u8]) -> Result<(), Fail> {
    let mut bad = join(rt, socket)?;
    ask(rt, &mut bad, OPEN_SESSION, SESSION_ONE)?;
    bad.write_all(OPEN_SESSION)?;
    bad.write_all(ending)?;
    bad.shutdown(Shutdown::Write)?;
    hear(rt, &mut bad, SESSION_TWO)?;
    expect_over(&mut bad)
}

/// Twelve connections, three on each seat, encrypt before and after each of them.
#[test]
fn what_is_no_call_and_a_bad_end_disturb_nobody(rt: HostRuntime) -> Result<(), Fail> {
    clear(&rt, BESIDE);
    let options = ("8", "5", "");
    let daemon = start_with(&rt, rt, "beside.sock", "beside.seed", options)?;
    let mut peers = join_all(&rt, "beside.sock", 12)?;
    ask_all(&rt, &mut peers, FIRST_RUN, FIRST_REPLIES)?;
    send_no_calls(&rt, "beside.sock", &mut peers)?;
    for ending in ENDINGS {
        end_badly(&rt, "beside.sock", ending)?;
        encrypt_all(&rt, &mut peers)?;
    }
    // Two more make five connections of each seat.
    for mut peer in join_all(&rt, "beside.sock", 2)? {
        ask(&rt, &mut peer, FIRST_RUN, FIRST_REPLIES)?;
    }
    encrypt_all(&rt, &mut peers)?;
    drop(peers);
    expect_end(rt, daemon)?;
    clear(&rt, BESIDE);
    Ok(())
}
