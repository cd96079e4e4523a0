//! Peers that call and read nothing, until one reads all and others leave.

use std::io::{Read, Write};
use std::os::unix::net::UnixStream;
use std::test::*;
use test_daemons::{
    Found, OPEN_SESSION, SESSION_ONE, ask, ask_all, clear, encrypt_all, expect_end, hear, join,
    join_all, look, start_with,
};
use test_scripts::{FIRST_REPLIES, FIRST_RUN};

const LATE: &[&str] = &["late.seed", "late.sock"];

const LEFT: &[&str] = &["left.seed", "left.sock"];

/// How many calls it makes, and how many random bytes the first of them asks for. Each asks for one fewer than the one before, so
/// that no two replies have one length. They have 8 MiB together, more than the system holds for a socket.
const CALLS: u32 = 256;

const LONGEST: u32 = 32_768;

/// The calls of C_GenerateRandom.
fn random_calls(rt: &HostRuntime) -> Result<Vec<u8>, Fail> {
    let mut frames = Vec::new(rt.alloc());
    for place in 0..CALLS {
        let count = u64::from(LONGEST.saturating_sub(place));
        frames.extend_from_slice(b"\x00\x00\x00\x12\x00\x29\x00\x00\x00\x00\x00\x00\x00\x01")?;
        frames.extend_from_slice(&count.to_be_bytes())?;
    }
    Ok(frames)
}

/// Sees that the next reply has so many random bytes.
fn hear_random(rt: &HostRuntime, peer: &mut UnixStream, count: u32) -> Result<(), Fail> {
    let mut wanted = Vec::new(rt.alloc());
    wanted.extend_from_slice(&count.saturating_add(12).to_be_bytes())?;
    wanted.extend_from_slice(&[0; 8])?;
    wanted.extend_from_slice(&count.to_be_bytes())?;
    hear(rt, peer, &wanted)?;
    let mut bytes = vec![in rt.alloc(); 0u8; count as usize]?;
    peer.read_exact(&mut bytes)?;
    Ok(())
}

/// All places of its seat and of the others are taken by connections that are answered meanwhile.
#[test]
fn a_peer_that_reads_late_holds_up_nobody_and_gets_all(rt: HostRuntime) -> Result<(), Fail> {
    clear(&rt, LATE);
    let options = ("4", "4", "");
    let daemon = start_with(&rt, rt, "late.sock", "late.seed", options)?;
    let mut late = join(&rt, "late.sock")?;
    ask(&rt, &mut late, OPEN_SESSION, SESSION_ONE)?;
    late.write_all(&random_calls(&rt)?)?;
    let mut others = join_all(&rt, "late.sock", 15)?;
    ask_all(&rt, &mut others, FIRST_RUN, FIRST_REPLIES)?;
    for _ in 0..8 {
        encrypt_all(&rt, &mut others)?;
    }
    for place in 0..CALLS {
        hear_random(&rt, &mut late, LONGEST.saturating_sub(place))?;
    }
    assert!(rt; look(&mut late, 100)? == Found::Nothing);
    encrypt_all(&rt, &mut others)?;
    drop(late);
    drop(others);
    expect_end(rt, daemon)?;
    clear(&rt, LATE);
    Ok(())
}

/// Each of four peers leaves with its replies unread. So does its application: its place is free again, and the daemon ends.
#[test]
fn a_peer_that_leaves_its_replies_unread_is_gone(rt: HostRuntime) -> Result<(), Fail> {
    clear(&rt, LEFT);
    let options = ("1", "2", "");
    let daemon = start_with(&rt, rt, "left.sock", "left.seed", options)?;
    let mut leaving = join_all(&rt, "left.sock", 4)?;
    ask_all(&rt, &mut leaving, OPEN_SESSION, SESSION_ONE)?;
    let calls = random_calls(&rt)?;
    for peer in leaving.iter_mut() {
        peer.write_all(&calls)?;
    }
    drop(leaving);
    let mut next = join_all(&rt, "left.sock", 4)?;
    ask_all(&rt, &mut next, FIRST_RUN, FIRST_REPLIES)?;
    drop(next);
    expect_end(rt, daemon)?;
    clear(&rt, LEFT);
    Ok(())
}
