//! The random bytes of each connection.

use std::io::{Read, Write};
use std::os::unix::net::UnixStream;
use std::test::*;
use test_daemons::{OPEN_SESSION, SESSION_ONE, ask, clear, expect_end, join_all, start_seeded};

const ONE_EACH: &[&str] = &["one_each.seed", "one_each.sock"];

const TWO_EACH: &[&str] = &["two_each.seed", "two_each.sock"];

/// C_GenerateRandom of 16 bytes in session 1.
const RANDOM: &[u8] =
    b"\x00\x00\x00\x12\x00\x29\x00\x00\x00\x00\x00\x00\x00\x01\x00\x00\x00\x00\x00\x00\x00\x10";

/// What stands before its bytes in a reply.
const HEAD: &[u8] = b"\x00\x00\x00\x1c\x00\x00\x00\x00\x00\x00\x00\x00\x00\x00\x00\x10";

/// The first bytes of ChaCha20 under a key of zeros, of the streams 0 to 15 in their order.
const STREAMS: &[&[u8]] = &[
    b"\x76\xb8\xe0\xad\xa0\xf1\x3d\x90\x40\x5d\x6a\xe5\x53\x86\xbd\x28",
    b"\xef\x3f\xdf\xd6\xc6\x15\x78\xfb\xf5\xcf\x35\xbd\x3d\xd3\x3b\x80",
    b"\xd0\xc5\xb9\xb7\x44\x28\x70\x72\x8d\x81\x2f\x03\x4c\x63\x5e\x81",
    b"\x02\x2f\x2b\xf0\x76\x58\x17\x43\xff\x14\x0c\x13\xe3\xf4\x04\x1c",
    b"\x55\x13\x89\xd9\xbe\xdb\x8b\x56\xaf\x92\xbc\xd2\x07\x21\xef\xbc",
    b"\x2d\x8b\x26\x34\x6d\x74\x96\xce\x61\x94\xce\x52\x70\x47\x7a\x19",
    b"\x5b\x13\xb2\x23\xb4\x30\x23\x71\x30\x9b\x17\x38\x33\x7f\xa7\xad",
    b"\xd8\xb1\xca\xbf\x32\x49\xb4\xb9\x13\x22\x06\x3f\xb5\x42\x9a\x30",
    b"\xa5\x41\xda\x5c\x27\x5e\x58\x82\x1d\x42\xa2\x76\xa5\x9b\xde\xbd",
    b"\xad\x88\x2f\x00\xdd\xc3\x55\xd5\xc5\xc8\xdc\x27\x3c\x88\x54\x0b",
    b"\xcc\xae\x42\x10\xad\x05\x0a\x8f\x7b\x39\xd9\x22\x29\x88\x62\x25",
    b"\x62\x88\xf5\x8c\xea\x48\x37\xf9\xe6\x7a\xf6\x9a\x19\x3c\x41\x07",
    b"\x3b\x94\x36\x21\x88\xd6\x98\xa7\x39\xbc\xad\xd9\x03\xe1\x4c\x9a",
    b"\x4b\x67\x02\xbe\x97\x59\x06\x0b\x6b\x27\xed\xe2\xec\x98\x0c\xe0",
    b"\x89\x46\xdb\x15\xa2\x02\x4b\x3d\xcd\x69\xa0\x92\x75\x46\xb0\x09",
    b"\xf2\xf9\xc6\xf2\x00\x8c\x75\x3e\xdf\x7d\x1e\x7e\xcf\x2c\x8e\xe4",
];

/// The first random bytes of a new application.
fn random_of(rt: &HostRuntime, peer: &mut UnixStream) -> Result<Vec<u8>, Fail> {
    ask(rt, peer, OPEN_SESSION, SESSION_ONE)?;
    ask(rt, peer, RANDOM, HEAD)?;
    let mut bytes = vec![in rt.alloc(); 0u8; 16]?;
    peer.read_exact(&mut bytes)?;
    Ok(bytes)
}

/// The first random bytes of some new applications.
fn random_of_all(rt: &HostRuntime, peers: &mut [UnixStream]) -> Result<Vec<Vec<u8>>, Fail> {
    let mut all = Vec::new(rt.alloc());
    for peer in peers.iter_mut() {
        all.push(random_of(rt, peer)?)?;
    }
    Ok(all)
}

fn has(all: &[Vec<u8>], bytes: &[u8]) -> bool {
    for found in all {
        if found.as_slice() == bytes {
            return true;
        }
    }
    false
}

/// Sees that as many new applications as these streams have the bytes of these, each of one: which connection is which application is
/// not specified.
fn expect_streams(
    rt: &HostRuntime,
    peers: &mut [UnixStream],
    (first, end): (usize, usize),
    is_of_zeros: bool,
) -> Result<(), Fail> {
    let all = random_of_all(rt, peers)?;
    if all.len() != end.saturating_sub(first) {
        return Err("there are more of them".into());
    }
    for stream in first..end {
        let bytes = STREAMS.get(stream).ok_or("no such stream")?;
        if has(&all, bytes) != is_of_zeros {
            return Err(Fail::new(format_args!("bytes of stream {stream}: {all:?}")));
        }
    }
    Ok(())
}

/// Where a seat has one place, its applications are s, s + 4, s + 8 and so on. A daemon that starts again with the same seed gives
/// the same bytes again, and one with another seed none of them.
#[test]
fn random_bytes_are_those_of_the_seed_and_the_application(rt: HostRuntime) -> Result<(), Fail> {
    for (byte, is_of_zeros) in [(0, true), (0, true), (1, false)] {
        clear(&rt, ONE_EACH);
        let options = ("1", "3", "");
        let seed = ("one_each.seed", byte);
        let daemon = start_seeded(&rt, rt, "one_each.sock", seed, options)?;
        for streams in [(0, 4), (4, 8), (8, 12)] {
            let mut peers = join_all(&rt, "one_each.sock", 4)?;
            expect_streams(&rt, &mut peers, streams, is_of_zeros)?;
        }
        expect_end(rt, daemon)?;
    }
    clear(&rt, ONE_EACH);
    Ok(())
}

/// Where a seat has two places, the first connection at place j of seat s is application s + 4 j. The second one there is
/// s + 4 (j + 2).
#[test]
fn random_bytes_differ_by_place_and_turn(rt: HostRuntime) -> Result<(), Fail> {
    clear(&rt, TWO_EACH);
    let options = ("2", "4", "");
    let seed = ("two_each.seed", 0);
    let daemon = start_seeded(&rt, rt, "two_each.sock", seed, options)?;
    let mut first = join_all(&rt, "two_each.sock", 8)?;
    expect_streams(&rt, &mut first, (0, 8), true)?;
    drop(first);
    let mut second = join_all(&rt, "two_each.sock", 8)?;
    expect_streams(&rt, &mut second, (8, 16), true)?;
    drop(second);
    expect_end(rt, daemon)?;
    clear(&rt, TWO_EACH);
    Ok(())
}
