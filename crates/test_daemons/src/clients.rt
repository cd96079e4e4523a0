//! What tests of many connections share: a daemon over a store in memory with options of its own, and clients that stay.

use crate::running::{Ended, run};
use crate::serving::connect;
use std::alloc::AllocError;
use std::io::{ErrorKind, Read, Write};
use std::os::unix::net::UnixStream;
use std::sync::Wait;
use std::test::Fail;
use std::thread::{JoinHandle, Threads};
use std::time::{Clock, Duration};
use std::{fs, thread};
use test_scripts::{FIRST_REPLIES, FIRST_RUN};

/// How many seconds a byte is waited for at most.
const PATIENCE: u64 = 30;

/// The reply to C_OpenSession that has session 2.
pub const SESSION_TWO: &[u8] =
    b"\x00\x00\x00\x10\x00\x00\x00\x00\x00\x00\x00\x00\x00\x00\x00\x00\x00\x00\x00\x02";

/// The daemon's `--clients`, `--connections` and `--idle`. The last is left out where it is empty.
pub type Options = (&'static str, &'static str, &'static str);

/// Runs `tokend serve` over a store in memory in a thread of its own, with these options and a seed of zeros.
pub fn start_with<R: Threads + Wait + Clock + Copy + Send + Drop + 'static>(
    rt: &HostRuntime,
    threads: R,
    socket: &'static str,
    seed: &'static str,
    options: Options,
) -> Result<JoinHandle<Result<Ended, AllocError>>, Fail> {
    start_seeded(rt, threads, socket, (seed, 0), options)
}

/// The same. The file of the seed is made, and has this byte 32 times.
pub fn start_seeded<R: Threads + Wait + Clock + Copy + Send + Drop + 'static>(
    rt: &HostRuntime,
    threads: R,
    socket: &'static str,
    (seed, byte): (&'static str, u8),
    (clients, connections, idle): Options,
) -> Result<JoinHandle<Result<Ended, AllocError>>, Fail> {
    fs::write(rt, seed, &[byte; 32])?;
    let files = *rt;
    let daemon = move || serve_with(&files, threads, socket, seed, clients, connections, idle);
    Ok(thread::spawn(&threads, daemon)?)
}

fn serve_with<'a, R: Threads + Wait + Clock + Copy + Send + Drop + 'static>(
    rt: &HostRuntime,
    threads: R,
    socket: &'a str,
    seed: &'a str,
    clients: &'a str,
    connections: &'a str,
    idle: &'a str,
) -> Result<Ended, AllocError> {
    let words = [
        "serve",
        "--store",
        ":memory:",
        "--socket",
        socket,
        "--seed-file",
        seed,
        "--clients",
        clients,
        "--connections",
        connections,
        "--log",
        "error",
        "--idle",
        idle,
    ];
    let count = if idle.is_empty() { 13 } else { 15 };
    run(rt, threads, words.get(..count).unwrap_or(&[]), b"")
}

/// A new connection, on which no byte is waited for without end.
pub fn join(rt: &HostRuntime, socket: &str) -> Result<UnixStream, Fail> {
    let peer = connect(rt, socket)?;
    peer.set_read_timeout(Some(Duration::from_secs(PATIENCE)))?;
    Ok(peer)
}

/// So many new connections.
pub fn join_all(rt: &HostRuntime, socket: &str, count: usize) -> Result<Vec<UnixStream>, Fail> {
    let mut peers = Vec::new(rt.alloc());
    for _ in 0..count {
        peers.push(join(rt, socket)?)?;
    }
    Ok(peers)
}

/// Connects and disconnects so often: a daemon ends once each of its seats has had as many connections as it was to have.
pub fn pass_by(rt: &HostRuntime, socket: &str, count: usize) -> Result<(), Fail> {
    for _ in 0..count {
        drop(connect(rt, socket)?);
    }
    Ok(())
}

/// Sees that these bytes come next of a connection.
pub fn hear(rt: &HostRuntime, peer: &mut UnixStream, replies: &[u8]) -> Result<(), Fail> {
    let mut got = vec![in rt.alloc(); 0u8; replies.len()]?;
    peer.read_exact(&mut got)?;
    if got.as_slice() == replies {
        Ok(())
    } else {
        Err(Fail::new(format_args!("other replies: {got:?}")))
    }
}

/// Sees that a connection that sends these bytes is answered those.
pub fn ask(
    rt: &HostRuntime,
    peer: &mut UnixStream,
    frames: &[u8],
    replies: &[u8],
) -> Result<(), Fail> {
    peer.write_all(frames)?;
    hear(rt, peer, replies)
}

/// Sees that each connection is answered these bytes, once all have sent theirs.
pub fn ask_all(
    rt: &HostRuntime,
    peers: &mut [UnixStream],
    frames: &[u8],
    replies: &[u8],
) -> Result<(), Fail> {
    for peer in peers.iter_mut() {
        peer.write_all(frames)?;
    }
    for peer in peers.iter_mut() {
        hear(rt, peer, replies)?;
    }
    Ok(())
}

/// Sees that each connection, after the first run, can begin an encryption again and encrypt.
pub fn encrypt_all(rt: &HostRuntime, peers: &mut [UnixStream]) -> Result<(), Fail> {
    let calls = FIRST_RUN.get(121..).ok_or("no such calls")?;
    let replies = FIRST_REPLIES.get(40..).ok_or("no such replies")?;
    ask_all(rt, peers, calls, replies)
}

/// What is there of a connection within so many milliseconds.
#[derive(Clone, Copy, Debug, PartialEq, Eq)]
pub enum Found {
    Byte,
    Nothing,
    End,
}

/// Waits so many milliseconds for a byte of a connection.
pub fn look(peer: &mut UnixStream, milliseconds: u64) -> Result<Found, Fail> {
    peer.set_read_timeout(Some(Duration::from_millis(milliseconds)))?;
    let mut byte = [0u8; 1];
    let found = match peer.read(&mut byte) {
        Ok(0) => Found::End,
        Ok(_) => Found::Byte,
        Err(error) if error.kind() == ErrorKind::WouldBlock => Found::Nothing,
        Err(error) => return Err(error.into()),
    };
    peer.set_read_timeout(Some(Duration::from_secs(PATIENCE)))?;
    Ok(found)
}

/// Sees that nothing more comes of a connection, and that it is ended.
pub fn expect_over(peer: &mut UnixStream) -> Result<(), Fail> {
    let mut byte = [0u8; 1];
    if peer.read(&mut byte)? == 0 {
        Ok(())
    } else {
        Err("more comes".into())
    }
}
