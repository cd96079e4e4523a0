//! A daemon in a thread, and what it answers.

use crate::running::{Ended, has_ended_so, run};
use std::alloc::AllocError;
use std::io::{Read, Write};
use std::os::unix::net::UnixStream;
use std::sync::Wait;
use std::test::Fail;
use std::thread::{JoinHandle, Threads};
use std::time::{Clock, Duration};
use std::{fs, thread};

/// Removes those of the files that are there.
pub fn clear(rt: &HostRuntime, paths: &[&str]) {
    for path in paths {
        let _ = fs::remove_file(rt, path);
    }
}

/// C_OpenSession with flags 6, and C_CreateObject of a data object of the token that is not private.
pub const NEW_OBJECT: &[u8] =
    b"\x00\x00\x00\x12\x00\x07\x00\x00\x00\x00\x00\x00\x00\x00\x00\x00\x00\x00\x00\x00\x00\x06\
\x00\x00\x00\x3c\x00\x0d\x00\x00\x00\x00\x00\x00\x00\x01\x00\x00\x00\x03\
\x00\x00\x00\x00\x00\x00\x00\x00\x00\x00\x00\x08\x00\x00\x00\x00\x00\x00\x00\x00\
\x00\x00\x00\x00\x00\x00\x00\x01\x00\x00\x00\x01\x01\
\x00\x00\x00\x00\x00\x00\x00\x02\x00\x00\x00\x01\x00";

/// Session 1 and object 1.
pub const NEW_OBJECT_REPLIES: &[u8] =
    b"\x00\x00\x00\x10\x00\x00\x00\x00\x00\x00\x00\x00\x00\x00\x00\x00\x00\x00\x00\x01\
\x00\x00\x00\x10\x00\x00\x00\x00\x00\x00\x00\x00\x00\x00\x00\x00\x00\x00\x00\x01";

/// C_OpenSession with flags 6, C_FindObjectsInit with no template, and C_FindObjects of up to 9.
pub const SEARCH: &[u8] =
    b"\x00\x00\x00\x12\x00\x07\x00\x00\x00\x00\x00\x00\x00\x00\x00\x00\x00\x00\x00\x00\x00\x06\
\x00\x00\x00\x0e\x00\x13\x00\x00\x00\x00\x00\x00\x00\x01\x00\x00\x00\x00\
\x00\x00\x00\x12\x00\x14\x00\x00\x00\x00\x00\x00\x00\x01\x00\x00\x00\x00\x00\x00\x00\x09";

/// Session 1, CKR_OK, and object 1.
pub const SEARCH_REPLIES: &[u8] =
    b"\x00\x00\x00\x10\x00\x00\x00\x00\x00\x00\x00\x00\x00\x00\x00\x00\x00\x00\x00\x01\
\x00\x00\x00\x08\x00\x00\x00\x00\x00\x00\x00\x00\
\x00\x00\x00\x14\x00\x00\x00\x00\x00\x00\x00\x00\x00\x00\x00\x01\x00\x00\x00\x00\x00\x00\x00\x01";

/// Runs `tokend serve` in a thread of its own, each seat of which accepts one connection.
pub fn start<R: Threads + Wait + Clock + Copy + Send + Drop + 'static>(
    rt: &HostRuntime,
    threads: R,
    store: &'static str,
    socket: &'static str,
    seed: &'static str,
) -> Result<JoinHandle<Result<Ended, AllocError>>, Fail> {
    start_for(rt, threads, store, socket, seed, "1")
}

/// The same, each seat of which accepts so many connections.
pub fn start_for<R: Threads + Wait + Clock + Copy + Send + Drop + 'static>(
    rt: &HostRuntime,
    threads: R,
    store: &'static str,
    socket: &'static str,
    seed: &'static str,
    connections: &'static str,
) -> Result<JoinHandle<Result<Ended, AllocError>>, Fail> {
    fs::write(rt, seed, &[0u8; 32])?;
    let files = *rt;
    let daemon = move || serve_for(&files, threads, store, socket, seed, connections);
    Ok(thread::spawn(&threads, daemon)?)
}

/// Runs `tokend serve`, each seat of which accepts one connection, until it ends.
pub fn serve<R: Threads + Wait + Clock + Copy + Send + Drop + 'static>(
    rt: &HostRuntime,
    threads: R,
    store: &str,
    socket: &str,
    seed: &str,
) -> Result<Ended, AllocError> {
    serve_for(rt, threads, store, socket, seed, "1")
}

fn serve_for<R: Threads + Wait + Clock + Copy + Send + Drop + 'static>(
    rt: &HostRuntime,
    threads: R,
    store: &str,
    socket: &str,
    seed: &str,
    connections: &str,
) -> Result<Ended, AllocError> {
    let words = [
        "serve",
        "--store",
        store,
        "--socket",
        socket,
        "--seed-file",
        seed,
        "--connections",
        connections,
        "--log",
        "error",
    ];
    run(rt, threads, &words, b"")
}

/// Connects to a socket, which may come to be within 10,000 milliseconds.
pub fn connect(rt: &HostRuntime, socket: &str) -> Result<UnixStream, Fail> {
    for _ in 0..10_000 {
        if let Ok(stream) = UnixStream::connect(rt, socket) {
            return Ok(stream);
        }
        thread::sleep(rt, Duration::from_millis(1));
    }
    Err("nobody listens".into())
}

/// Sees that an application of its own is answered these bytes.
pub fn expect(rt: &HostRuntime, socket: &str, frames: &[u8], replies: &[u8]) -> Result<(), Fail> {
    let mut stream = connect(rt, socket)?;
    stream.write_all(frames)?;
    let mut got = vec![in rt.alloc(); 0u8; replies.len()]?;
    stream.read_exact(&mut got)?;
    if got.as_slice() == replies {
        Ok(())
    } else {
        Err("other replies".into())
    }
}

/// Sees how a run ended, and what it wrote.
pub fn expect_ended(ended: &Ended, status: u8, output: &[u8], errors: &[u8]) -> Result<(), Fail> {
    if has_ended_so(ended, status, output, errors) {
        Ok(())
    } else {
        Err(Fail::new(format_args!("status {}, not {status}, or other texts", ended.status)))
    }
}

/// Sees that a daemon ended as asked.
pub fn expect_end<R: Threads + Drop>(
    threads: R,
    daemon: JoinHandle<Result<Ended, AllocError>>,
) -> Result<(), Fail> {
    let ended = daemon.join(&threads)?;
    expect_ended(&ended, 0, b"ready\n", b"")
}

/// Sees that a daemon is refused, and what it reports: the failure, and its cause.
pub fn expect_refused(
    rt: &HostRuntime,
    ended: Ended,
    status: u8,
    failure: &str,
    because: &str,
) -> Result<(), Fail> {
    let wanted = format!(in rt.alloc(); "tokend: {failure}\ntokend: because {because}\n")?;
    expect_ended(&ended, status, b"", wanted.as_bytes())
}
