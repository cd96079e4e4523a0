//! Peers of the daemon that cut their streams, send lengths above the limit, or disconnect before their reply.

use ck_calls::Reply;
use ck_types::Rv;
use door::Free;
use hall::SeatEvent;
use hall_sockets::{Loads, Settings, Shared, SocketSeat, Sockets};
use log::sink::Discard;
use std::alloc::Global;
use std::io::{Read, Write};
use std::net::Shutdown;
use std::os::unix::net::{UnixListener, UnixStream};
use std::sync::Arc;
use std::sync::atomic::{AtomicBool, Ordering};
use std::test::*;
use test_daemons::{OPEN_SESSION, SESSION_ONE, clear, connect, expect, expect_end, start_for};
use test_scripts::{FIRST_REPLIES, FIRST_RUN};

/// The files of each test.
const CUT: &[&str] = &["cut.seed", "cut.sock"];

const TOO_LONG: &[&str] = &["long.seed", "long.sock"];

const UNREAD: &[&str] = &["unread.sock"];

const STOPPED: &[&str] = &["stopped.sock"];

/// All that is answered to a connection of which these bytes come and no more.
fn answered(rt: &HostRuntime, socket: &str, sent: &[u8]) -> Result<Vec<u8>, Fail> {
    let mut stream = connect(rt, socket)?;
    stream.write_all(sent)?;
    stream.shutdown(Shutdown::Write)?;
    let mut got = Vec::new(rt.alloc());
    stream.read_to_end(&mut got)?;
    Ok(got)
}

/// How many bytes of the first run's replies answer its whole frames among so many bytes.
fn replied(cut: usize) -> usize {
    let mut len = 0;
    for (calls, replies) in [(22, 20), (121, 40), (156, 52), (199, 85)] {
        if calls <= cut {
            len = replies;
        }
    }
    len
}

#[test]
fn a_stream_that_is_cut_gets_the_replies_of_its_whole_frames(rt: HostRuntime) -> Result<(), Fail> {
    clear(&rt, CUT);
    // 200 connections, after each number of bytes from 0 to 199.
    let daemon = start_for(&rt, rt, ":memory:", "cut.sock", "cut.seed", "50")?;
    for cut in 0..200 {
        let got = answered(&rt, "cut.sock", FIRST_RUN.get(..cut).unwrap_or(&[]))?;
        let is_so = FIRST_REPLIES.get(..replied(cut)) == Some(got.as_slice());
        assert!(rt; is_so, "after {cut} bytes");
    }
    expect_end(rt, daemon)?;
    clear(&rt, CUT);
    Ok(())
}

#[test]
fn a_length_above_the_limit_ends_its_connection_alone(rt: HostRuntime) -> Result<(), Fail> {
    clear(&rt, TOO_LONG);
    let daemon = start_for(&rt, rt, ":memory:", "long.sock", "long.seed", "1")?;
    for length in [
        b"\x00\x10\x00\x01",
        b"\x7f\xff\xff\xff",
        b"\xff\xff\xff\xff",
    ] {
        let mut sent = Vec::from_slice(rt.alloc(), OPEN_SESSION)?;
        sent.extend_from_slice(length)?;
        sent.extend_from_slice(OPEN_SESSION)?;
        let got = answered(&rt, "long.sock", &sent)?;
        assert_eq!(rt; got.as_slice(), SESSION_ONE);
    }
    expect(&rt, "long.sock", FIRST_RUN, FIRST_REPLIES)?;
    expect_end(rt, daemon)?;
    clear(&rt, TOO_LONG);
    Ok(())
}

/// What a seat puts, and of which application.
#[derive(Clone, Copy, Debug, PartialEq, Eq)]
enum Asks {
    Call(u64),
    Gone(u64),
    Nothing,
}

fn what_is_asked(event: Option<SeatEvent>) -> Asks {
    match event {
        Some(SeatEvent::Call(call)) => {
            let app = call.app;
            drop(call);
            Asks::Call(app)
        }
        Some(SeatEvent::Gone { app }) => Asks::Gone(app),
        None => Asks::Nothing,
    }
}

/// A peer that has sent two calls.
fn send_twice(rt: &HostRuntime, socket: &str) -> Result<UnixStream, Fail> {
    let mut peer = UnixStream::connect(rt, socket)?;
    peer.write_all(OPEN_SESSION)?;
    peer.write_all(OPEN_SESSION)?;
    Ok(peer)
}

/// A seat of one place on a socket, with number 3, which has so many connections.
fn seat_on(
    rt: &HostRuntime,
    path: &str,
    connections: u64,
    is_stopping: Arc<AtomicBool, Global>,
) -> Result<SocketSeat<UnixStream, Discard, HostRuntime>, Fail> {
    let alloc = rt.alloc();
    let mut listeners = Vec::new(alloc);
    listeners.push(UnixListener::bind(rt, path)?)?;
    let shared = Shared {
        is_stopping,
        loads: Arc::new(alloc, Loads::new())?,
        sockets: Arc::new(alloc, Sockets::new(Vec::new(alloc)))?,
        listeners,
    };
    let settings = Settings {
        seed: [0; 32],
        clients: 1,
        connections,
        idle: None,
    };
    Ok(SocketSeat::new(rt, alloc, *rt, Discard, shared, &settings, 3)?)
}

/// What a seat puts whose peer disconnects before its reply: before that, and after.
fn asked_of(
    rt: &HostRuntime,
    seat: &mut SocketSeat<UnixStream, Discard, HostRuntime>,
) -> Result<(Asks, Asks, Asks), Fail> {
    let peer = send_twice(rt, "unread.sock")?;
    let first = match seat.next_event(&Free) {
        Some(SeatEvent::Call(call)) => {
            let app = call.app;
            drop(call);
            drop(peer);
            seat.take_reply(&Free, app, Reply::Code(Rv::Ok));
            Asks::Call(app)
        }
        other => what_is_asked(other),
    };
    let then = what_is_asked(seat.next_event(&Free));
    Ok((first, then, what_is_asked(seat.next_event(&Free))))
}

#[test]
fn a_reply_that_cannot_be_written_is_followed_by_gone(rt: HostRuntime) -> Result<(), Fail> {
    clear(&rt, UNREAD);
    let is_stopping = Arc::new(rt.alloc(), AtomicBool::new(false))?;
    let mut seat = seat_on(&rt, "unread.sock", 1, is_stopping)?;
    let asked = asked_of(&rt, &mut seat);
    let has_failed = seat.has_failed();
    drop(seat);
    clear(&rt, UNREAD);
    assert!(rt; !has_failed);
    assert!(rt; asked? == (Asks::Call(3), Asks::Gone(3), Asks::Nothing));
    Ok(())
}

/// What a seat does that is stopped while a connection waits, and how it ended.
fn stopped(rt: &HostRuntime) -> Result<(Asks, Asks, Asks, bool), Fail> {
    let is_stopping = Arc::new(rt.alloc(), AtomicBool::new(false))?;
    let told = Arc::try_clone(&is_stopping)?;
    let mut seat = seat_on(rt, "stopped.sock", 5, is_stopping)?;
    let peer = send_twice(rt, "stopped.sock")?;
    let first = match seat.next_event(&Free) {
        Some(SeatEvent::Call(call)) => {
            let app = call.app;
            drop(call);
            told.store(true, Ordering::SeqCst);
            seat.take_reply(&Free, app, Reply::Code(Rv::Ok));
            Asks::Call(app)
        }
        other => what_is_asked(other),
    };
    let then = what_is_asked(seat.next_event(&Free));
    drop(peer);
    Ok((
        first,
        then,
        what_is_asked(seat.next_event(&Free)),
        seat.has_failed(),
    ))
}

#[test]
fn a_seat_that_is_told_to_stop_reads_and_accepts_no_more(rt: HostRuntime) -> Result<(), Fail> {
    clear(&rt, STOPPED);
    let ended = stopped(&rt);
    clear(&rt, STOPPED);
    // The second call is not put, though it has come, and the seat is over before its five connections.
    assert!(rt; ended? == (Asks::Call(3), Asks::Gone(3), Asks::Nothing, false));
    Ok(())
}
