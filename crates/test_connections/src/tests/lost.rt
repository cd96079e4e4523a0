//! Peers that are lost while a check of theirs is in progress.

use ck_types::Rv;
use std::alloc::Global;
use std::io::Write;
use std::os::unix::net::UnixStream;
use std::test::*;
use test_daemons::{
    OPEN_SESSION, SESSION_ONE, ask, ask_all, clear, expect_end, join, join_all, pass_by, start_with,
};
use test_scripts::{Step, Told, call_of, reply_of};
use wire::{write_call, write_reply};

const LOST: &[&str] = &["lost.seed", "lost.sock"];

const NAME: &[u8] = b"the token of the tests          ";

const PIN: &[u8] = b"so-pin";

const DONE: Told = Told::Code(Rv::Ok);

/// What makes a token with the SO's PIN, and its flags then.
const SET_UP: &[(Step, Told)] = &[
    (Step::InitToken(0, PIN, NAME), DONE),
    (Step::GetTokenInfo(0), Told::TokenInfo(NAME, 0x405, 0, 0)),
];

/// What another application finds: a try, and none once it has checked the right PIN.
const AFTER: &[(Step, Told)] = &[
    (
        Step::GetTokenInfo(0),
        Told::TokenInfo(NAME, 0x10_0405, 0, 0),
    ),
    (Step::OpenSession(0, 6), Told::Session(1)),
    (Step::Login(1, 0, PIN), DONE),
    (Step::GetTokenInfo(0), Told::TokenInfo(NAME, 0x405, 1, 1)),
];

/// The frame of a step's call.
fn frame_of(alloc: Global, step: Step) -> Result<Vec<u8>, Fail> {
    let call = call_of(alloc, step)?;
    let frame = write_call(alloc, &call);
    drop(call);
    Ok(frame?)
}

/// The frame of a reply.
fn reply_frame(alloc: Global, told: Told) -> Result<Vec<u8>, Fail> {
    let Some(reply) = reply_of(alloc, told)? else {
        return Err("no reply is given".into());
    };
    let frame = write_reply(alloc, &reply);
    drop(reply);
    Ok(frame?)
}

/// Sees that steps are answered so.
fn play(rt: &HostRuntime, peer: &mut UnixStream, rows: &[(Step, Told)]) -> Result<(), Fail> {
    for (step, told) in rows {
        let call = frame_of(rt.alloc(), *step)?;
        let reply = reply_frame(rt.alloc(), *told)?;
        ask(rt, peer, &call, &reply)?;
    }
    Ok(())
}

/// A peer that checks a wrong PIN, and leaves before it is answered.
fn lose_one(rt: &HostRuntime) -> Result<(), Fail> {
    let mut peer = join(rt, "lost.sock")?;
    ask(rt, &mut peer, OPEN_SESSION, SESSION_ONE)?;
    peer.write_all(&frame_of(rt.alloc(), Step::Login(1, 0, b"wrong"))?)?;
    Ok(())
}

/// Three connections stay at three of the four places. So two others come to the fourth, the second one once the first is gone. That
/// ten lost ones lock a PIN is seen from outside (`tests/many.py`), since checks of PINs are slow in a build for tests.
#[test]
fn a_check_of_a_peer_that_is_lost_stays_a_try(rt: HostRuntime) -> Result<(), Fail> {
    clear(&rt, LOST);
    let options = ("1", "2", "");
    let daemon = start_with(&rt, rt, "lost.sock", "lost.seed", options)?;
    let mut first = join(&rt, "lost.sock")?;
    play(&rt, &mut first, SET_UP)?;
    let mut staying = join_all(&rt, "lost.sock", 2)?;
    ask_all(&rt, &mut staying, OPEN_SESSION, SESSION_ONE)?;
    lose_one(&rt)?;
    let mut next = join(&rt, "lost.sock")?;
    play(&rt, &mut next, AFTER)?;
    drop(next);
    drop(first);
    drop(staying);
    pass_by(&rt, "lost.sock", 3)?;
    expect_end(rt, daemon)?;
    clear(&rt, LOST);
    Ok(())
}
