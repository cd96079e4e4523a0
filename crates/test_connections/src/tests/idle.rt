//! Connections of which nothing comes.

use std::os::unix::net::UnixStream;
use std::test::*;
use test_daemons::{
    Found, OPEN_SESSION, SESSION_ONE, ask_all, clear, encrypt_all, expect_end, join_all, look,
    start_with,
};
use test_scripts::{FIRST_REPLIES, FIRST_RUN};

const IDLE: &[&str] = &["idle.seed", "idle.sock"];

/// Waits at most 25 seconds until all these are ended, while the others are busy.
fn wait_for_ends(
    rt: &HostRuntime,
    idle: &mut [UnixStream],
    busy: &mut [UnixStream],
) -> Result<(), Fail> {
    for _ in 0..500 {
        encrypt_all(rt, busy)?;
        let mut is_over = true;
        for peer in idle.iter_mut() {
            match look(peer, 10)? {
                Found::End => {}
                Found::Nothing => is_over = false,
                Found::Byte => return Err("an idle connection was answered".into()),
            }
        }
        if is_over {
            return encrypt_all(rt, busy);
        }
    }
    Err("idle connections are not ended".into())
}

/// Each seat has one that is idle and one that is busy. A connection is idle after three seconds, so that a machine that is slow
/// doesn't make a busy one idle.
#[test]
fn idle_connections_are_ended_and_busy_ones_go_on(rt: HostRuntime) -> Result<(), Fail> {
    clear(&rt, IDLE);
    let options = ("2", "2", "3");
    let daemon = start_with(&rt, rt, "idle.sock", "idle.seed", options)?;
    let mut idle = join_all(&rt, "idle.sock", 4)?;
    ask_all(&rt, &mut idle, OPEN_SESSION, SESSION_ONE)?;
    let mut busy = join_all(&rt, "idle.sock", 4)?;
    ask_all(&rt, &mut busy, FIRST_RUN, FIRST_REPLIES)?;
    wait_for_ends(&rt, &mut idle, &mut busy)?;
    drop(idle);
    drop(busy);
    expect_end(rt, daemon)?;
    clear(&rt, IDLE);
    Ok(())
}
