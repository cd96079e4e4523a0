//! A connection more than there are places.

use std::io::Write;
use std::os::unix::net::UnixStream;
use std::test::*;
use test_daemons::{
    Found, OPEN_SESSION, Options, SESSION_ONE, SESSION_TWO, ask_all, clear, expect_end, hear, join,
    join_all, look, pass_by, start_with,
};

/// How many connections are at once, the options of the daemon, its socket, and the file of its seed. Each seat ends after one
/// connection more than it has places.
type Case = (usize, Options, &'static str, &'static str);

const CASES: &[Case] = &[
    (4, ("1", "2", ""), "four_at.sock", "four_at.seed"),
    (8, ("2", "3", ""), "eight_at.sock", "eight_at.seed"),
    (256, ("64", "65", ""), "all_at.sock", "all_at.seed"),
];

/// One more waits without an answer while all are there, and is served once one of them has left.
fn expect_wait(
    rt: &HostRuntime,
    socket: &str,
    peers: &mut Vec<UnixStream>,
) -> Result<UnixStream, Fail> {
    let mut more = join(rt, socket)?;
    more.write_all(OPEN_SESSION)?;
    let found = look(&mut more, 500)?;
    if found != Found::Nothing {
        return Err(Fail::new(format_args!("of one that is to wait: {found:?}")));
    }
    ask_all(rt, peers, OPEN_SESSION, SESSION_TWO)?;
    drop(peers.pop());
    hear(rt, &mut more, SESSION_ONE)?;
    Ok(more)
}

#[test]
fn one_more_than_there_are_places_waits_for_one_to_leave(rt: HostRuntime) -> Result<(), Fail> {
    for (count, options, socket, seed) in CASES {
        clear(&rt, &[*socket, *seed]);
        let daemon = start_with(&rt, rt, *socket, *seed, *options)?;
        let mut peers = join_all(&rt, *socket, *count)?;
        ask_all(&rt, &mut peers, OPEN_SESSION, SESSION_ONE)?;
        let more = expect_wait(&rt, *socket, &mut peers)?;
        drop(more);
        drop(peers);
        pass_by(&rt, *socket, 3)?;
        expect_end(rt, daemon)?;
        clear(&rt, &[*socket, *seed]);
    }
    Ok(())
}
