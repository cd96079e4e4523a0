//! 256 connections at once.

use std::test::*;
use test_daemons::{ask_all, clear, expect_end, join_all, start_with};
use test_scripts::{FIRST_REPLIES, FIRST_RUN};

const MANY: &[&str] = &["many.seed", "many.sock"];

/// Where each row of the first run stands: its call in the frames, and its reply in the replies.
const ROWS: &[((usize, usize), (usize, usize))] = &[
    ((0, 22), (0, 20)),
    ((22, 121), (20, 40)),
    ((121, 156), (40, 52)),
    ((156, 199), (52, 85)),
];

/// All 256 are connected before the first call, and none leaves before the last reply. In each row all have called before the first
/// reply is read.
#[test]
fn connections_at_once_are_each_answered_every_row(rt: HostRuntime) -> Result<(), Fail> {
    clear(&rt, MANY);
    let options = ("64", "64", "");
    let daemon = start_with(&rt, rt, "many.sock", "many.seed", options)?;
    let mut peers = join_all(&rt, "many.sock", 256)?;
    for ((from, to), (first, last)) in ROWS {
        let call = FIRST_RUN.get(*from..*to).ok_or("no such call")?;
        let reply = FIRST_REPLIES.get(*first..*last).ok_or("no such reply")?;
        ask_all(&rt, &mut peers, call, reply)?;
    }
    drop(peers);
    expect_end(rt, daemon)?;
    clear(&rt, MANY);
    Ok(())
}
