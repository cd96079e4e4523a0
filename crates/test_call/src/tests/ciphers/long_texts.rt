//! Long texts: in parts as at once, by each mechanism both ways, in one list of events.

use std::test::*;
use test_scripts::{NewToken, expect_each_mechanism, expect_long_chain};

#[test]
fn a_long_text_in_4000_pieces_is_chained_as_at_once(rt: HostRuntime) -> Result<(), Fail> {
    expect_long_chain(&NewToken, rt.alloc())
}

#[test]
fn a_text_in_pieces_is_by_each_mechanism_as_at_once(rt: HostRuntime) -> Result<(), Fail> {
    expect_each_mechanism(&NewToken, rt.alloc())
}
