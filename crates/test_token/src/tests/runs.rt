//! Whole lists of events.

use std::test::*;
use test_scripts::given::*;
use test_scripts::{Row, Step, Told, play, run};

/// A job waits while others call. A result without a pending call is passed over. An application that disconnects takes its job
/// along.
const ROWS: &[Row] = &[
    (A, OPEN, Told::Session(1)),
    (B, OPEN, Told::Session(1)),
    (A, Step::CreateObject(1, TOKEN_KEY), Told::Object(1)),
    (B, Step::CreateObject(1, TOKEN_KEY), Told::Object(1)),
    (A, Step::EncryptInit(1, ECB, 1), OK),
    (B, Step::EncryptInit(1, ECB, 1), OK),
    (A, Step::Encrypt(1, TEXT, Some(16)), Told::Nothing),
    (B, Step::Encrypt(1, TEXT, Some(16)), Told::Nothing),
    (A, Step::CloseSession(1), FAILED),
    (B, Step::Goes, Told::Nothing),
    (B, Step::Finish, Told::Nothing),
    (A, Step::Finish, CIPHERTEXT),
    (A, Step::Finish, Told::Nothing),
    (A, Step::CloseSession(1), OK),
];

#[test]
fn a_run_gives_each_reply_to_its_application(rt: HostRuntime) -> Result<(), Fail> {
    run(rt.alloc(), ROWS)
}

#[test]
fn events_in_turn_give_what_a_run_gives(rt: HostRuntime) -> Result<(), Fail> {
    play(rt.alloc(), ROWS)
}
