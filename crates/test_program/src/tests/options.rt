//! How many connections there are at once, and how long one may be idle, on the command line.

use std::test::*;
use test_daemons::run;

/// An option, its text, and the status: 5 where the command line is taken, since the file of the seed is not there.
const OPTIONS: &[(&str, &str, u8)] = &[
    ("--clients", "0", 2),
    ("--clients", "1", 5),
    ("--clients", "64", 5),
    ("--clients", "65", 2),
    ("--clients", "18446744073709551617", 2),
    ("--clients", "x", 2),
    ("--clients", "", 2),
    ("--clients", "-1", 2),
    ("--idle", "0", 2),
    ("--idle", "1", 5),
    ("--idle", "1000000000", 5),
    ("--idle", "1000000001", 2),
    ("--idle", "1.5", 2),
    ("--idle", "x", 2),
];

#[test]
fn numbers_of_clients_and_seconds_have_their_limits(rt: HostRuntime) -> Result<(), Fail> {
    for (option, text, status) in OPTIONS {
        let words = [
            "serve",
            "--store",
            ":memory:",
            "--socket",
            "o.sock",
            "--seed-file",
            "/nowhere/seed",
            *option,
            *text,
        ];
        let ended = run(&rt, rt, &words, b"")?;
        assert_eq!(rt; ended.status, *status, "{option} {text}");
        assert_eq!(rt; ended.output.len(), 0);
    }
    Ok(())
}
