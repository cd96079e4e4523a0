//! The daemon: its socket, its store and what it refuses.

use std::fs;
use std::os::unix::fs::PermissionsExt;
use std::test::*;
use test_daemons::{
    NEW_OBJECT, NEW_OBJECT_REPLIES, SEARCH, SEARCH_REPLIES, clear, expect, expect_end,
    expect_refused, run, serve, start,
};
use test_scripts::{FIRST_REPLIES, FIRST_RUN};

/// The files of each test.
const FOUR: &[&str] = &["four.seed", "four.store", "four.store-wal", "four.sock"];

const STAYS: &[&str] = &["stays.seed", "stays.store", "stays.store-wal", "stays.sock"];

const FAULTS: &[&str] = &["short.seed", "faults.seed", "no.store", "no.store-wal"];

/// What is reported where the socket's path is taken.
const TAKEN: &str = "another program listens on --socket, or its file is no socket";

#[test]
fn four_connections_are_four_applications(rt: HostRuntime) -> Result<(), Fail> {
    clear(&rt, FOUR);
    let daemon = start(&rt, rt, "four.store", "four.sock", "four.seed")?;
    for _ in 0..4 {
        expect(&rt, "four.sock", FIRST_RUN, FIRST_REPLIES)?;
    }
    let mode = fs::metadata(&rt, "four.sock")?.permissions().mode();
    assert_eq!(rt; mode % 0o1000, 0o600);
    expect_end(rt, daemon)?;
    clear(&rt, FOUR);
    Ok(())
}

#[test]
fn a_store_in_a_file_stays(rt: HostRuntime) -> Result<(), Fail> {
    clear(&rt, STAYS);
    let daemon = start(&rt, rt, "stays.store", "stays.sock", "stays.seed")?;
    expect(&rt, "stays.sock", NEW_OBJECT, NEW_OBJECT_REPLIES)?;
    let second = serve(&rt, rt, "stays.store", "second.sock", "stays.seed")?;
    expect_refused(
        &rt,
        second,
        3,
        "cannot open the store",
        "stays.store: another program has the store open: stop a daemon by systemctl stop tokend.socket tokend, or its instance's units",
    )?;
    let third = serve(&rt, rt, ":memory:", "stays.sock", "stays.seed")?;
    expect_refused(&rt, third, 4, "cannot use the socket", TAKEN)?;
    for _ in 0..2 {
        expect(&rt, "stays.sock", SEARCH, SEARCH_REPLIES)?;
    }
    expect_end(rt, daemon)?;
    // The socket's file is still there, and nobody listens.
    let daemon = start(&rt, rt, "stays.store", "stays.sock", "stays.seed")?;
    for _ in 0..4 {
        expect(&rt, "stays.sock", SEARCH, SEARCH_REPLIES)?;
    }
    expect_end(rt, daemon)?;
    clear(&rt, STAYS);
    Ok(())
}

#[test]
fn a_daemon_is_refused_for_its_first_fault(rt: HostRuntime) -> Result<(), Fail> {
    clear(&rt, FAULTS);
    fs::write(&rt, "short.seed", &[0u8; 31])?;
    fs::write(&rt, "no.store", b"no store of a token")?;
    let nowhere = "/nowhere/tokend";
    let seed = serve(&rt, rt, "no.store", nowhere, "short.seed")?;
    expect_refused(
        &rt,
        seed,
        5,
        "bad input",
        "--seed-file has fewer than 32 bytes",
    )?;
    let seed = serve(&rt, rt, "no.store", nowhere, nowhere)?;
    let missing = "--seed-file cannot be read: No such file or directory (os error 2)";
    expect_refused(&rt, seed, 5, "bad input", missing)?;
    fs::write(&rt, "faults.seed", &[0u8; 32])?;
    let store = serve(&rt, rt, "no.store", nowhere, "faults.seed")?;
    let no_database =
        "no.store: sqlite refuses the store: file is not a database that obeys its schema";
    expect_refused(&rt, store, 3, "cannot open the store", no_database)?;
    let socket = serve(&rt, rt, ":memory:", nowhere, "faults.seed")?;
    let missing = "--socket cannot be used: No such file or directory (os error 2)";
    expect_refused(&rt, socket, 4, "cannot use the socket", missing)?;
    // A file that is no socket is not removed.
    let file = serve(&rt, rt, ":memory:", "no.store", "faults.seed")?;
    expect_refused(&rt, file, 4, "cannot use the socket", TAKEN)?;
    assert!(rt; fs::metadata(&rt, "no.store").is_ok());
    clear(&rt, FAULTS);
    Ok(())
}

#[test]
fn connections_are_a_number_below_two_to_the_61(rt: HostRuntime) -> Result<(), Fail> {
    for (number, status) in [
        ("0", 5),
        ("2305843009213693951", 5),
        ("2305843009213693952", 2),
        ("many", 2),
        ("-1", 2),
    ] {
        let words = [
            "serve",
            "--store",
            ":memory:",
            "--socket",
            "n.sock",
            "--seed-file",
            "/nowhere/seed",
            "--connections",
            number,
        ];
        let ended = run(&rt, rt, &words, b"")?;
        assert_eq!(rt; ended.status, status, "{number}");
    }
    Ok(())
}
