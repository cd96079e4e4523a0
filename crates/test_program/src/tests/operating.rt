//! What an operator asks for and gets: modes, lines on standard error, a look through a store, a copy of it.

use std::fs;
use std::fs::Permissions;
use std::os::unix::fs::PermissionsExt;
use std::test::*;
use test_daemons::{
    NEW_OBJECT, NEW_OBJECT_REPLIES, SEARCH, SEARCH_REPLIES, clear, expect, expect_end,
    expect_ended, expect_refused, run, start,
};

/// The files of each test.
const COPIED: &[&str] = &[
    "copied.seed",
    "copied.store",
    "copied.store-wal",
    "copied.sock",
    "copied.copy",
    "copied.copy-wal",
];

const SHARED: &[&str] = &["shared.store", "shared.store-wal", "shared.sock"];

fn mode_of(rt: &HostRuntime, path: &str) -> Result<u32, Fail> {
    Ok(fs::metadata(rt, path)?.permissions().mode() % 0o1000)
}

#[test]
fn a_mode_is_an_octal_number_up_to_777(rt: HostRuntime) -> Result<(), Fail> {
    for text in ["1000", "8", "rw", ""] {
        let words = [
            "serve",
            "--store",
            ":memory:",
            "--socket",
            "m.sock",
            "--socket-mode",
            text,
        ];
        let ended = run(&rt, rt, &words, b"")?;
        let because = "--socket-mode is not a number of up to 777 in octal digits";
        expect_refused(&rt, ended, 2, "the command line is refused", because)?;
    }
    Ok(())
}

#[test]
fn a_socket_has_the_mode_that_is_asked_for(rt: HostRuntime) -> Result<(), Fail> {
    for (text, mode) in [("640", 0o640), ("0600", 0o600), ("7", 0o007)] {
        clear(&rt, &["mode.sock"]);
        let words = [
            "serve",
            "--store",
            ":memory:",
            "--socket",
            "mode.sock",
            "--socket-mode",
            text,
            "--connections",
            "0",
        ];
        let ended = run(&rt, rt, &words, b"")?;
        expect_ended(&ended, 0, b"ready\n", b"")?;
        let found = mode_of(&rt, "mode.sock")?;
        assert_eq!(rt; found, mode);
    }
    clear(&rt, &["mode.sock"]);
    Ok(())
}

#[test]
fn what_is_logged_goes_by_the_level(rt: HostRuntime) -> Result<(), Fail> {
    let started: &[u8] =
        b"<6>tokend: version 0.1.0 serves the store :memory: with 0 objects on log.sock\n";
    let nothing: &[u8] = b"";
    for (level, said) in [("off", nothing), ("warn", nothing), ("info", started)] {
        clear(&rt, &["log.sock"]);
        let words = [
            "serve",
            "--store",
            ":memory:",
            "--socket",
            "log.sock",
            "--log",
            level,
            "--connections",
            "0",
        ];
        let ended = run(&rt, rt, &words, b"")?;
        expect_ended(&ended, 0, b"ready\n", said)?;
    }
    clear(&rt, &["log.sock"]);
    let words = [
        "serve", "--store", ":memory:", "--socket", "log.sock", "--log", "loud",
    ];
    let ended = run(&rt, rt, &words, b"")?;
    assert_eq!(rt; ended.status, 2);
    Ok(())
}

#[test]
fn a_store_that_others_could_read_is_narrowed_and_said(rt: HostRuntime) -> Result<(), Fail> {
    clear(&rt, SHARED);
    let words = [
        "serve",
        "--store",
        "shared.store",
        "--socket",
        "shared.sock",
        "--connections",
        "0",
    ];
    let made = run(&rt, rt, &words, b"")?;
    expect_ended(&made, 0, b"ready\n", b"")?;
    let found = mode_of(&rt, "shared.store")?;
    assert_eq!(rt; found, 0o600);
    fs::set_permissions(&rt, "shared.store", Permissions::from_mode(0o664))?;
    let again = run(&rt, rt, &words, b"")?;
    let said: &[u8] =
        b"<4>tokend: other users could read the store or its log: their modes are those of their owner now\n";
    expect_ended(&again, 0, b"ready\n", said)?;
    let found = mode_of(&rt, "shared.store")?;
    assert_eq!(rt; found, 0o600);
    clear(&rt, SHARED);
    Ok(())
}

/// What a look through a store with one data object prints.
const ONE_OBJECT: &[u8] =
    b"format: 2\npage sums: yes\ndata objects: 1\nsecret keys: 0\nrows that are no token object's: 0\n";

#[test]
fn a_store_is_looked_through_and_copied_whole(rt: HostRuntime) -> Result<(), Fail> {
    clear(&rt, COPIED);
    let daemon = start(&rt, rt, "copied.store", "copied.sock", "copied.seed")?;
    expect(&rt, "copied.sock", NEW_OBJECT, NEW_OBJECT_REPLIES)?;
    // (while it is served)
    let words = ["backup", "--store", "copied.store", "--to", "copied.copy"];
    expect_ended(&run(&rt, rt, &words, b"")?, 0, b"", b"")?;
    let ended = run(&rt, rt, &["check", "--store", "copied.store"], b"")?;
    expect_ended(&ended, 0, ONE_OBJECT, b"")?;
    for _ in 0..3 {
        expect(&rt, "copied.sock", SEARCH, SEARCH_REPLIES)?;
    }
    expect_end(rt, daemon)?;
    let found = mode_of(&rt, "copied.copy")?;
    assert_eq!(rt; found, 0o600);
    for path in ["copied.store", "copied.copy"] {
        let ended = run(&rt, rt, &["check", "--store", path], b"")?;
        expect_ended(&ended, 0, ONE_OBJECT, b"")?;
    }
    let taken = "copied.copy: --to cannot be written: File exists (os error 17)";
    let ended = run(&rt, rt, &words, b"")?;
    expect_refused(&rt, ended, 3, "cannot write the copy", taken)?;
    let daemon = start(&rt, rt, "copied.copy", "copied.sock", "copied.seed")?;
    for _ in 0..4 {
        expect(&rt, "copied.sock", SEARCH, SEARCH_REPLIES)?;
    }
    expect_end(rt, daemon)?;
    clear(&rt, COPIED);
    Ok(())
}

#[test]
fn a_look_through_no_store_says_why(rt: HostRuntime) -> Result<(), Fail> {
    let ended = run(&rt, rt, &["check", "--store", "none.store"], b"")?;
    let missing = "none.store: --store cannot be used: No such file or directory (os error 2)";
    expect_refused(&rt, ended, 3, "cannot open the store", missing)?;
    assert!(rt; fs::metadata(&rt, "none.store").is_err());
    fs::write(&rt, "empty.store", b"".as_slice())?;
    let ended = run(&rt, rt, &["check", "--store", "empty.store"], b"")?;
    assert_eq!(rt; ended.status, 3);
    assert_eq!(rt; fs::metadata(&rt, "empty.store")?.len(), 0);
    clear(&rt, &["empty.store"]);
    Ok(())
}
