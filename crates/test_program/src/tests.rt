ghost use Rattle.std.specs.Prelude.{None};

mod daemon;
mod operating;
mod options;
mod statuses;

use commands::{ask, refuse_args};
use std::alloc::Global;
use std::io::{self, Error, ErrorKind, Read, Write};
use std::test::*;
use test_daemons::{OPEN_SESSION, SESSION_ONE, expect_refusal, expect_run, run};
use test_scripts::{FIRST_REPLIES, FIRST_RUN};

#[test]
fn stdio_answers_the_first_run_byte_for_byte(rt: HostRuntime) -> Result<(), Fail> {
    expect_run(&rt, rt, &["stdio"], FIRST_RUN, (0, FIRST_REPLIES, b""))
}

/// C_GetObjectSize of the first run's key, and C_GetAttributeValue of its CKA_UNIQUE_ID.
const SIZE_AND_IDENTIFIER: &[u8] =
    b"\x00\x00\x00\x12\x00\x10\x00\x00\x00\x00\x00\x00\x00\x01\x00\x00\x00\x00\x00\x00\x00\x01\
\x00\x00\x00\x27\x00\x11\x00\x00\x00\x00\x00\x00\x00\x01\x00\x00\x00\x00\x00\x00\x00\x01\
\x00\x00\x00\x01\x00\x00\x00\x00\x00\x00\x00\x04\x01\x00\x00\x00\x00\x00\x00\x00\x40";

/// 309 bytes, and the first random bytes of application 0 in hexadecimal.
const KEY_REPLIES: &[u8] =
    b"\x00\x00\x00\x10\x00\x00\x00\x00\x00\x00\x00\x00\x00\x00\x00\x00\x00\x00\x01\x35\
\x00\x00\x00\x35\x00\x00\x00\x00\x00\x00\x00\x00\x00\x00\x00\x01\x00\x00\x00\x00\x00\x00\x00\x20\x01\
76b8e0ada0f13d90405d6ae55386bd28";

#[test]
fn stdio_answers_the_size_and_the_identifier_of_a_key(rt: HostRuntime) -> Result<(), Fail> {
    let mut calls = Vec::from_slice(rt.alloc(), FIRST_RUN)?;
    calls.extend_from_slice(SIZE_AND_IDENTIFIER)?;
    let mut replies = Vec::from_slice(rt.alloc(), FIRST_REPLIES)?;
    replies.extend_from_slice(KEY_REPLIES)?;
    expect_run(&rt, rt, &["stdio"], &calls, (0, &replies, b""))
}

/// A frame that is cut, and lengths above the limit, and what is reported of each.
const ENDINGS: &[(&[u8], &str)] = &[
    (b"\x00\x00\x00\x12\x00", "the input ends within a frame"),
    (b"\x00\x10\x00\x01", "a frame is too long"),
    (b"\xff\xff\xff\xff", "a frame is too long"),
];

#[test]
fn a_line_that_ends_badly_has_its_status_and_text(rt: HostRuntime) -> Result<(), Fail> {
    for (ending, because) in ENDINGS {
        let mut input = Vec::from_slice(rt.alloc(), OPEN_SESSION)?;
        input.extend_from_slice(ending)?;
        expect_refusal(
            &rt,
            rt,
            &["stdio"],
            &input,
            (7, SESSION_ONE, "the line ended badly", *because),
        )?;
    }
    Ok(())
}

#[test]
fn a_seed_is_64_hexadecimal_digits(rt: HostRuntime) -> Result<(), Fail> {
    let digits = "000102030405060708090a0b0c0d0e0f101112131415161718191A1B1C1D1E1F";
    expect_run(
        &rt,
        rt,
        &["stdio", "--seed", digits],
        OPEN_SESSION,
        (0, SESSION_ONE, b""),
    )?;
    for seed in [
        "",
        "0g",
        "00",
        "000102030405060708090a0b0c0d0e0f101112131415161718191a1b1c1d1e1f00",
    ] {
        let because = "--seed is not 64 hexadecimal digits";
        expect_refusal(
            &rt,
            rt,
            &["stdio", "--seed", seed],
            OPEN_SESSION,
            (5, b"", "bad input", because),
        )?;
    }
    Ok(())
}

#[test]
fn help_and_version_go_to_the_output(rt: HostRuntime) -> Result<(), Fail> {
    for word in ["--help", "--version"] {
        let ended = run(&rt, rt, &[word], &[])?;
        assert_eq!(rt; ended.status, 0);
        assert!(rt; !ended.output.is_empty());
        assert_eq!(rt; ended.errors.len(), 0);
    }
    expect_run(&rt, rt, &["--version"], b"", (0, b"tokend 0.1.0\n", b""))
}

/// A command line that is refused, and the parser's text.
const REFUSED: &[(&[&str], &[u8])] = &[
    (
        &[],
        b"error: 'tokend' requires a subcommand but one was not provided
  [subcommands: stdio, serve, p11call, status, check, backup, compact, restore, unlock, help]

Usage: tokend <COMMAND>

For more information, try '--help'.
",
    ),
    (
        &["serve"],
        b"error: the following required arguments were not provided:
  --store <store>
  --socket <socket>

Usage: tokend serve --store <store> --socket <socket>

For more information, try '--help'.
",
    ),
    (
        &["stdio", "--sed"],
        b"error: unexpected argument '--sed' found

  tip: a similar argument exists: '--seed'

Usage: tokend stdio --seed <seed>

For more information, try '--help'.
",
    ),
    (
        &["stdio", "more"],
        b"error: unexpected argument 'more' found

Usage: tokend stdio [OPTIONS]

For more information, try '--help'.
",
    ),
    (
        &["p11call", "--socket"],
        b"error: a value is required for '--socket <socket>' but none was supplied

For more information, try '--help'.
",
    ),
];

#[test]
fn a_command_line_that_is_refused_says_why(rt: HostRuntime) -> Result<(), Fail> {
    for (line, text) in REFUSED {
        expect_run(&rt, rt, line, OPEN_SESSION, (2, b"", *text))?;
    }
    Ok(())
}

/// Why the arguments can't be read, the exit status, and the text.
const REFUSALS: &[(ErrorKind, u8, &[u8])] = &[
    (ErrorKind::OutOfMemory, 6, b"tokend: out of memory\n"),
    (
        ErrorKind::InvalidData,
        2,
        b"tokend: an argument is not UTF-8\n",
    ),
];

#[test]
fn arguments_that_cannot_be_read_have_their_status_and_text(rt: HostRuntime) -> Result<(), Fail> {
    for (kind, status, text) in REFUSALS {
        let mut errors = Vec::<u8>::new(rt.alloc());
        let ended = refuse_args(&Error::from(*kind), &mut errors);
        assert_eq!(rt; ended, *status);
        assert!(rt; errors.as_slice() == *text);
    }
    Ok(())
}

/// A stream that gives these bytes, and takes others.
#[derive(Drop)]
struct Peer<'a> {
    gives: &'a [u8],
    taken: Vec<u8>,
}

impl Read for Peer<'_> {
    ghost remaining = { λ peer. None };

    fn read(&mut self, bytes: &mut [u8]) -> io::Result<usize> {
        self.gives.read(bytes)
    }
}

impl Write for Peer<'_> {
    ghost contents = { λ peer. None };

    fn write(&mut self, bytes: &[u8]) -> io::Result<usize> {
        self.taken.write(bytes)
    }

    fn flush(&mut self) -> io::Result<()> {
        Ok(())
    }
}

/// What `ask` answers, writes and sends to a peer that gives these bytes.
fn asked(alloc: Global, mut input: &[u8], gives: &[u8]) -> Result<(u8, Vec<u8>, Vec<u8>), Fail> {
    let mut output = Vec::<u8>::new(alloc);
    let mut peer = Peer {
        gives,
        taken: Vec::new(alloc),
    };
    let status = ask(alloc, &mut input, &mut output, &mut peer);
    Ok((status, output, peer.taken))
}

/// Lines of an input, what the peer gives, and the status and the lines of the output.
const ASKED: &[(&[u8], &[u8], u8, &[u8])] = &[
    (b"", b"", 0, b""),
    (b"000\n", SESSION_ONE, 5, b""),
    (b"0007 0000", SESSION_ONE, 5, b""),
    (b"xy\n", SESSION_ONE, 5, b""),
    (
        b"000700000000000000000000000000000006\n",
        SESSION_ONE,
        0,
        b"00000000000000000000000000000001\n",
    ),
    (
        b"00070000000000000000000000000000000A\r\nAF",
        b"\x00\x00\x00\x01\xAB\x00\x00\x00\x02\xcd\xef",
        0,
        b"ab\ncdef\n",
    ),
    (
        b"0007\n0008\n",
        b"\x00\x00\x00\x01\xAB\x00\x00\x00\x02\xcd",
        4,
        b"ab\n",
    ),
    (b"0007\n", b"\xff\xff\xff\xff", 4, b""),
];

#[test]
fn calls_are_asked_in_hexadecimal(rt: HostRuntime) -> Result<(), Fail> {
    for (input, gives, status, output) in ASKED {
        let ended = asked(rt.alloc(), input, gives)?;
        let is_so = ended.0 == *status && ended.1.as_slice() == *output;
        assert!(rt; is_so, "{input:?}");
    }
    Ok(())
}

#[test]
fn a_call_is_sent_as_a_frame(rt: HostRuntime) -> Result<(), Fail> {
    let line = b"000700000000000000000000000000000006\n";
    let (_, _, sent) = asked(rt.alloc(), line, SESSION_ONE)?;
    assert!(rt; sent.as_slice() == OPEN_SESSION);
    Ok(())
}

#[test]
fn a_socket_that_is_not_there_has_its_status_and_text(rt: HostRuntime) -> Result<(), Fail> {
    let words = ["p11call", "--socket", "/nowhere/tokend"];
    let because = "--socket cannot be used: No such file or directory (os error 2)";
    expect_refusal(
        &rt,
        rt,
        &words,
        b"",
        (4, b"", "cannot use the socket", because),
    )
}
