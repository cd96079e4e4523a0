//! How command lines end whose streams fail, whose lines spell no payload, or that are to serve nobody.

ghost use Rattle.std.specs.Prelude.{None};

use programs::tokend_with;
use std::alloc::{AllocError, Global};
use std::io::{self, ErrorKind, Read, Write};
use std::os::unix::net::UnixStream;
use std::sync::Wait;
use std::test::*;
use std::thread::Threads;
use std::time::Clock;
use test_daemons::{
    Ended, OPEN_SESSION, SESSION_ONE, args_of, clear, expect_end, expect_refusal, expect_run,
    has_ended_so, pass_by, start_with,
};
use test_scripts::{FIRST_REPLIES, FIRST_RUN};

/// The files of each test.
const LINES: &[&str] = &["lines.seed", "lines.sock"];

const BROKEN: &[&str] = &["broken.seed", "broken.sock"];

const NOBODY: &[&str] = &["nobody.sock"];

const NO_ROOM: &[&str] = &["no_room.sock"];

/// Gives these bytes, and then fails.
#[derive(Drop)]
struct BrokenInput<'a>(&'a [u8]);

impl Read for BrokenInput<'_> {
    ghost remaining = { λ input. None };

    fn read(&mut self, bytes: &mut [u8]) -> io::Result<usize> {
        if self.0.is_empty() {
            return Err(ErrorKind::BrokenPipe.into());
        }
        self.0.read(bytes)
    }
}

/// Takes so many bytes, and then fails.
#[derive(Drop)]
struct BrokenOutput {
    taken: Vec<u8>,
    left: usize,
}

impl Write for BrokenOutput {
    ghost contents = { λ output. None };

    fn write(&mut self, bytes: &[u8]) -> io::Result<usize> {
        let count = bytes.len().min(self.left);
        if count == 0 {
            return Err(ErrorKind::BrokenPipe.into());
        }
        let (front, _) = bytes.split_at(count);
        self.taken.extend_from_slice(front)?;
        self.left -= count;
        Ok(count)
    }

    fn flush(&mut self) -> io::Result<()> {
        Ok(())
    }
}

/// What a command line answers whose input gives these bytes, and then fails.
fn run_from<R: Threads + Wait + Clock + Copy + Send + Drop + 'static>(
    rt: &HostRuntime,
    threads: R,
    words: &[&str],
    given: &[u8],
) -> Result<Ended, AllocError> {
    let alloc = rt.alloc();
    let args = args_of(alloc, words)?;
    let mut input = BrokenInput(given);
    let mut output = Vec::<u8>::new(alloc);
    let mut errors = Vec::<u8>::new(alloc);
    let status = tokend_with(rt, threads, &args, &mut input, &mut output, &mut errors);
    Ok(Ended {
        status,
        output,
        errors,
    })
}

/// What a command line answers whose output takes so many bytes, and then fails.
fn run_into<R: Threads + Wait + Clock + Copy + Send + Drop + 'static>(
    rt: &HostRuntime,
    threads: R,
    words: &[&str],
    mut input: &[u8],
    left: usize,
) -> Result<Ended, AllocError> {
    let alloc = rt.alloc();
    let args = args_of(alloc, words)?;
    let mut output = BrokenOutput {
        taken: Vec::new(alloc),
        left,
    };
    let mut errors = Vec::<u8>::new(alloc);
    let status = tokend_with(rt, threads, &args, &mut input, &mut output, &mut errors);
    let BrokenOutput { taken, .. } = output;
    Ok(Ended {
        status,
        output: taken,
        errors,
    })
}

/// Sees that a run ended with status 7 and this output, and what it reported.
fn expect_bad_line(ended: &Ended, output: &[u8], errors: &[u8]) -> Result<(), Fail> {
    if has_ended_so(ended, 7, output, errors) {
        return Ok(());
    }
    let Ended { status, .. } = ended;
    Err(Fail::new(format_args!("status {status}, or other texts: {:?}", ended.errors)))
}

const NOT_READ: &[u8] = b"tokend: the line ended badly\ntokend: because cannot read\n";

const NOT_WRITTEN: &[u8] = b"tokend: the line ended badly\ntokend: because cannot write\n";

/// That a frame is too long, or cut, is in `ENDINGS`.
#[test]
fn a_stream_of_stdio_that_fails_has_its_cause(rt: HostRuntime) -> Result<(), Fail> {
    let ended = run_from(&rt, rt, &["stdio"], OPEN_SESSION)?;
    expect_bad_line(&ended, SESSION_ONE, NOT_READ)?;
    for left in [0, 5, 19, 30] {
        let ended = run_into(&rt, rt, &["stdio"], FIRST_RUN, left)?;
        expect_bad_line(
            &ended,
            FIRST_REPLIES.get(..left).unwrap_or(&[]),
            NOT_WRITTEN,
        )?;
    }
    Ok(())
}

const NO_INPUT: &[u8] =
    b"tokend: the line ended badly\ntokend: because standard input cannot be read: broken pipe\n";

const NO_OUTPUT: &[u8] =
    b"tokend: the line ended badly\ntokend: because standard output cannot be written: broken pipe\n";

/// C_OpenSession as a line, and its reply.
const OPEN_LINE: &[u8] = b"000700000000000000000000000000000006\n";

const SESSION_LINE: &[u8] = b"00000000000000000000000000000001\n";

#[test]
fn a_stream_of_another_command_that_fails_has_its_cause(rt: HostRuntime) -> Result<(), Fail> {
    clear(&rt, BROKEN);
    let help = run_into(&rt, rt, &["--help"], b"", 7)?;
    expect_bad_line(&help, b"A PKCS ", b"")?;
    let options = ("4", "1", "");
    let daemon = start_with(&rt, rt, "broken.sock", "broken.seed", options)?;
    pass_by(&rt, "broken.sock", 1)?;
    let call = ["p11call", "--socket", "broken.sock"];
    let ended = run_from(&rt, rt, &call, OPEN_LINE)?;
    expect_bad_line(&ended, SESSION_LINE, NO_INPUT)?;
    let ended = run_into(&rt, rt, &call, OPEN_LINE, 32)?;
    expect_bad_line(&ended, SESSION_LINE.get(..32).unwrap_or(&[]), NO_OUTPUT)?;
    pass_by(&rt, "broken.sock", 1)?;
    expect_end(rt, daemon)?;
    clear(&rt, BROKEN);
    let serve = [
        "serve",
        "--store",
        ":memory:",
        "--socket",
        "broken.sock",
        "--connections",
        "0",
    ];
    let ended = run_into(&rt, rt, &serve, b"", 5)?;
    expect_bad_line(&ended, b"ready", NO_OUTPUT)?;
    clear(&rt, BROKEN);
    Ok(())
}

/// A line of zeros that spells so many bytes.
fn line_of(alloc: Global, len: usize) -> Result<Vec<u8>, Fail> {
    let mut line = Vec::new(alloc);
    line.resize(len.saturating_mul(2), b'0')?;
    line.push(b'\n')?;
    Ok(line)
}

/// The reply to a payload of zeros: CKR_FUNCTION_NOT_SUPPORTED.
const NO_FUNCTION: &[u8] = b"0000000000000054\n";

/// Sees that the second line is refused, and that the reply to the first one stays printed.
fn expect_second_refused<R: Threads + Wait + Clock + Copy + Send + Drop + 'static>(
    rt: &HostRuntime,
    threads: R,
    (first, reply): (&[u8], &[u8]),
    second: &[u8],
) -> Result<(), Fail> {
    let mut input = Vec::from_slice(rt.alloc(), first)?;
    input.extend_from_slice(second)?;
    let words = ["p11call", "--socket", "lines.sock"];
    let because = "line 2 of the input is no payload in hexadecimal";
    expect_refusal(
        rt,
        threads,
        &words,
        &input,
        (5, reply, "bad input", because),
    )
}

#[test]
fn a_line_that_spells_no_payload_ends_the_calls(rt: HostRuntime) -> Result<(), Fail> {
    clear(&rt, LINES);
    let options = ("4", "1", "");
    let daemon = start_with(&rt, rt, "lines.sock", "lines.seed", options)?;
    pass_by(&rt, "lines.sock", 1)?;
    let opens = (OPEN_LINE, SESSION_LINE);
    expect_second_refused(&rt, rt, opens, b"0007000000000000000000000000000000000g\n")?;
    expect_second_refused(&rt, rt, opens, b"000\n")?;
    // As long as a payload may be, and a byte longer.
    let longest = line_of(rt.alloc(), 1_048_576)?;
    let longer = line_of(rt.alloc(), 1_048_577)?;
    expect_second_refused(&rt, rt, (&longest, NO_FUNCTION), &longer)?;
    expect_end(rt, daemon)?;
    clear(&rt, LINES);
    Ok(())
}

#[test]
fn a_daemon_of_no_connections_serves_nobody(rt: HostRuntime) -> Result<(), Fail> {
    clear(&rt, NOBODY);
    let words = [
        "serve",
        "--store",
        ":memory:",
        "--socket",
        "nobody.sock",
        "--connections",
        "0",
    ];
    expect_run(&rt, rt, &words, b"", (0, b"ready\n", b""))?;
    assert!(rt; UnixStream::connect(&rt, "nobody.sock").is_err());
    clear(&rt, NOBODY);
    Ok(())
}

/// What a command line answers over this output, and what it reports. Its words are made once more where an allocation fails.
fn run_in<R: Threads + Wait + Clock + Copy + Send + Drop + 'static>(
    rt: &HostRuntime,
    threads: R,
    words: &[&str],
    mut input: &[u8],
    mut output: &mut [u8],
) -> Result<(u8, Vec<u8>), AllocError> {
    let alloc = rt.alloc();
    let args = match args_of(alloc, words) {
        Ok(args) => args,
        Err(_) => args_of(alloc, words)?,
    };
    let mut errors = Vec::<u8>::new(alloc);
    let status = tokend_with(rt, threads, &args, &mut input, &mut output, &mut errors);
    Ok((status, errors))
}

const NO_MEMORY: &[u8] = b"tokend: out of memory\n";

/// The reply to a call for which an allocation failed.
const HOST_MEMORY: &[u8] = b"\x00\x00\x00\x08\x00\x00\x00\x00\x00\x00\x00\x02";

/// Whether a line of the first run gives each reply. Where an allocation failed, it ends with status 6, or a call is refused and it goes on.
fn is_whole_line<R: Threads + Wait + Clock + Copy + Send + Drop + 'static>(
    rt: &HostRuntime,
    threads: R,
) -> Result<bool, Fail> {
    let mut output = [0u8; 85];
    let (status, errors) = run_in(rt, threads, &["stdio"], FIRST_RUN, &mut output)?;
    let is_whole = output.as_slice() == FIRST_REPLIES;
    let is_refused = output.windows(12).any(|frame| frame == HOST_MEMORY);
    let is_so = match status {
        0 => (is_whole || is_refused) && errors.is_empty(),
        6 => errors.as_slice() == NO_MEMORY,
        _ => false,
    };
    if is_so {
        Ok(status == 0 && is_whole)
    } else {
        Err(Fail::new(format_args!("status {status}")))
    }
}

/// `rt try --test --fail-alloc N` has one allocation fail, so one of two lines is whole.
#[test]
fn a_line_for_which_an_allocation_fails_has_its_status(rt: HostRuntime) -> Result<(), Fail> {
    let first = is_whole_line(&rt, rt)?;
    let second = is_whole_line(&rt, rt)?;
    assert!(rt; first || second);
    Ok(())
}

const READY: &[u8] = b"ready\n";

const NO_THREAD: &[u8] =
    b"tokend: cannot use the socket\ntokend: because a thread cannot be started\n";

/// Whether a daemon of no connections ends as asked. Where an allocation failed, it ends with status 6, or with 4 where a thread was not
/// started.
fn has_served<R: Threads + Wait + Clock + Copy + Send + Drop + 'static>(
    rt: &HostRuntime,
    threads: R,
) -> Result<bool, Fail> {
    clear(rt, NO_ROOM);
    let words = [
        "serve",
        "--store",
        ":memory:",
        "--socket",
        "no_room.sock",
        "--connections",
        "0",
    ];
    let mut output = [0u8; 6];
    let (status, errors) = run_in(rt, threads, &words, b"", &mut output)?;
    clear(rt, NO_ROOM);
    let is_so = match status {
        0 => output.as_slice() == READY && errors.is_empty(),
        4 => output.as_slice() == READY && errors.as_slice() == NO_THREAD,
        6 => errors.as_slice() == NO_MEMORY,
        _ => false,
    };
    if is_so {
        Ok(status == 0)
    } else {
        Err(Fail::new(format_args!("status {status}")))
    }
}

#[test]
fn a_daemon_for_which_an_allocation_fails_has_its_status(rt: HostRuntime) -> Result<(), Fail> {
    let first = has_served(&rt, rt)?;
    let second = has_served(&rt, rt)?;
    assert!(rt; first || second);
    Ok(())
}
