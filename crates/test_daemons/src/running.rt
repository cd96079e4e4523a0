//! Runs of a command line over strings of bytes.

ghost use Rattle.std.specs.Prelude.{◌≡◌, ◌==◌, ◌&&◌};
ghost use Rattle.std.specs.Str.{bytes_eq};

use programs::tokend_with;
use std::alloc::{AllocError, Global};
use std::sync::Wait;
use std::test::Fail;
use std::thread::Threads;
use std::time::Clock;

/// What a command line answered and wrote.
#[derive(Drop)]
pub struct Ended {
    pub status: u8,
    pub output: Vec<u8>,
    pub errors: Vec<u8>,
}

/// The words of a command line, after the program's name.
pub fn args_of(alloc: Global, words: &[&str]) -> Result<Vec<String>, AllocError> {
    let mut args = Vec::new(alloc);
    args.push(String::from_str(alloc, "tokend")?)?;
    for word in words {
        args.push(String::from_str(alloc, word)?)?;
    }
    Ok(args)
}

pub fn run<R: Threads + Wait + Clock + Copy + Send + Drop + 'static>(
    rt: &HostRuntime,
    threads: R,
    words: &[&str],
    mut input: &[u8],
) -> Result<Ended, AllocError> {
    let alloc = rt.alloc();
    let args = args_of(alloc, words)?;
    let mut output = Vec::<u8>::new(alloc);
    let mut errors = Vec::<u8>::new(alloc);
    let status = tokend_with(rt, threads, &args, &mut input, &mut output, &mut errors);
    Ok(Ended {
        status,
        output,
        errors,
    })
}

/// Whether a run ended with this status, and wrote this.
pub fn has_ended_so(ended: &Ended, status: u8, output: &[u8], errors: &[u8]) -> bool
    ensures { result ≡ (((ended.now.status == status) && bytes_eq ended.now.output.items output.now) && bytes_eq ended.now.errors.items errors.now) }
{
    ended.status == status && ended.output.as_slice() == output && ended.errors.as_slice() == errors
}

/// Sees that a command line with this input ends with this status, and writes this output and these errors.
pub fn expect_run<R: Threads + Wait + Clock + Copy + Send + Drop + 'static>(
    rt: &HostRuntime,
    threads: R,
    words: &[&str],
    input: &[u8],
    (status, output, errors): (u8, &[u8], &[u8]),
) -> Result<(), Fail> {
    let ended = run(rt, threads, words, input)?;
    if has_ended_so(&ended, status, output, errors) {
        return Ok(());
    }
    Err(Fail::new(format_args!(
        "{words:?}: status {}, not {status}, or other texts",
        ended.status
    )))
}

pub const OPEN_SESSION: &[u8] =
    b"\x00\x00\x00\x12\x00\x07\x00\x00\x00\x00\x00\x00\x00\x00\x00\x00\x00\x00\x00\x00\x00\x06";

pub const SESSION_ONE: &[u8] =
    b"\x00\x00\x00\x10\x00\x00\x00\x00\x00\x00\x00\x00\x00\x00\x00\x00\x00\x00\x00\x01";

/// Sees that a command line with this input ends with this status and output, and reports this failure and this cause.
pub fn expect_refusal<R: Threads + Wait + Clock + Copy + Send + Drop + 'static>(
    rt: &HostRuntime,
    threads: R,
    words: &[&str],
    input: &[u8],
    (status, output, failure, because): (u8, &[u8], &str, &str),
) -> Result<(), Fail> {
    let errors = format!(in rt.alloc(); "tokend: {failure}\ntokend: because {because}\n")?;
    expect_run(
        rt,
        threads,
        words,
        input,
        (status, output, errors.as_bytes()),
    )
}
