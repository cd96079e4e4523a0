//! Runs a command line.

ghost use Rattle.commands.specs.Statuses.{IsStatus};

use crate::serve::serve;
use commands::{parse, run, status};
use hall_sockets::MAX_CLIENTS;
use std::io::{Read, Write};
use std::sync::Wait;
use std::thread::Threads;
use std::time::Clock;

/// Runs the command line `args`, whose first word is the program's name, and returns the exit status. `threads` is a handle by
/// which the daemon starts threads.
pub fn tokend_with<
    R: Threads + Wait + Clock + Copy + Send + Drop + 'static,
    I: Read,
    O: Write,
    E: Write,
>(
    rt: &HostRuntime,
    threads: R,
    args: &[String],
    input: &mut I,
    output: &mut O,
    errors: &mut E,
) -> u8
    ensures { IsStatus result }
{
    let matches = match parse(rt.alloc(), args, MAX_CLIENTS as u64, output, errors) {
        Ok(matches) => matches,
        Err(status) => return status,
    };
    let ended = match matches.subcommand() {
        Some(("status", matches)) => return status(rt, matches, output),
        Some(("serve", matches)) => serve(rt, threads, matches, output, errors),
        _ => run(rt, &matches, input, output),
    };
    match ended {
        Ok(()) => 0,
        Err(fault) => fault.report(errors, &matches),
    }
}
