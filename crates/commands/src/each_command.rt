//! The commands that need no daemon of this process.

use crate::failure::{Failure, Fault};
use crate::p11call::p11call;
use crate::stdio::stdio;
use crate::upkeep::{backup, check, compact, restore, unlock};
use clap::ArgMatches;
use std::io::{Read, Write};

/// Does what a command line asks for, but for `serve` and `status`, which have functions of their own.
pub fn run<I: Read, O: Write>(
    rt: &HostRuntime,
    matches: &ArgMatches<'_>,
    input: &mut I,
    output: &mut O,
) -> Result<(), Fault> {
    match matches.subcommand() {
        Some(("stdio", matches)) => stdio(rt.alloc(), matches, input, output),
        Some(("p11call", matches)) => p11call(rt, matches, input, output),
        Some(("check", matches)) => check(rt, matches, output),
        Some(("backup", matches)) => backup(rt, matches),
        Some(("compact", matches)) => compact(rt, matches),
        Some(("restore", matches)) => restore(rt, matches),
        Some(("unlock", matches)) => unlock(rt, matches),
        _ => Err(Failure::BadInput.into()),
    }
}
