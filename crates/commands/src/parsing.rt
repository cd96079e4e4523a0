//! What a command line asks for, or why it is refused.

ghost use Rattle.std.specs.Prelude.{◌≡◌, IfErr};
ghost use Rattle.clap.specs.Values.{kind_of};
ghost use Rattle.commands.specs.Statuses.{IsStatus};

use crate::command::command;
use crate::failure::Failure;
use clap::error::ErrorKind;
use clap::{ArgMatches, Error};
use std::alloc::Global;
use std::io::Write;

/// The exit status for a command line that is refused.
pub(crate) const REFUSED: u8 = 2;

/// What a command line asks for, whose first word is the program's name. A seat of the daemon has at most `max_clients` connections at
/// once. Where nothing is to be done, what the parser returns is written (`tell`), and this is the exit status.
pub fn parse<'a, O: Write, E: Write>(
    alloc: Global,
    args: &'a [String],
    max_clients: u64,
    output: &mut O,
    errors: &mut E,
) -> Result<ArgMatches<'a>, u8>
    ensures { IfErr result IsStatus }
{
    let parsed: Result<ArgMatches<'a>, Error> = match command(alloc, max_clients) {
        Ok(command) => command.try_get_matches_from(args),
        Err(error) => Err(error),
    };
    match parsed {
        Ok(matches) => Ok(matches),
        Err(error) => Err(tell(&error, output, errors)),
    }
}

/// Writes what the parser of the command line returns: help and version to the output, and a refusal to the output for errors.
fn tell<O: Write, E: Write>(error: &Error, output: &mut O, errors: &mut E) -> u8
    ensures known { IsStatus result }
    ensures memory { kind_of error.now ≡ ErrorKind.OutOfMemory → result ≡ 6 }
{
    match error.kind() {
        ErrorKind::DisplayHelp | ErrorKind::DisplayVersion => match write!(output, "{error}") {
            Ok(()) => 0,
            Err(_) => Failure::Line.status(),
        },
        ErrorKind::OutOfMemory => {
            let _ = writeln!(errors, "tokend: {}", Failure::Memory);
            Failure::Memory.status()
        }
        _ => {
            let _ = write!(errors, "{error}");
            REFUSED
        }
    }
}
