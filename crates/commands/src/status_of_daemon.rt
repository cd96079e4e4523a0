//! `tokend status`: whether a daemon serves on a socket.

ghost use Rattle.commands.specs.Statuses.{IsStatus};

use crate::failure::Failure;
use clap::ArgMatches;
use standing::print_standing;
use std::io::Write;

/// Prints a line on the daemon of a socket, and returns the exit status.
pub fn status<O: Write>(rt: &HostRuntime, matches: &ArgMatches<'_>, output: &mut O) -> u8
    ensures { IsStatus result }
{
    let Some(path) = matches.get_str("socket") else {
        return Failure::Socket.status();
    };
    match print_standing(rt, path, output) {
        Ok(status) => status,
        Err(_) => Failure::Line.status(),
    }
}
