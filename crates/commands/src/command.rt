//! The command line.

use clap::builder::ValueParser;
use clap::{Arg, ArgAction, Command, Error};
use keep::GREATEST_ID;
use std::alloc::Global;

/// The version, that of the change log.
pub const VERSION: &str = "0.1.0";

/// The texts of a level, the least detailed first.
static LEVELS: [&str; 4] = ["off", "error", "warn", "info"];

/// The texts of the two users: the security officer, and the token's user.
static USERS: [&str; 2] = ["so", "user"];

/// How many connections each seat of the daemon accepts at most, and where no number is given.
pub const MAX_CONNECTIONS: u64 = (1 << 61) - 1;

/// How many seconds a connection may be idle at most, some 30 years.
const MAX_IDLE: u64 = 1_000_000_000;

/// The command line of `tokend`, whose daemon has so many connections at once in each seat, at most.
pub(crate) fn command<'a>(alloc: Global, max_clients: u64) -> Result<Command<'a>, Error> {
    let command = Command::new(alloc, "tokend")
        .about("A PKCS #11 software token")
        .version(VERSION)
        .subcommand_required(true);
    let command = with_subcommand(command, stdio(alloc))?;
    let command = with_subcommand(command, serve(alloc, max_clients))?;
    let command = with_subcommand(command, p11call(alloc))?;
    let command = with_subcommand(command, status(alloc))?;
    let command = with_subcommand(command, check(alloc))?;
    let command = with_subcommand(command, backup(alloc))?;
    let command = with_subcommand(command, compact(alloc))?;
    let command = with_subcommand(command, restore(alloc))?;
    with_subcommand(command, unlock(alloc))
}

/// The command with a subcommand.
fn with_subcommand<'a>(
    command: Command<'a>,
    subcommand: Result<Command<'a>, Error>,
) -> Result<Command<'a>, Error> {
    match subcommand {
        Ok(subcommand) => Ok(command.subcommand(subcommand)?),
        Err(error) => {
            drop(command);
            Err(error)
        }
    }
}

/// The command for one application on standard input and output.
fn stdio<'a>(alloc: Global) -> Result<Command<'a>, Error> {
    let seed = chosen(
        alloc,
        "seed",
        "The seed of random bytes, 64 hexadecimal digits; zeros, for trial only, if left out",
    );
    Ok(
        Command::new(alloc, "stdio")
            .about("Answers the frames of standard input on standard output, as application 0")
            .arg(seed)?,
    )
}

/// The command for calls to a daemon.
fn p11call<'a>(alloc: Global) -> Result<Command<'a>, Error> {
    Ok(
        Command::new(alloc, "p11call")
            .about(
                "Sends calls to a daemon: one a line, in hexadecimal, and prints their replies so",
            )
            .arg(needed(alloc, "socket", "The path of the daemon's socket"))?,
    )
}

/// The command that reports whether a daemon serves.
fn status<'a>(alloc: Global) -> Result<Command<'a>, Error> {
    Ok(
        Command::new(alloc, "status")
            .about("Prints in a second at most whether a daemon serves on a socket")
            .arg(needed(alloc, "socket", "The path of the daemon's socket"))?,
    )
}

/// The command that looks through a store.
fn check<'a>(alloc: Global) -> Result<Command<'a>, Error> {
    Ok(
        Command::new(alloc, "check")
            .about("Looks through a store, and changes nothing")
            .arg(needed(alloc, "store", "The path of the store's file"))?,
    )
}

/// The command that copies a store.
fn backup<'a>(alloc: Global) -> Result<Command<'a>, Error> {
    Ok(
        Command::new(alloc, "backup")
            .about("Copies the rows of a store to a new file, also while a daemon serves it")
            .arg(needed(alloc, "store", "The path of the store's file"))?
            .arg(needed(alloc, "to", "The path of the copy, where no file is yet"))?,
    )
}

/// The command that writes a store anew.
fn compact<'a>(alloc: Global) -> Result<Command<'a>, Error> {
    Ok(
        Command::new(alloc, "compact")
            .about(
                "Writes a store that no daemon has open anew, so that nothing is left of what was destroyed",
            )
            .arg(needed(alloc, "store", "The path of the store's file"))?,
    )
}

/// The command that puts a copy in a store's place.
fn restore<'a>(alloc: Global) -> Result<Command<'a>, Error> {
    Ok(
        Command::new(alloc, "restore")
            .about("Puts a copy in the place of a store that no daemon has open")
            .arg(needed(alloc, "from", "The path of the copy, which stays"))?
            .arg(needed(
                alloc,
                "to",
                "The path of the store's file, which is replaced, or made where there is none",
            ))?,
    )
}

/// The command that forgets the tries of a PIN.
fn unlock<'a>(alloc: Global) -> Result<Command<'a>, Error> {
    let user = needed(alloc, "user", "Whose PIN it is").value_parser(ValueParser::Names(&USERS));
    Ok(
        Command::new(alloc, "unlock")
            .about("Sets the tries of a PIN to 0, in a store that no daemon has open")
            .arg(needed(alloc, "store", "The path of the store's file"))?
            .arg(user)?,
    )
}

/// The daemon's command.
fn serve<'a>(alloc: Global, max_clients: u64) -> Result<Command<'a>, Error> {
    Ok(
        Command::new(alloc, "serve")
            .about("Serves applications that connect to a socket: a daemon")
            .arg(needed(
                alloc,
                "store",
                "The path of the store's file, which is made where there is none; \":memory:\" keeps it in memory",
            ))?
            .arg(sockets(alloc))?
            .arg(chosen(
                alloc,
                "seed-file",
                "A file whose first 32 bytes are the seed of random bytes; the system gives the seed if left out",
            ))?
            .arg(chosen(
                alloc,
                "socket-mode",
                "The permission bits of the socket, in octal digits; 600 if left out",
            ))?
            .arg(level(alloc))?
            .arg(clients(alloc, max_clients))?
            .arg(idle(alloc))?
            .arg(max_objects(alloc))?
            .arg(connections(alloc))?,
    )
}

/// The option of where the daemon listens.
fn sockets<'a>(alloc: Global) -> Arg<'a> {
    needed(
        alloc,
        "socket",
        "The path of a socket, which is made, unless a service manager hands some over (LISTEN_FDS); several may be given",
    )
    .action(ArgAction::Append)
}

/// The option of what is logged on standard error while the daemon serves.
fn level<'a>(alloc: Global) -> Arg<'a> {
    chosen(
        alloc,
        "log",
        "The least important of what is said on standard error; warn if left out",
    )
    .value_parser(ValueParser::Names(&LEVELS))
}

/// The option of how many connections there are at once.
fn clients<'a>(alloc: Global, max_clients: u64) -> Arg<'a> {
    chosen(
        alloc,
        "clients",
        "How many connections each of the four seats has at once, 1 to 64; 1 if left out",
    )
    .value_parser(ValueParser::unsigned(1, max_clients))
}

/// The option of how long a connection may be idle.
fn idle<'a>(alloc: Global) -> Arg<'a> {
    chosen(
        alloc,
        "idle",
        "After how many seconds a connection of which nothing came is ended; never if left out",
    )
    .value_parser(ValueParser::unsigned(1, MAX_IDLE))
}

/// The option of how many objects the store may have.
fn max_objects<'a>(alloc: Global) -> Arg<'a> {
    chosen(
        alloc,
        "max-objects",
        "How many token objects the store may have: one more is refused; as many as fit on the disk if left out",
    )
    .value_parser(ValueParser::unsigned(0, GREATEST_ID))
}

/// The option of how many connections there are.
fn connections<'a>(alloc: Global) -> Arg<'a> {
    chosen(
        alloc,
        "connections",
        "How many connections each of the four seats accepts before it ends; without end if left out",
    )
    .value_parser(ValueParser::unsigned(0, MAX_CONNECTIONS))
}

/// An option that may be given.
fn chosen<'a>(alloc: Global, name: &'a str, help: &'a str) -> Arg<'a> {
    Arg::new(alloc, name)
        .long(name)
        .action(ArgAction::Set)
        .help(help)
}

/// An option that must be given.
fn needed<'a>(alloc: Global, name: &'a str, help: &'a str) -> Arg<'a> {
    chosen(alloc, name, help).required(true)
}
