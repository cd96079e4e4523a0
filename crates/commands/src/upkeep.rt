//! `tokend check`, `backup`, `compact`, `restore` and `unlock`: what is done to a store from outside. A daemon may serve it meanwhile only
//! where it is looked through or copied.

use crate::cause::Cause;
use crate::failure::{Failure, Fault};
use ck_types::UserType;
use clap::ArgMatches;
use std::io::{self, Write};
use store_files::{Findings, back_up, look_through, renew_store};

/// Looks through a store, prints what it has, and changes nothing.
pub(crate) fn check<O: Write>(
    rt: &HostRuntime,
    matches: &ArgMatches<'_>,
    output: &mut O,
) -> Result<(), Fault> {
    let store = matches.get_str("store").ok_or(Failure::Store)?;
    let found = look_through(rt, store)?;
    match print(&found, output) {
        Ok(()) => Ok(found.verdict()?),
        Err(error) => Err(Failure::Line.because(Cause::Output(error))),
    }
}

fn print<O: Write>(found: &Findings, output: &mut O) -> io::Result<()> {
    let format = if found.has_old { 1 } else { 2 };
    let sums = if found.has_sums { "yes" } else { "no" };
    writeln!(output, "format: {format}")?;
    writeln!(output, "page sums: {sums}")?;
    writeln!(output, "data objects: {}", found.data)?;
    writeln!(output, "secret keys: {}", found.keys)?;
    writeln!(output, "rows that are no token object's: {}", found.damaged)?;
    output.flush()
}

/// Copies a store to a new file, from its rows.
pub(crate) fn backup(rt: &HostRuntime, matches: &ArgMatches<'_>) -> Result<(), Fault> {
    let store = matches.get_str("store").ok_or(Failure::Store)?;
    let to = matches.get_str("to").ok_or(Failure::Copy)?;
    Ok(back_up(rt, store, to)?)
}

/// Writes the file of a store anew.
pub(crate) fn compact(rt: &HostRuntime, matches: &ArgMatches<'_>) -> Result<(), Fault> {
    let store = matches.get_str("store").ok_or(Failure::Store)?;
    Ok(renew_store(rt, store)?)
}

/// Puts the rows of a copy in a store's place.
pub(crate) fn restore(rt: &HostRuntime, matches: &ArgMatches<'_>) -> Result<(), Fault> {
    let from = matches.get_str("from").ok_or(Failure::Store)?;
    let to = matches.get_str("to").ok_or(Failure::Copy)?;
    Ok(store_files::restore(rt, from, to)?)
}

/// Whose PIN is meant.
fn who_in(text: &str) -> UserType {
    if text == "so" {
        UserType::So
    } else {
        UserType::User
    }
}

/// Sets the tries of a PIN to 0.
pub(crate) fn unlock(rt: &HostRuntime, matches: &ArgMatches<'_>) -> Result<(), Fault> {
    let store = matches.get_str("store").ok_or(Failure::Store)?;
    let who = who_in(matches.get_str("user").unwrap_or("user"));
    Ok(store_files::unlock(rt, store, who)?)
}
