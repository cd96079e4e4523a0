//! `tokend stdio`: one application on standard input and output.

use crate::failure::{Failure, Fault};
use crate::seed::trial_seed;
use clap::ArgMatches;
use keep::ListKeep;
use line::Words;
use pin_record::Record;
use std::alloc::Global;
use std::io::{Read, Write};
use stdio_line::serve_one;
use token::Token;
use watched::Watched;

/// The application of standard input.
const STDIO_APP: u64 = 0;

/// Serves it with a token in memory, until its input ends.
pub(crate) fn stdio<I: Read, O: Write>(
    alloc: Global,
    matches: &ArgMatches<'_>,
    input: &mut I,
    output: &mut O,
) -> Result<(), Fault> {
    let mut words = Words::for_app(trial_seed(matches.get_str("seed"))?, STDIO_APP);
    let keep = ListKeep::new(alloc, Record::new());
    let Ok(mut token) = Token::new(alloc, keep) else {
        return Err(Failure::Memory.into());
    };
    let (mut reader, mut writer) = (Watched::of_std(input), Watched::of_std(output));
    let served = serve_one(alloc, &mut reader, &mut writer, &mut token, &mut words);
    drop(token);
    match served {
        Ok(_) => Ok(()),
        Err(fault) => Err(fault.into()),
    }
}
