//! `tokend`: a PKCS #11 software token. What it does stands in the library `programs`; here are the
//! process's own arguments and streams.
#![tactic(auto)]

use commands::refuse_args;
use programs::tokend_with;
use std::process::ExitCode;
use std::{env, io};

fn words(rt: &HostRuntime) -> io::Result<Vec<String>> {
    let mut words = Vec::new(rt.alloc());
    for word in env::args(rt)? {
        words.push(word)?;
    }
    Ok(words)
}

fn main(rt: HostRuntime) -> ExitCode {
    let mut errors = rt.stderr();
    let words = match words(&rt) {
        Ok(words) => words,
        Err(error) => return ExitCode::from(refuse_args(&error, &mut errors)),
    };
    let mut input = rt.stdin();
    let mut output = rt.stdout();
    ExitCode::from(tokend_with(&rt, rt, &words, &mut input, &mut output, &mut errors))
}
