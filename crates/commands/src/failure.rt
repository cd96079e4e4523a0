//! How a run ends, if not well.

ghost use Rattle.std.specs.Prelude.{◌≡◌};
ghost use Rattle.commands.specs.Statuses.{status_of, IsStatus};

use crate::cause::Cause;
use clap::ArgMatches;
use keep::KeepFault;
use std::io::Write;
use stdio_line::LineFault;
use store_files::StoreFault;
use thiserror::Error as AsError;
use wire::WireFault;

/// Why a run failed. Its text stands on the output for errors.
#[derive(Clone, Copy, Debug, PartialEq, Eq, AsError)]
pub enum Failure {
    #[error("the command line is refused")]
    CommandLine,
    #[error("cannot open the store")]
    Store,
    #[error("cannot write the copy")]
    Copy,
    #[error("cannot use the socket")]
    Socket,
    #[error("bad input")]
    BadInput,
    #[error("out of memory")]
    Memory,
    #[error("the line ended badly")]
    Line,
}

impl Failure {
    /// The exit status.
    pub fn status(self) -> u8
        ensures value { result ≡ status_of self }
        ensures known { IsStatus result }
    {
        match self {
            Failure::CommandLine => 2,
            Failure::Store | Failure::Copy => 3,
            Failure::Socket => 4,
            Failure::BadInput => 5,
            Failure::Memory => 6,
            Failure::Line => 7,
        }
    }

    /// The failure with what led to it.
    pub fn because(self, cause: Cause) -> Fault
        ensures { result.failure ≡ self }
    {
        Fault {
            failure: self,
            cause: Some(cause),
        }
    }
}

/// A failure, and what led to it where the failure doesn't name that itself.
#[derive(Clone, Copy, Debug)]
pub struct Fault {
    failure: Failure,
    cause: Option<Cause>,
}

impl Fault {
    /// The exit status.
    pub fn status(&self) -> u8
        ensures value { result ≡ status_of self.now.failure }
        ensures known { IsStatus result }
    {
        self.failure.status()
    }

    /// The options that may name the file which it is about, the first that is given.
    fn options(&self) -> [&'static str; 2] {
        match self.failure {
            Failure::Store => ["store", "from"],
            Failure::Copy => ["to", "to"],
            _ => ["", ""],
        }
    }

    /// The file that it is about, as the command line names it.
    fn file_in<'a>(&self, matches: &ArgMatches<'a>) -> Option<&'a str> {
        let (_, matches) = matches.subcommand()?;
        let [first, second] = self.options();
        matches.get_str(first).or(matches.get_str(second))
    }

    /// Writes the failure as a line, and its cause as the next one, with the file of the command line that it is about. Returns the exit
    /// status.
    pub fn report<E: Write>(&self, errors: &mut E, matches: &ArgMatches<'_>) -> u8
        ensures value { result ≡ status_of self.now.failure }
        ensures known { IsStatus result }
    {
        let _ = writeln!(errors, "tokend: {}", self.failure);
        if let Some(cause) = &self.cause {
            let _ = match self.file_in(matches) {
                Some(file) => writeln!(errors, "tokend: because {file}: {cause}"),
                None => writeln!(errors, "tokend: because {cause}"),
            };
        }
        self.status()
    }
}

impl From<Failure> for Fault {
    ghost from_gives = { λ failure fault. fault.failure ≡ failure };

    fn from(failure: Failure) -> Fault {
        Fault {
            failure,
            cause: None,
        }
    }
}

/// Of what came from a socket.
impl From<WireFault> for Failure {
    fn from(fault: WireFault) -> Failure {
        match fault {
            WireFault::Memory => Failure::Memory,
            _ => Failure::Socket,
        }
    }
}

/// Of a line over standard input and output.
impl From<LineFault> for Fault {
    fn from(fault: LineFault) -> Fault {
        match fault {
            LineFault::Memory => Failure::Memory.into(),
            _ => Failure::Line.because(Cause::Line(fault)),
        }
    }
}

/// Of the store's files, and of copies.
impl From<StoreFault> for Fault {
    fn from(fault: StoreFault) -> Fault {
        match fault {
            StoreFault::Store(cause) => Failure::Store.because(Cause::Store(cause)),
            StoreFault::Copy(cause) => Failure::Copy.because(Cause::Store(cause)),
            StoreFault::Memory => Failure::Memory.into(),
        }
    }
}

/// Of the store.
impl From<KeepFault> for Fault {
    fn from(fault: KeepFault) -> Fault {
        StoreFault::from(fault).into()
    }
}
