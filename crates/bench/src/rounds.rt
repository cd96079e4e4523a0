//! Times by turns with those of a floor, and the lines that are printed of them.

use std::alloc::{AllocError, Global};
use std::{fmt, io};

/// How often each is measured, by turns. The medians are printed.
pub(crate) const ROUNDS: u64 = 11;

/// Nanoseconds, printed as microseconds.
#[derive(Clone, Copy)]
struct Micros(u64);

impl fmt::Display for Micros {
    fn fmt<W: fmt::Write>(&self, f: &mut fmt::Formatter<W>) -> fmt::Result {
        let whole = self.0 / 1000;
        let hundredths = self.0 % 1000 / 10;
        write!(f, "{whole:>9}.{hundredths:02}")
    }
}

/// A number of hundredths.
#[derive(Clone, Copy)]
struct Hundredths(u64);

impl fmt::Display for Hundredths {
    fn fmt<W: fmt::Write>(&self, f: &mut fmt::Formatter<W>) -> fmt::Result {
        let whole = self.0 / 100;
        let rest = self.0 % 100;
        write!(f, "{whole:>6}.{rest:02}")
    }
}

/// What part of `other` a number is, in hundredths.
fn part_of(number: u64, other: u64) -> Hundredths {
    Hundredths(number.saturating_mul(100) / other.max(1))
}

/// The times of each round.
#[derive(Drop)]
pub(crate) struct Rounds {
    measured: Vec<u64>,
    echoes: Vec<u64>,
    others: Vec<u64>,
}

fn median(times: &mut Vec<u64>) -> u64 {
    times.sort_unstable();
    times.get(times.len() / 2).copied().unwrap_or(0)
}

impl Rounds {
    pub(crate) fn new(alloc: Global) -> Rounds {
        Rounds {
            measured: Vec::new(alloc),
            echoes: Vec::new(alloc),
            others: Vec::new(alloc),
        }
    }

    /// Adds a round.
    pub(crate) fn add(&mut self, times: Times) -> Result<(), AllocError> {
        self.measured.push(times.measured)?;
        self.echoes.push(times.echo)?;
        self.others.push(times.other)?;
        Ok(())
    }

    /// The medians.
    pub(crate) fn medians(&mut self) -> Times {
        Times {
            measured: median(&mut self.measured),
            echo: median(&mut self.echoes),
            other: median(&mut self.others),
        }
    }
}

/// Nanoseconds for each: of what is measured, of the echo, and of what else its floor has.
#[derive(Clone, Copy)]
pub(crate) struct Times {
    pub(crate) measured: u64,
    pub(crate) echo: u64,
    pub(crate) other: u64,
}

/// Prints the names of the columns, of which the last says what a line is put beside.
pub(crate) fn print_head(rt: &impl Print, beside: &str) -> io::Result<()> {
    println!(rt;
        "work                                                   us each        echo       other       floor    times  a second  of {beside}"
    )
}

impl Times {
    /// Prints a line: the times, the floor, how many times the floor it takes, and how many are done a second. Last stands how many
    /// times as many that is as where each takes `beside` nanoseconds.
    pub(crate) fn print(self, rt: &impl Print, what: &str, beside: u64) -> io::Result<()> {
        let measured = Micros(self.measured);
        let echo = Micros(self.echo);
        let other = Micros(self.other);
        let nanos = self.echo.saturating_add(self.other);
        let floor = Micros(nanos);
        let times = part_of(self.measured, nanos);
        let rate = 1_000_000_000 / self.measured.max(1);
        let part = part_of(beside, self.measured);
        println!(rt; "{what:<50}{measured}{echo}{other}{floor}{times}{rate:>10}{part}")
    }
}
