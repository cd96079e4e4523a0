//! Opening a store in a file, beside reading the file.

use crate::calls::failed;
use crate::rounds::{ROUNDS, Rounds, Times, print_head};
use crate::work::nanos_each;
use keep_sql::SqlKeep;
use sqlite::{FileFrom, FileStore};
use sqlite_disk::Wary;
use std::time::Instant;
use std::{fs, io};
use token::Token;

/// A token over a store in a file.
type FileToken = Token<SqlKeep<FileStore<FileFrom<Wary>>>>;

/// Opens the store as the daemon does.
fn token_of(rt: &HostRuntime, path: &str) -> io::Result<FileToken> {
    let keep = match SqlKeep::open(rt, path, Wary) {
        Ok(keep) => keep,
        Err(refused) => {
            drop(refused.given_back(rt.alloc()));
            return Err(failed());
        }
    };
    match Token::new(rt.alloc(), keep) {
        Ok(token) => Ok(token),
        Err(refused) => {
            drop(refused);
            Err(failed())
        }
    }
}

/// The nanoseconds that opening takes. The store is let go after that.
fn time_opening(rt: &HostRuntime, path: &str) -> io::Result<u64> {
    let start = Instant::now(rt)?;
    let token = token_of(rt, path)?;
    let nanos = nanos_each(rt, 1, start);
    drop(token);
    nanos
}

/// The nanoseconds that it takes to read the file.
fn time_reading(rt: &HostRuntime, path: &str) -> io::Result<u64> {
    let start = Instant::now(rt)?;
    let bytes = fs::read(rt, path)?;
    let nanos = nanos_each(rt, 1, start);
    drop(bytes);
    nanos
}

/// Opens a store that nobody has open, and prints a line.
pub(crate) fn print_openings(rt: &HostRuntime, path: &str) -> io::Result<()> {
    if !fs::metadata(rt, path)?.is_file() {
        return Err(failed());
    }
    let mut rounds = Rounds::new(rt.alloc());
    for _ in 0..ROUNDS {
        rounds.add(Times {
            measured: time_opening(rt, path)?,
            echo: 0,
            other: time_reading(rt, path)?,
        })?;
    }
    let times = rounds.medians();
    print_head(rt, "itself")?;
    times.print(rt, "opening a store", times.measured)
}
