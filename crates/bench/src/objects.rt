//! Keys of the token: what it takes to make, read, find and destroy them, each beside its floor.

use crate::client::Client;
use crate::echo::{Exchange, start_echo};
use crate::measures::exchanges;
use crate::requests::{KEY, SOLE_KEY, Sought, destroy, new_token_key, object_size, search};
use crate::rounds::{ROUNDS, Rounds, Times, print_head};
use crate::work::{SyncedFile, nanos_each};
use std::alloc::Global;
use std::thread::Threads;
use std::time::Instant;
use std::{fs, io};

/// How many keys are made where no number is given, and at least.
pub(crate) const KEYS: u64 = 10_000;

const LEAST_KEYS: u64 = 100;

/// The rounds of a series, each of which makes a tenth of the keys.
const TENTHS: u64 = 10;

/// The reads of a round, and so few keys that the daemon's cache can hold them.
const READS: u64 = 2000;

const FEW: u64 = 100;

/// The most keys that are destroyed in a round, and the most writes of a file.
const MOST_DESTROYED: u64 = 100;

const MOST_WRITES: u64 = 100;

/// The searches of a round, where marks serve them.
const SEARCHES: u64 = 10;

/// More than the length of any of these frames.
const LONGEST: usize = 65_536;

/// What each call of a series does with a key.
#[derive(Clone, Copy)]
enum Action {
    Create,
    Read,
    Destroy,
}

/// Calls, each on the key after the last one's.
#[derive(Clone, Copy)]
struct Series {
    action: Action,
    /// The number of the first key, and how many keys there are before the first comes again.
    first: u64,
    among: u64,
    /// How many calls a round has.
    count: u64,
}

impl Series {
    fn frame(self, alloc: Global, place: u64) -> io::Result<Vec<u8>> {
        let number = self.first.saturating_add(place % self.among.max(1));
        // (the keys' handles follow that of the session's key)
        let object = number.saturating_add(KEY + 1);
        match self.action {
            Action::Create => new_token_key(alloc, number),
            Action::Read => object_size(alloc, object),
            Action::Destroy => destroy(alloc, object),
        }
    }

    /// The frames of a round.
    fn frames(self, alloc: Global, round: u64) -> io::Result<Vec<Vec<u8>>> {
        let start = round.saturating_mul(self.count);
        let mut frames = Vec::new(alloc);
        for place in start..start.saturating_add(self.count) {
            frames.push(self.frame(alloc, place)?)?;
        }
        Ok(frames)
    }

    /// The length of a reply's frame: a code, and a handle or a size.
    fn reply_len(self) -> usize {
        match self.action {
            Action::Create | Action::Read => 20,
            Action::Destroy => 12,
        }
    }

    /// How often a file is written in a round, since what is answered lasts.
    fn writes(self) -> u64 {
        match self.action {
            Action::Create | Action::Destroy => self.count.min(MOST_WRITES),
            Action::Read => 0,
        }
    }
}

/// The nanoseconds that each frame takes.
fn time_frames(rt: &HostRuntime, client: &mut Client, frames: &[Vec<u8>]) -> io::Result<u64> {
    let start = Instant::now(rt)?;
    client.ask_all(frames)?;
    nanos_each(rt, frames.len() as u64, start)
}

/// The nanoseconds that each write and sync takes, 0 for none.
fn time_writes(rt: &HostRuntime, file: &mut SyncedFile, count: u64) -> io::Result<u64> {
    if count == 0 {
        return Ok(0);
    }
    let start = Instant::now(rt)?;
    for _ in 0..count {
        file.write()?;
    }
    nanos_each(rt, count, start)
}

/// What a series is measured by: the daemon, the echo and a file of the same folder.
#[derive(Drop)]
struct Sides<'a> {
    client: &'a mut Client,
    echo: Client,
    file: SyncedFile,
}

impl Sides<'_> {
    fn race(&mut self, rt: &HostRuntime, series: Series, round: u64) -> io::Result<Times> {
        let frames = series.frames(rt.alloc(), round)?;
        Ok(Times {
            measured: time_frames(rt, self.client, &frames)?,
            echo: time_frames(rt, &mut self.echo, &frames)?,
            other: time_writes(rt, &mut self.file, series.writes())?,
        })
    }

    /// The medians of all rounds.
    fn times(&mut self, rt: &HostRuntime, series: Series) -> io::Result<Times> {
        let mut rounds = Rounds::new(rt.alloc());
        for round in 0..TENTHS {
            rounds.add(self.race(rt, series, round)?)?;
        }
        Ok(rounds.medians())
    }
}

/// A file for as many bytes as a series' frames have. Its name is gone at once.
fn new_file(rt: &HostRuntime, socket: &str, len: usize) -> io::Result<SyncedFile> {
    let path = format!(in rt.alloc(); "{socket}.file")?;
    let file = SyncedFile::create(rt, path.as_str(), len);
    fs::remove_file(rt, path.as_str())?;
    file
}

fn print_series<T: Threads>(
    rt: &HostRuntime,
    threads: &T,
    socket: &str,
    client: &mut Client,
    what: &str,
    series: Series,
) -> io::Result<()> {
    let request_len = series.frame(rt.alloc(), 0)?.len();
    let file = new_file(rt, socket, request_len)?;
    let mut exchanges = Vec::new(rt.alloc());
    exchanges.push(Exchange::new(rt.alloc(), request_len, series.reply_len())?)?;
    let (echo, thread) = start_echo(rt, threads, socket, exchanges, LONGEST)?;
    let mut sides = Sides { client, echo, file };
    let times = sides.times(rt, series)?;
    drop(sides);
    thread.join(threads)?;
    times.print(rt, what, times.measured)
}

/// So many searches, and the nanoseconds that each takes.
fn time_searches(
    rt: &HostRuntime,
    client: &mut Client,
    frames: &[Vec<u8>],
    count: u64,
) -> io::Result<u64> {
    let start = Instant::now(rt)?;
    for _ in 0..count {
        client.ask_all(frames)?;
    }
    nanos_each(rt, count, start)
}

/// The medians of all rounds of so many searches, and of as many echoes.
fn search_times(
    rt: &HostRuntime,
    client: &mut Client,
    echo: &mut Client,
    frames: &[Vec<u8>],
    count: u64,
) -> io::Result<Times> {
    let mut rounds = Rounds::new(rt.alloc());
    for _ in 0..ROUNDS {
        let measured = time_searches(rt, client, frames, count)?;
        let echo = time_searches(rt, echo, frames, count)?;
        rounds.add(Times {
            measured,
            echo,
            other: 0,
        })?;
    }
    Ok(rounds.medians())
}

/// The first search, and the medians of later ones, beside the same frames to an echo.
fn first_and_later<T: Threads>(
    rt: &HostRuntime,
    threads: &T,
    socket: &str,
    client: &mut Client,
    (sought, count): (Sought, u64),
) -> io::Result<(u64, Times)> {
    let frames = search(rt.alloc(), sought)?;
    let start = Instant::now(rt)?;
    let exchanges = exchanges(rt.alloc(), client, &frames)?;
    let first = nanos_each(rt, 1, start)?;
    let (mut echo, thread) = start_echo(rt, threads, socket, exchanges, LONGEST)?;
    let later = search_times(rt, client, &mut echo, &frames, count)?;
    drop(echo);
    thread.join(threads)?;
    Ok((first, later))
}

/// Prints a line of the first search, and a line of later ones.
fn print_search(rt: &HostRuntime, what: &str, first: u64, later: Times) -> io::Result<()> {
    let name = format!(in rt.alloc(); "{what}, the first time")?;
    let once = Times {
        measured: first,
        echo: later.echo,
        other: later.other,
    };
    once.print(rt, name.as_str(), first)?;
    later.print(rt, what, first)
}

/// The searches: by what, and how many there are in a round.
const SOUGHT: &[(&str, Sought, u64)] = &[
    (
        "a search by label, for one key",
        Sought::SoleLabel,
        SEARCHES,
    ),
    (
        "a search by label, for one key in a hundred",
        Sought::Label,
        SEARCHES,
    ),
    ("a search by CKA_ID", Sought::Id(SOLE_KEY), SEARCHES),
    ("a search by class", Sought::Class, SEARCHES),
    ("a search by CKA_EXTRACTABLE", Sought::Extractable, 1),
];

fn search_all<T: Threads>(
    rt: &HostRuntime,
    threads: &T,
    socket: &str,
    client: &mut Client,
) -> io::Result<()> {
    for (what, sought, count) in SOUGHT {
        let (first, later) = first_and_later(rt, threads, socket, client, (*sought, *count))?;
        print_search(rt, what, first, later)?;
    }
    Ok(())
}

/// Searches the keys that the token has. The first search of each kind stands apart.
pub(crate) fn print_key_searches<T: Threads>(
    rt: &HostRuntime,
    threads: &T,
    socket: &str,
) -> io::Result<()> {
    print_head(rt, "the first")?;
    let mut client = Client::connect(rt, socket, LONGEST)?;
    search_all(rt, threads, socket, &mut client)
}

/// The series that come before the searches, of so many keys.
fn making(each: u64) -> [(&'static str, Series); 3] {
    let keys = each.saturating_mul(TENTHS);
    let create = Series {
        action: Action::Create,
        first: 0,
        among: keys,
        count: each,
    };
    let read = Series {
        action: Action::Read,
        first: 0,
        among: keys,
        count: READS,
    };
    [
        ("C_CreateObject, keys of the token", create),
        (
            "C_GetObjectSize, of a hundred keys",
            Series { among: FEW, ..read },
        ),
        ("C_GetObjectSize, of each key", read),
    ]
}

/// The series that come after them: keys from the beginning, the middle and the end are destroyed. The one that is searched by its
/// label stays.
fn destroying(each: u64) -> [(&'static str, Series); 3] {
    let count = (each / 10).clamp(1, MOST_DESTROYED);
    let keys = each.saturating_mul(TENTHS);
    let all = count.saturating_mul(TENTHS);
    let from_start = Series {
        action: Action::Destroy,
        first: SOLE_KEY + 1,
        among: keys,
        count,
    };
    let from_middle = Series {
        first: keys / 2,
        ..from_start
    };
    let from_end = Series {
        first: keys.saturating_sub(all),
        ..from_start
    };
    [
        ("C_DestroyObject, from the beginning", from_start),
        ("C_DestroyObject, from the middle", from_middle),
        ("C_DestroyObject, at the end", from_end),
    ]
}

/// Makes so many keys of the token, which stay but for those that are destroyed.
pub(crate) fn print_objects<T: Threads>(
    rt: &HostRuntime,
    threads: &T,
    socket: &str,
    keys: u64,
) -> io::Result<()> {
    let each = keys.max(LEAST_KEYS) / TENTHS;
    print_head(rt, "the first")?;
    let mut client = Client::connect(rt, socket, LONGEST)?;
    for (what, series) in making(each) {
        print_series(rt, threads, socket, &mut client, what, series)?;
    }
    search_all(rt, threads, socket, &mut client)?;
    for (what, series) in destroying(each) {
        print_series(rt, threads, socket, &mut client, what, series)?;
    }
    Ok(())
}
