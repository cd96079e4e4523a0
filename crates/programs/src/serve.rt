//! `tokend serve`: a daemon on Unix sockets.

ghost use Rattle.std.specs.Prelude.{◌≡◌, ◌<◌, ◌≤◌, IfOk};
ghost use Rattle.hall_sockets.specs.Staying.{AreNew, IsNew};
ghost use Rattle.line_places.specs.declared.places.TheConstants.{MAX_CLIENTS};

use crate::health::Health;
use crate::monitor::{Monitor, Watching};
use crate::reported::Reported;
use cache::Cached;
use clap::ArgMatches;
use commands::{
    Cause, Failure, Fault, MAX_CONNECTIONS, Manager, VERSION, daemon_seed, daemon_sockets,
    leave_cores_empty, level_in, mode_in, socket_names,
};
use hall::{Gate, HallFault};
use hall_sockets::{
    Loads, MAX_CLIENTS, Seats, Settings, Shared, SocketSeat, Sockets, hold_sockets,
};
use journal::{Journal, note};
use keep::{Keep, ListKeep};
use log::{Level, LevelFilter, Log};
use pin_record::Record;
use quota::Quota;
use reserve::{Explains, Reserved};
use std::alloc::Global;
use std::io::{Stderr, Write};
use std::num::NonZeroUsize;
use std::os::unix::net::{UnixListener, UnixStream};
use std::sync::atomic::{AtomicBool, Ordering};
use std::sync::{Arc, Wait};
use std::thread::Threads;
use std::time::{Clock, Duration};
use store_files::{
    FileKeep, close_store, is_in_open_folder, keep_private, open_store, room_beside, see_owner,
};
use token::Token;

/// How many seats there are.
const SEATS: usize = 4;

/// How many objects the cache holds.
const CAPACITY: usize = 128;

/// The path that stands for a store in memory.
const IN_MEMORY: &str = ":memory:";

/// The permission bits of the socket where none are given: who made it may connect, and nobody else.
const SOCKET_MODE: u32 = 0o600;

/// A `Gate` that is always open: a seat runs its job at once.
#[derive(Drop)]
struct OpenGate;

impl Gate for OpenGate {
    fn pass(&self, _seat: usize, _app: u64) {}
}

/// Where the daemon listens, what its seats have in common, and what is logged.
#[derive(Drop)]
struct Served<'a> {
    store: &'a str,
    /// The paths of its sockets.
    paths: Vec<&'a str>,
    socket_mode: u32,
    /// How many objects the store may have.
    max_objects: u64,
    settings: Settings,
    level: LevelFilter,
    manager: Manager,
    /// The daemon is to end: its store is shut.
    is_stopping: Arc<AtomicBool, Global>,
    loads: Arc<Loads, Global>,
    health: Arc<Health, Global>,
    sockets: Arc<Sockets, Global>,
    ghost few: { settings.clients ≤ MAX_CLIENTS },
}

/// Serves as the command line asks, until each seat has had its connections. `threads` is a handle on which the seats' threads
/// are started.
pub(crate) fn serve<R: Threads + Wait + Clock + Copy + Send + Drop + 'static, O: Write, E: Write>(
    rt: &HostRuntime,
    threads: R,
    matches: &ArgMatches<'_>,
    output: &mut O,
    errors: &mut E,
) -> Result<(), Fault> {
    let served = read_options(rt, matches, errors)?;
    if !leave_cores_empty(rt) {
        let text =
            "a core dump of this process would have its memory: /proc/self/coredump_filter cannot be written";
        note(errors, served.level, Level::Warn, &text);
    }
    let mut daemon = Daemon {
        rt: *rt,
        threads,
        served,
        output,
        errors,
    };
    let ended = daemon.serve();
    drop(daemon);
    ended
}

/// A daemon that is to serve: by what, as the command line asks, and where it reports.
#[derive(Drop)]
struct Daemon<'s, 'o, 'e, R, O, E> {
    rt: HostRuntime,
    /// A handle on which the seats' threads are started.
    threads: R,
    served: Served<'s>,
    output: &'o mut O,
    errors: &'e mut E,
}

impl<R: Threads + Wait + Clock + Copy + Send + Drop + 'static, O: Write, E: Write> Daemon<
    '_,
    '_,
    '_,
    R,
    O,
    E,
> {
    /// Serves the token that the command line names.
    fn serve(&mut self) -> Result<(), Fault> {
        if self.served.store == IN_MEMORY {
            self.in_memory()
        } else {
            self.in_file()
        }
    }

    /// Serves the token of a file.
    fn in_file(&mut self) -> Result<(), Fault> {
        let keep = open_private(&self.rt, &self.served, self.errors)?;
        Ok(close_store(self.on_file(keep)?)?)
    }

    /// Serves a new token in memory.
    fn in_memory(&mut self) -> Result<(), Fault> {
        let log = Journal::new(self.rt.stderr(), self.served.level);
        let keep = ListKeep::new(self.rt.alloc(), Record::new());
        let keep = with_reports(keep, log, &self.served)?;
        match self.over(keep) {
            Ok(_) => Ok(()),
            Err(fault) => Err(fault),
        }
    }

    /// Serves a token over a keeper of a file, behind what reports, limits and remembers, and returns the keeper at a clean end.
    fn on_file<K: Explains>(&mut self, keep: K) -> Result<K, Fault> {
        let log = Journal::new(self.rt.stderr(), self.served.level);
        let room = room_beside(&self.rt, self.served.store, self.served.level)?;
        let keep = with_reports(Reserved::new(keep, room), log, &self.served)?;
        let keep = self.limited(keep)?;
        Ok(keep.into_keep().into_keep())
    }

    /// Serves a token over a keeper with a limit of objects and a cache, and returns the keeper at a clean end.
    fn limited<K: Keep>(&mut self, keep: K) -> Result<K, Fault> {
        let keep = with_limit(self.rt.alloc(), keep, &self.served)?;
        let keep = self.cached(keep)?;
        Ok(keep.into_keep())
    }

    /// Serves a token over a keeper behind a cache, and returns the keeper at a clean end.
    fn cached<K: Keep>(&mut self, keep: K) -> Result<K, Fault> {
        let capacity = NonZeroUsize::new(CAPACITY).ok_or(Failure::Memory)?;
        match Cached::new(self.rt.alloc(), keep, capacity) {
            Ok(keep) => {
                let keep = self.over(keep)?;
                Ok(keep.into_keep())
            }
            Err((fault, _)) => Err(fault.into()),
        }
    }

    /// Serves a token over a keeper, and returns the keeper at a clean end.
    fn over<K: Keep>(&mut self, keep: K) -> Result<K, Fault> {
        let alloc = self.rt.alloc();
        let mut token = token_over(alloc, keep)?;
        // (an object that can't be read is so for the first who asks for it)
        let _ = token.note_marks(alloc);
        let Ok(gate) = Arc::new(alloc, OpenGate) else {
            return Err(Failure::Memory.into());
        };
        let seats = ready_seats(&self.rt, &self.served, self.output)?;
        say_ready(&self.served, self.errors);
        let watching = Watching::start(self.threads, alloc, monitor_of(&self.rt, &self.served)?)?;
        let held = hold_sockets(self.threads, alloc, token, seats, &gate);
        watching.end(&self.threads);
        self.served.manager.tell("STOPPING=1\n");
        match held {
            Ok(held) => {
                seats_ended(&held.seats, &self.served)?;
                Ok(held.token.into_keep())
            }
            Err((fault, token)) => {
                drop(token);
                Err(not_held(fault))
            }
        }
    }
}

/// Why the seats could not be held.
fn not_held(fault: HallFault) -> Fault {
    match fault {
        HallFault::Memory => Failure::Memory.into(),
        HallFault::Thread => Failure::Socket.because(Cause::Thread),
    }
}

/// Opens the store, and keeps it from other users.
fn open_private<E: Write>(
    rt: &HostRuntime,
    served: &Served<'_>,
    errors: &mut E,
) -> Result<FileKeep, Fault> {
    see_owner(rt, served.store)?;
    let keep = open_store(rt, served.store, served.level)?;
    with_modes(rt, served, errors, keep)
}

/// The keeper, once its files are kept from other users. That others may write the folder is a line.
fn with_modes<K: Drop, E: Write>(
    rt: &HostRuntime,
    served: &Served<'_>,
    errors: &mut E,
    keep: K,
) -> Result<K, Fault> {
    if is_in_open_folder(rt, served.store) {
        let text = "others may write the store's folder, and so put another store in its place";
        note(errors, served.level, Level::Warn, &text);
    }
    if keep_private(rt, served.store)? {
        let text =
            "other users could read the store or its log: their modes are those of their owner now";
        note(errors, served.level, Level::Warn, &text);
    }
    Ok(keep)
}

/// The keeper, which logs what becomes of its store, and has the seats end where that is shut.
fn with_reports<K: Explains, L: Log + Drop>(
    keep: K,
    log: L,
    served: &Served<'_>,
) -> Result<Reported<K, L>, Fault> {
    match (
        Arc::try_clone(&served.is_stopping),
        Arc::try_clone(&served.health),
        Arc::try_clone(&served.sockets),
    ) {
        (Ok(is_stopping), Ok(health), Ok(sockets)) => Ok(Reported::new(
            keep,
            log,
            is_stopping,
            health,
            sockets,
        )),
        _ => Err(Failure::Memory.into()),
    }
}

/// The keeper, which refuses an object beyond the limit that the command line asks for.
fn with_limit<K: Keep>(alloc: Global, keep: K, served: &Served<'_>) -> Result<Quota<K>, Fault> {
    match Quota::new(alloc, keep, served.max_objects) {
        Ok(keep) => {
            served.health.set_objects(keep.count());
            Ok(keep)
        }
        Err((fault, _)) => Err(fault.into()),
    }
}

/// What the command line asks for.
fn read_options<'a, E: Write>(
    rt: &HostRuntime,
    matches: &ArgMatches<'a>,
    errors: &mut E,
) -> Result<Served<'a>, Fault> {
    let socket_mode = match matches.get_str("socket-mode") {
        None => SOCKET_MODE,
        Some(text) => match mode_in(text) {
            Some(mode) => mode,
            None => return Err(Failure::CommandLine.because(Cause::SocketMode)),
        },
    };
    let level = level_in(matches.get_str("log").unwrap_or("warn"));
    let store = matches.get_str("store").ok_or(Failure::Store)?;
    let paths = paths_in(rt.alloc(), matches)?;
    let max_objects: Option<u64> = matches.get_one("max-objects");
    if max_objects.is_some() && store == IN_MEMORY {
        return Err(Failure::CommandLine.because(Cause::MaxObjects));
    }
    let seed = seed_from(rt, matches.get_str("seed-file"), level, errors)?;
    let names = socket_names(rt, &paths)?;
    let (Ok(is_stopping), Ok(loads), Ok(health), Ok(sockets)) = (
        Arc::new(rt.alloc(), AtomicBool::new(false)),
        Arc::new(rt.alloc(), Loads::new()),
        Arc::new(rt.alloc(), Health::new()),
        Arc::new(rt.alloc(), Sockets::new(names)),
    ) else {
        return Err(Failure::Memory.into());
    };
    Ok(Served {
        store,
        paths,
        socket_mode,
        max_objects: max_objects.unwrap_or(u64::MAX),
        settings: settings_of(matches, seed),
        level,
        manager: Manager::of_process(rt),
        is_stopping,
        loads,
        health,
        sockets,
    })
}

/// The paths of the sockets that the command line names.
fn paths_in<'a>(alloc: Global, matches: &ArgMatches<'a>) -> Result<Vec<&'a str>, Fault> {
    let paths = matches.get_strs("socket").ok_or(Failure::Socket)?;
    match Vec::from_slice(alloc, paths) {
        Ok(paths) => Ok(paths),
        Err(_) => Err(Failure::Memory.into()),
    }
}

/// What the seats have in common, by the command line.
fn settings_of(matches: &ArgMatches<'_>, seed: [u8; 32]) -> Settings
    ensures seed { result.seed ≡ seed }
    ensures clients { result.clients ≤ MAX_CLIENTS }
{
    let clients: u64 = matches.get_one("clients").unwrap_or(1);
    let idle: Option<u64> = matches.get_one("idle");
    Settings {
        seed,
        clients: (clients as usize).min(MAX_CLIENTS),
        connections: matches.get_one("connections").unwrap_or(MAX_CONNECTIONS),
        idle: idle.map(Duration::from_secs),
    }
}

/// The seed. One that comes again at the next start is logged.
fn seed_from<E: Write>(
    rt: &HostRuntime,
    path: Option<&str>,
    level: LevelFilter,
    errors: &mut E,
) -> Result<[u8; 32], Fault> {
    let seed = daemon_seed(rt, path)?;
    if seed.comes_again {
        let text =
            "--seed-file is a regular file: each start with it makes the same keys and random bytes again";
        note(errors, level, Level::Warn, &text);
    }
    let bytes = seed.bytes;
    Ok(bytes)
}

/// A token over a keeper.
fn token_over<K: Keep>(alloc: Global, keep: K) -> Result<Token<K>, Fault> {
    match Token::new(alloc, keep) {
        Ok(token) => Ok(token),
        Err((fault, keep)) => {
            drop(keep);
            Err(fault.into())
        }
    }
}

/// What looks after the daemon while it serves.
fn monitor_of(rt: &HostRuntime, served: &Served<'_>) -> Result<Monitor, Fault> {
    let (Ok(loads), Ok(health)) = (
        Arc::try_clone(&served.loads),
        Arc::try_clone(&served.health),
    ) else {
        return Err(Failure::Memory.into());
    };
    let log = Journal::new(rt.stderr(), served.level);
    let places = SEATS * served.settings.clients;
    let limits = (places, served.max_objects);
    Ok(Monitor::new(rt.alloc(), log, served.manager, loads, health, limits))
}

/// Reports that the daemon serves, on standard error and to a service manager.
fn say_ready<E: Write>(served: &Served<'_>, errors: &mut E) {
    let (store, objects) = (served.store, served.health.objects());
    for socket in served.sockets.names() {
        let text = format_args!(
            "version {VERSION} serves the store {store} with {objects} objects on {socket}"
        );
        note(errors, served.level, Level::Info, &text);
    }
    if !served.manager.tell("READY=1\nSTATUS=serving\n") {
        note(
            errors,
            served.level,
            Level::Warn,
            &"NOTIFY_SOCKET cannot be used",
        );
    }
}

/// The four seats on the sockets, once the daemon listens and has reported so.
fn ready_seats<O: Write>(
    rt: &HostRuntime,
    served: &Served<'_>,
    output: &mut O,
) -> Result<Seats<UnixStream, Journal<Stderr>, HostRuntime>, Fault>
    ensures { IfOk result (λ seats. AreNew served.now.settings.seed seats) }
{
    let listeners = daemon_sockets(rt, &served.paths, served.socket_mode)?;
    let log = Journal::new(rt.stderr(), served.level);
    let seats = seats_on(rt, log, listeners, served)?;
    match writeln!(output, "ready").and_then(|()| output.flush()) {
        Ok(()) => Ok(seats),
        Err(error) => Err(Failure::Line.because(Cause::Output(error))),
    }
}

/// Whether the seats ended as asked, and not because the store is shut, or because no connection could be accepted.
fn seats_ended<L: Log, C: Clock>(
    seats: &Seats<UnixStream, L, C>,
    served: &Served<'_>,
) -> Result<(), Fault> {
    if served.is_stopping.load(Ordering::SeqCst) {
        return Err(Failure::Store.because(Cause::StoreShut));
    }
    if seats.0.has_failed()
        || seats.1.has_failed()
        || seats.2.has_failed()
        || seats.3.has_failed()
    {
        Err(Failure::Socket.because(Cause::Accept))
    } else {
        Ok(())
    }
}

/// The four seats, all on the same sockets.
fn seats_on<L: Log + Copy + Drop>(
    rt: &HostRuntime,
    log: L,
    listeners: Vec<UnixListener>,
    served: &Served<'_>,
) -> Result<Seats<UnixStream, L, HostRuntime>, Fault>
    ensures { IfOk result (λ seats. AreNew served.now.settings.seed seats) }
{
    let second = cloned(rt.alloc(), &listeners)?;
    let third = cloned(rt.alloc(), &listeners)?;
    let fourth = cloned(rt.alloc(), &listeners)?;
    Ok((
        seat_on(rt, log, listeners, 0, served)?,
        seat_on(rt, log, second, 1, served)?,
        seat_on(rt, log, third, 2, served)?,
        seat_on(rt, log, fourth, 3, served)?,
    ))
}

/// The seat with a number.
fn seat_on<L: Log + Drop>(
    rt: &HostRuntime,
    log: L,
    listeners: Vec<UnixListener>,
    number: u64,
    served: &Served<'_>,
) -> Result<SocketSeat<UnixStream, L, HostRuntime>, Fault>
    requires { number < 4 }
    ensures { IfOk result (λ seat. IsNew seat served.now.settings.seed number) }
{
    let (Ok(is_stopping), Ok(loads), Ok(sockets)) = (
        Arc::try_clone(&served.is_stopping),
        Arc::try_clone(&served.loads),
        Arc::try_clone(&served.sockets),
    ) else {
        return Err(Failure::Memory.into());
    };
    let shared = Shared {
        is_stopping,
        loads,
        sockets,
        listeners,
    };
    match SocketSeat::new(rt, rt.alloc(), *rt, log, shared, &served.settings, number) {
        Ok(seat) => Ok(seat),
        Err(error) => Err(Failure::Socket.because(Cause::Waiting(error))),
    }
}

/// The same sockets once more.
fn cloned(alloc: Global, listeners: &[UnixListener]) -> Result<Vec<UnixListener>, Fault> {
    let mut same = Vec::new(alloc);
    for listener in listeners {
        match listener.try_clone() {
            Ok(again) => match same.push(again) {
                Ok(()) => {}
                Err(_) => return Err(Failure::Memory.into()),
            },
            Err(error) => return Err(Failure::Socket.because(Cause::Socket(error))),
        }
    }
    Ok(same)
}
