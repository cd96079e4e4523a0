//! What a store's files hold at one moment, while a daemon may change them: as a power cut at that moment would leave them.
//!
//! The file is read first, and then its log, as it stands still for a moment, or as the daemon copied it between two changes. What a
//! checkpoint wrote into the file meanwhile, the log has, unless a further round of it was begun. Then the rounds before are needed too.
//! While a backup is made the daemon keeps a copy of each (`spare_logs`). They are copied into what was read of the file, in their order.

use crate::copying::{StoreCopy, memory_of};
use crate::fault::{StoreCause, StoreFault};
use crate::renewal::is_in_use;
use crate::spare_logs::{remove_spares, request_of, spare_of};
use crate::writing::{give_to, make};
use sql_log::{next_round, round_of};
use sqlite_disk::{Files, Memory};
use sqlite_wal::{Log, PageSize};
use std::alloc::Global;
use std::fs::{File, TryLockError};
use std::io::{ErrorKind, Read};
use std::os::unix::fs::MetadataExt;
use std::rt::HostRuntime;
use std::{fs, io};

/// How often a store is read that changes too much meanwhile.
const TRIES: usize = 50;

/// How often a log is looked at until it stands still, or until the daemon has copied it.
const LOOKS: usize = 2000;

/// More rounds than a daemon keeps.
const MOST_ROUNDS: usize = 2048;

/// Where a log's header has the size of a page (sqlite.org/fileformat2.html, 4.1).
const PAGE_SIZE_AT: usize = 8;

/// What the files hold, or none where they changed too much meanwhile.
type Found = io::Result<Option<StoreCopy>>;

/// Reads the store's file and its log, as they are at one moment. A daemon may have the store open; it isn't held up.
pub(crate) fn read_store(rt: &HostRuntime, path: &str) -> Result<StoreCopy, StoreFault> {
    match settled(rt, path) {
        Ok(Some(copy)) => whole(copy),
        Ok(None) => Err(StoreFault::Store(StoreCause::Changing)),
        Err(error) if error.kind() == ErrorKind::OutOfMemory => Err(StoreFault::Memory),
        Err(error) if error.kind() == ErrorKind::ResourceBusy => Err(StoreFault::Store(
            StoreCause::OtherBackup,
        )),
        Err(error) => Err(StoreFault::Store(StoreCause::File(error))),
    }
}

/// Refused where the file says that it is in use, and no log is beside it.
fn whole(copy: StoreCopy) -> Result<StoreCopy, StoreFault> {
    if !copy.has_log && is_in_use(&copy.db) {
        return Err(StoreFault::Store(StoreCause::LogLost));
    }
    Ok(copy)
}

/// Reads as often as is needed. Only where one read isn't enough, the daemon is asked to keep copies of its log.
fn settled(rt: &HostRuntime, path: &str) -> Found {
    let real = fs::canonicalize(rt, path)?;
    let store = real.as_str();
    let found = read_once(rt, store)?;
    if found.is_some() {
        return Ok(found);
    }
    for _ in 0..TRIES {
        let request = Request::make(rt, store)?;
        let found = read_once(rt, store);
        request.end(rt, store);
        let found = found?;
        if found.is_some() {
            return Ok(found);
        }
    }
    Ok(None)
}

/// A request that the daemon keep copies of its log. It is locked, so that the daemon knows that somebody waits.
#[derive(Drop)]
struct Request {
    _file: File,
}

impl Request {
    /// Fails where another backup of the store is being made.
    fn make(rt: &HostRuntime, store: &str) -> io::Result<Request> {
        let name = request_of(rt, store)?;
        for _ in 0..TRIES {
            let file = open_or_make(rt, name.as_str(), store)?;
            match file.try_lock() {
                // (the daemon removes one that nobody has locked)
                Ok(()) if is_named(rt, &file, name.as_str()) => {
                    return Ok(Request { _file: file });
                }
                // (the daemon has it locked for the moment in which it looks)
                Ok(()) | Err(TryLockError::WouldBlock) => {}
                Err(TryLockError::Error(error)) => return Err(error),
            }
        }
        Err(ErrorKind::ResourceBusy.into())
    }

    fn end(self, rt: &HostRuntime, store: &str) {
        let _ = remove_spares(rt, store);
    }
}

/// The file that asks for copies. It belongs to the owner of the store, so that the daemon may open it.
fn open_or_make(rt: &HostRuntime, name: &str, store: &str) -> io::Result<File> {
    match make(rt, name) {
        Ok(file) => {
            let owner = fs::metadata(rt, store)?;
            give_to(&file, &owner)?;
            Ok(file)
        }
        Err(error) if error.kind() == ErrorKind::AlreadyExists => File::open(rt, name),
        Err(error) => Err(error),
    }
}

/// Whether the file that is open has the name.
fn is_named(rt: &HostRuntime, file: &File, name: &str) -> bool {
    match (file.metadata(), fs::metadata(rt, name)) {
        (Ok(open), Ok(named)) => open.dev() == named.dev() && open.ino() == named.ino(),
        _ => false,
    }
}

/// Reads the file, and then the log, and what of the rounds between was kept.
fn read_once(rt: &HostRuntime, store: &str) -> Found {
    let mut file = File::open(rt, store)?;
    let before = round_beside(rt, store)?;
    let mut db = Vec::new(rt.alloc());
    file.read_to_end(&mut db)?;
    let read = Kept::now(rt, store)?;
    let Some(log) = still_log(rt, store, &read)? else {
        return Ok(None);
    };
    if !is_named(rt, &file, store) {
        return Ok(None);
    }
    let after = match &log {
        Some(log) => round_of(log),
        None => None,
    };
    let db = if before == after {
        db
    } else {
        let (Some(before), Some(after)) = (before, after) else {
            return Ok(None);
        };
        match with_rounds(rt, store, db, before, after)? {
            Some(db) => db,
            None => return Ok(None),
        }
    };
    let has_log = log.is_some();
    let log = log.unwrap_or(Vec::new(rt.alloc()));
    Ok(Some(StoreCopy { db, log, has_log }))
}

/// The bytes of the log, where there is one.
fn log_beside(rt: &HostRuntime, store: &str) -> io::Result<Option<Vec<u8>>> {
    let log = format!(in rt.alloc(); "{store}-wal")?;
    match fs::read(rt, log.as_str()) {
        Ok(bytes) => Ok(Some(bytes)),
        Err(error) if error.kind() == ErrorKind::NotFound => Ok(None),
        Err(error) => Err(error),
    }
}

fn round_beside(rt: &HostRuntime, store: &str) -> io::Result<Option<u32>> {
    match log_beside(rt, store)? {
        Some(log) => Ok(round_of(&log)),
        None => Ok(None),
    }
}

/// The number and the time of a file.
type Stamp = (u64, i64, i64);

/// What the daemon had kept of the log's round at a moment.
#[derive(Drop)]
struct Kept {
    round: Option<u32>,
    stamp: Option<Stamp>,
}

impl Kept {
    /// What it has kept now.
    fn now(rt: &HostRuntime, store: &str) -> io::Result<Kept> {
        let round = round_beside(rt, store)?;
        let stamp = match round {
            Some(round) => match spare_log(rt, store, round)? {
                Some((_, stamp)) => Some(stamp),
                None => None,
            },
            None => None,
        };
        Ok(Kept { round, stamp })
    }

    /// The log as the daemon copied it since then, between two changes, if it did.
    fn since(&self, rt: &HostRuntime, store: &str) -> io::Result<Option<Vec<u8>>> {
        let Some(round) = round_beside(rt, store)? else {
            return Ok(None);
        };
        let Some((log, stamp)) = spare_log(rt, store, round)? else {
            return Ok(None);
        };
        if self.round == Some(round) && self.stamp == Some(stamp) {
            return Ok(None);
        }
        Ok(Some(log))
    }
}

/// The daemon's copy of a round of the log, if there is one.
fn spare_log(rt: &HostRuntime, store: &str, round: u32) -> io::Result<Option<(Vec<u8>, Stamp)>> {
    let name = spare_of(rt, store, round)?;
    let mut file = match File::open(rt, name.as_str()) {
        Ok(file) => file,
        Err(error) if error.kind() == ErrorKind::NotFound => return Ok(None),
        Err(error) => return Err(error),
    };
    let found = file.metadata()?;
    let mut log = Vec::new(rt.alloc());
    file.read_to_end(&mut log)?;
    Ok(Some((log, (found.ino(), found.mtime(), found.mtime_nsec()))))
}

/// The log at one moment from now on. Either two reads of it give the same: within a round it only grows, but for the first byte behind a
/// commit, so it was that between the two. Or it is the daemon's copy. None where there is neither.
fn still_log(rt: &HostRuntime, store: &str, read: &Kept) -> io::Result<Option<Option<Vec<u8>>>> {
    for _ in 0..LOOKS {
        let log = log_beside(rt, store)?;
        if log == log_beside(rt, store)? {
            return Ok(Some(log));
        }
        if let Some(log) = read.since(rt, store)? {
            return Ok(Some(Some(log)));
        }
    }
    Ok(None)
}

/// What was read of the file, with the rounds from one to the one before another. None where one of them wasn't kept.
fn with_rounds(
    rt: &HostRuntime,
    store: &str,
    db: Vec<u8>,
    from: u32,
    to: u32,
) -> io::Result<Option<Vec<u8>>> {
    let mut file = memory_of(rt.alloc(), &db)?;
    let mut round = from;
    for _ in 0..MOST_ROUNDS {
        if round == to {
            return Ok(Some(Vec::from_slice(rt.alloc(), file.bytes())?));
        }
        let Some((log, _)) = spare_log(rt, store, round)? else {
            return Ok(None);
        };
        file = match copied_in(rt.alloc(), &log, file) {
            Some(file) => file,
            None => return Ok(None),
        };
        round = next_round(round);
    }
    Ok(None)
}

/// The file once the log is copied into it.
fn copied_in(alloc: Global, log: &[u8], file: Memory) -> Option<Memory> {
    let four = log.get(PAGE_SIZE_AT..)?.first_chunk::<4>()?;
    let size = PageSize::new(u32::from_be_bytes(*four) as usize)?;
    let files = Files {
        log: memory_of(alloc, log).ok()?,
        db: file,
    };
    if !files.may_be_used() {
        return None;
    }
    let Ok(mut log) = Log::new(alloc, files, size, 0) else {
        return None;
    };
    log.recover().ok()?;
    log.finish().ok()?;
    let files = log.into_files();
    Some(files.db)
}
