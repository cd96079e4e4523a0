//! Copies of a store's log, which are kept while a backup is made.
//!
//! `tokend backup` reads the store's file while a daemon writes it. What changes meanwhile stands in the log, until a checkpoint
//! copies the log into the file and begins it anew: its next round. So while a backup is made, the daemon copies the log before each
//! change, under the number of its round. Whatever the change does to the log, the copy has all that the round had.
//!
//! `token.db-backup` beside `token.db` asks for the copies. It is a file without bytes, which the backup has locked while it is made.

use crate::writing::{fill, make};
use sql_log::round_of;
use std::fs::{File, TryLockError};
use std::rt::HostRuntime;
use std::{fs, io};

/// After how many rounds no more copies are kept for one backup.
const MOST_ROUNDS: u64 = 1024;

/// A log of more bytes isn't copied.
const MOST_BYTES: u64 = 1 << 23;

/// The name of the file beside a store that asks for copies of its log.
pub(crate) fn request_of(rt: &HostRuntime, store: &str) -> io::Result<String> {
    Ok(format!(in rt.alloc(); "{store}-backup")?)
}

/// The name of the copy of a round.
pub(crate) fn spare_of(rt: &HostRuntime, store: &str, round: u32) -> io::Result<String> {
    Ok(format!(in rt.alloc(); "{store}-backup-{round}")?)
}

/// Removes the request and all copies that are beside a store.
pub(crate) fn remove_spares(rt: &HostRuntime, store: &str) -> io::Result<()> {
    let _ = fs::remove_file(rt, request_of(rt, store)?.as_str());
    let Some((folder, name)) = store.rsplit_once('/') else {
        return Ok(());
    };
    let prefix = format!(in rt.alloc(); "{name}-backup-")?;
    let folder = if folder.is_empty() { "/" } else { folder };
    for entry in fs::read_dir(rt, folder)? {
        let entry = entry?;
        if entry.file_name().starts_with(prefix.as_str()) {
            let _ = fs::remove_file(rt, entry.path());
        }
    }
    Ok(())
}

/// The copies of the log beside a store, by the path of its file, with no link in it.
#[derive(Drop)]
pub(crate) struct SpareLogs {
    rt: HostRuntime,
    store: String,
    log: String,
    request: String,
    /// The round that was copied last, and how many rounds were.
    round: Option<u32>,
    count: u64,
}

impl SpareLogs {
    /// Of the store at a path. What a backup left that was cut off is removed.
    pub(crate) fn find(rt: &HostRuntime, path: &str) -> io::Result<SpareLogs> {
        let real = fs::canonicalize(rt, path)?;
        let mut spares = SpareLogs {
            rt: *rt,
            store: format!(in rt.alloc(); "{}", real.as_str())?,
            log: format!(in rt.alloc(); "{}-wal", real.as_str())?,
            request: request_of(rt, real.as_str())?,
            round: None,
            count: 0,
        };
        if spares.is_asked() {
            let _ = spares.is_wanted();
        }
        Ok(spares)
    }

    /// Copies the log, if a backup is being made. To be called before each change. Where it fails, the backup finds that out.
    pub(crate) fn keep(&mut self) {
        if self.is_asked() {
            let _ = self.copy();
        } else {
            self.count = 0;
        }
    }

    fn is_asked(&self) -> bool {
        fs::symlink_metadata(&self.rt, self.request.as_str()).is_ok()
    }

    /// Whether who asked lives still. If not, what it left is removed.
    fn is_wanted(&self) -> io::Result<bool> {
        let request = File::open(&self.rt, self.request.as_str())?;
        match request.try_lock_shared() {
            Err(TryLockError::WouldBlock) => Ok(true),
            Err(TryLockError::Error(error)) => Err(error),
            Ok(()) => {
                remove_spares(&self.rt, self.store.as_str())?;
                Ok(false)
            }
        }
    }

    fn copy(&mut self) -> io::Result<()> {
        if self.count >= MOST_ROUNDS || !self.is_wanted()? {
            return Ok(());
        }
        if fs::metadata(&self.rt, self.log.as_str())?.len() > MOST_BYTES {
            return Ok(());
        }
        let bytes = fs::read(&self.rt, self.log.as_str())?;
        let Some(round) = round_of(&bytes) else {
            return Ok(());
        };
        if self.round != Some(round) {
            self.round = Some(round);
            self.count = self.count.saturating_add(1);
        }
        self.put(round, &bytes)
    }

    /// Puts the bytes in the place of the copy of a round. So there is a whole one or none.
    fn put(&self, round: u32, bytes: &[u8]) -> io::Result<()> {
        let name = spare_of(&self.rt, self.store.as_str(), round)?;
        let new = format!(in self.rt.alloc(); "{}-backup-new", self.store.as_str())?;
        let _ = fs::remove_file(&self.rt, new.as_str());
        fill(make(&self.rt, new.as_str())?, bytes)?;
        fs::rename(&self.rt, new.as_str(), name.as_str())?;
        if !self.is_asked() {
            // (the backup ended meanwhile, and may have removed its copies before)
            let _ = fs::remove_file(&self.rt, name.as_str());
        }
        Ok(())
    }
}
