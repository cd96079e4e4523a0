//! Room that is set aside on the disk of a store's file, for PINs and removals once the disk is full.
//!
//! It is a file of bytes that mean nothing, `token.db-reserve` beside `token.db`. While it is whole, objects may be made. Where a
//! disk is full, the file is removed, so that what is written next finds its room. Then no object is made or changed until the file
//! could be written again.

use crate::writing::{sync_folder, write_like};
use journal::Journal;
use log::{LevelFilter, info, warn};
use reserve::SpareRoom;
use std::random::RandomSource;
use std::rt::HostRuntime;
use std::{fs, io};

/// How many bytes it has: those by which a log grows ahead, and those of the pages that are copied of it into the file.
const ROOM: usize = 1 << 19;

fn name_of(rt: &HostRuntime, store: &str) -> io::Result<String> {
    Ok(format!(in rt.alloc(); "{store}-reserve")?)
}

/// Removes the file beside the store at a path, and returns whether there was one.
pub(crate) fn remove_ballast(rt: &HostRuntime, path: &str) -> io::Result<bool> {
    let real = fs::canonicalize(rt, path)?;
    let name = name_of(rt, real.as_str())?;
    if fs::symlink_metadata(rt, name.as_str()).is_err() {
        return Ok(false);
    }
    fs::remove_file(rt, name.as_str())?;
    sync_folder(rt, real.as_str())?;
    Ok(true)
}

/// The file beside a store, by the path of the store's file, with no link in it.
#[derive(Drop)]
pub struct Ballast {
    rt: HostRuntime,
    store: String,
    name: String,
    level: LevelFilter,
    is_whole: bool,
    /// That there is no room was logged, and not since that there is.
    has_said: bool,
}

impl Ballast {
    /// The file, whole or not. What becomes of it is logged up to a level.
    pub(crate) fn find(rt: &HostRuntime, path: &str, level: LevelFilter) -> io::Result<Ballast> {
        let real = fs::canonicalize(rt, path)?;
        let store = format!(in rt.alloc(); "{}", real.as_str())?;
        let name = name_of(rt, store.as_str())?;
        let is_whole = fs::symlink_metadata(rt, name.as_str()).is_ok_and(|found| found.is_file()
            && found.len() == ROOM as u64);
        Ok(Ballast {
            rt: *rt,
            store,
            name,
            level,
            is_whole,
            has_said: false,
        })
    }

    /// Writes it anew. Its bytes are random, so that no disk can hold them in less room.
    fn write(&self) -> io::Result<()> {
        let mut bytes = vec![in self.rt.alloc(); 0u8; ROOM]?;
        self.rt.fill_bytes(&mut bytes)?;
        match fs::remove_file(&self.rt, self.name.as_str()) {
            Ok(()) => {}
            Err(error) if error.kind() == io::ErrorKind::NotFound => {}
            Err(error) => return Err(error),
        }
        write_like(&self.rt, self.name.as_str(), self.store.as_str(), &bytes)
    }

    fn remove(&self) -> io::Result<()> {
        fs::remove_file(&self.rt, self.name.as_str())?;
        sync_folder(&self.rt, self.store.as_str())
    }

    /// Logs once that there is no room.
    fn say_full(&mut self, error: io::Error) {
        if !self.has_said {
            self.has_said = true;
            let log = Journal::new(self.rt.stderr(), self.level);
            let name = self.name.as_str();
            warn!(log; "no object is made or changed, since there is no room for {name}: {error}");
        }
    }

    /// Logs that there is room again.
    fn say_whole(&mut self) {
        if self.has_said {
            self.has_said = false;
            let log = Journal::new(self.rt.stderr(), self.level);
            info!(log; "there is room again: objects are made and changed");
        }
    }

    /// Logs that the room is used.
    fn say_given_up(&self, removed: io::Result<()>) {
        let log = Journal::new(self.rt.stderr(), self.level);
        let name = self.name.as_str();
        match removed {
            Ok(()) => {
                warn!(log; "the disk is full: {name} is removed, so that PINs and removals go on");
            }
            Err(error) => warn!(log; "the disk is full, and {name} cannot be removed: {error}"),
        }
    }
}

impl SpareRoom for Ballast {
    ghost is_whole = { λ ballast. ballast.is_whole };

    fn fill(&mut self) -> bool {
        if !self.is_whole {
            match self.write() {
                Ok(()) => {
                    self.is_whole = true;
                    self.say_whole();
                }
                Err(error) => self.say_full(error),
            }
        }
        self.is_whole
    }

    fn give_up(&mut self) -> bool {
        let was_whole = self.is_whole;
        if was_whole {
            self.is_whole = false;
            self.say_given_up(self.remove());
        }
        was_whole
    }
}
