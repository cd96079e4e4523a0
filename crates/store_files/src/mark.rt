//! The mark beside a store's file. While it is there, no value was destroyed since the file was written anew from its rows.
//!
//! It is a file without bytes, `token.db-clean` beside `token.db`. Where it is missing, the next start writes the store's file anew.
//! So whatever loses the mark costs time, and keeps nothing.

use crate::writing::{sync_folder, write_like};
use journal::Journal;
use log::{LevelFilter, warn};
use std::rt::HostRuntime;
use std::{fs, io};

fn name_of(rt: &HostRuntime, store: &str) -> io::Result<String> {
    Ok(format!(in rt.alloc(); "{store}-clean")?)
}

/// A store's mark, by the path of its file, with no link in it.
#[derive(Drop)]
pub struct Mark {
    rt: HostRuntime,
    store: String,
    name: String,
    level: LevelFilter,
    is_there: bool,
    has_said: bool,
}

impl Mark {
    /// The mark, set or not. What becomes of it is logged up to a level.
    pub(crate) fn find(rt: &HostRuntime, path: &str, level: LevelFilter) -> io::Result<Mark> {
        let real = fs::canonicalize(rt, path)?;
        let store = format!(in rt.alloc(); "{}", real.as_str())?;
        let name = name_of(rt, store.as_str())?;
        let is_there = fs::symlink_metadata(rt, name.as_str()).is_ok();
        Ok(Mark {
            rt: *rt,
            store,
            name,
            level,
            is_there,
            has_said: false,
        })
    }

    pub(crate) fn is_set(&self) -> bool {
        self.is_there
    }

    /// Sets it. It belongs to the owner of the store's file.
    pub(crate) fn set(&mut self) -> io::Result<()> {
        if !self.is_there {
            write_like(&self.rt, self.name.as_str(), self.store.as_str(), &[])?;
            self.is_there = true;
        }
        Ok(())
    }

    /// Takes it away, for good before this returns. Where that fails it is logged, and tried again the next time.
    pub(crate) fn lift(&mut self) {
        if self.is_there {
            match self.remove() {
                Ok(()) => self.is_there = false,
                Err(error) => self.say_left(error),
            }
        }
    }

    /// Logs once that it is there still.
    fn say_left(&mut self, error: io::Error) {
        if !self.has_said {
            self.has_said = true;
            let log = Journal::new(self.rt.stderr(), self.level);
            let name = self.name.as_str();
            warn!(log; "{name} cannot be removed, so what is destroyed may stay in the store: {error}");
        }
    }

    fn remove(&self) -> io::Result<()> {
        match fs::remove_file(&self.rt, self.name.as_str()) {
            Ok(()) => {}
            Err(error) if error.kind() == io::ErrorKind::NotFound => {}
            Err(error) => return Err(error),
        }
        sync_folder(&self.rt, self.store.as_str())
    }
}
