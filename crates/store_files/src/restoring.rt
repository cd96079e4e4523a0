//! A copy of a store is put in a store's place.

use crate::copying::is_busy;
use crate::examining::examine;
use crate::fault::{StoreCause, StoreFault};
use crate::snapshot::read_store;
use crate::spare_logs::remove_spares;
use crate::writing::{sync_folder, write_owned};
use std::fs::{File, Metadata};
use std::io::ErrorKind;
use std::rt::HostRuntime;
use std::{fs, io};

fn refused(error: io::Error) -> StoreFault {
    StoreFault::Copy(StoreCause::CopyFile(error))
}

/// Puts the rows of a copy in a store's place. The copy is looked through first. Whatever stops this, what stands in the place is
/// the old file or the new one; an old one in use whose log is gone already is no store that a daemon opens.
pub fn restore(rt: &HostRuntime, from: &str, to: &str) -> Result<(), StoreFault> {
    let copy = read_store(rt, from)?;
    examine(rt.alloc(), &copy)?.verdict()?;
    let bytes = copy.anew(rt.alloc())?;
    match fs::canonicalize(rt, to) {
        Ok(real) => put_over(rt, real.as_str(), &bytes),
        Err(error) if error.kind() == ErrorKind::NotFound => put_anew(rt, to, &bytes),
        Err(error) => Err(refused(error)),
    }
}

/// Puts the bytes in the place of a file that is there, which belongs to the same owner then. No daemon can open that meanwhile.
fn put_over(rt: &HostRuntime, path: &str, bytes: &[u8]) -> Result<(), StoreFault> {
    let old = match File::open(rt, path) {
        Ok(old) => old,
        Err(error) => return Err(refused(error)),
    };
    if is_busy(&old) {
        return Err(StoreFault::Copy(StoreCause::Busy));
    }
    let done = old
        .metadata()
        .and_then(|owner| put(rt, path, &owner, bytes));
    drop(old);
    match done {
        Ok(()) => Ok(()),
        Err(error) => Err(refused(error)),
    }
}

/// Puts the bytes where no file is. It belongs to the owner of its folder.
fn put_anew(rt: &HostRuntime, path: &str, bytes: &[u8]) -> Result<(), StoreFault> {
    match folder_of(rt, path).and_then(|owner| put(rt, path, &owner, bytes)) {
        Ok(()) => Ok(()),
        Err(error) => Err(refused(error)),
    }
}

/// The folder of a file that need not be there.
fn folder_of(rt: &HostRuntime, path: &str) -> io::Result<Metadata> {
    match path.rsplit_once('/') {
        None => fs::metadata(rt, "."),
        Some(("", _)) => fs::metadata(rt, "/"),
        Some((folder, _)) => fs::metadata(rt, folder),
    }
}

fn put(rt: &HostRuntime, path: &str, owner: &Metadata, bytes: &[u8]) -> io::Result<()> {
    let new = format!(in rt.alloc(); "{path}-new")?;
    // (what one left that was cut off)
    let _ = fs::remove_file(rt, new.as_str());
    write_owned(rt, new.as_str(), owner, bytes)?;
    let done = take_place(rt, path, new.as_str());
    if done.is_err() {
        let _ = fs::remove_file(rt, new.as_str());
    }
    done
}

/// Gives the new file the name, once what stands beside the old one is gone: with its log the new file would be another store.
fn take_place(rt: &HostRuntime, path: &str, new: &str) -> io::Result<()> {
    let log = format!(in rt.alloc(); "{path}-wal")?;
    let mark = format!(in rt.alloc(); "{path}-clean")?;
    remove_spares(rt, path)?;
    remove(rt, mark.as_str())?;
    remove(rt, log.as_str())?;
    sync_folder(rt, new)?;
    fs::rename(rt, new, path)?;
    sync_folder(rt, path)
}

/// Removes a file, if there is one.
fn remove(rt: &HostRuntime, path: &str) -> io::Result<()> {
    match fs::remove_file(rt, path) {
        Err(error) if error.kind() != ErrorKind::NotFound => Err(error),
        _ => Ok(()),
    }
}
