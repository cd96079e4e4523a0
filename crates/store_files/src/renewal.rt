//! A store's file that is written anew from its rows, so that nothing is left in it of what was destroyed.

use crate::fault::{StoreCause, StoreFault};
use crate::writing::{sync_folder, write_like};
use keep_sql::SqlKeep;
use sql_vacuum::{emptied, vacuumed};
use sqlite::{Error, FileFrom, FileStore, Files};
use sqlite_disk::{Disk, Wary};
use std::io::{ErrorKind, Read};
use std::{fs, io};

/// The user version of a store's file while it is in use: it needs the log beside it. A copy has 0.
pub(crate) const IN_USE: u32 = 1;

pub(crate) const AT_REST: u32 = 0;

/// The offset of the user version in a SQLite file's header, and the end of its four bytes (sqlite.org/fileformat2.html, 1.3).
const VERSION_AT: usize = 60;

const VERSION_END: usize = 64;

/// Whether a file that begins so says that it is in use.
pub(crate) fn is_in_use(head: &[u8]) -> bool {
    head.get(VERSION_AT..VERSION_END) == Some(IN_USE.to_be_bytes().as_slice())
}

/// Whether the file says that it is in use.
pub(crate) fn file_is_in_use(rt: &HostRuntime, path: &str) -> io::Result<bool> {
    let mut head = [0u8; VERSION_END];
    match fs::File::open(rt, path)?.read_exact(&mut head) {
        Ok(()) => Ok(is_in_use(&head)),
        Err(error) if error.kind() == ErrorKind::UnexpectedEof => Ok(false),
        Err(error) => Err(error),
    }
}

/// Writes the file of an open store anew, and puts it in the old one's place. Whatever stops this, the old file or the new one is
/// there, and both hold the same: the log is copied into the old file and emptied before, and no other program can open that one until it
/// has lost its name. Where the log can't be copied, nothing is written.
pub(crate) fn renew(
    rt: &HostRuntime,
    path: &str,
    keep: SqlKeep<FileStore<FileFrom<Wary>>>,
) -> Result<(), StoreFault> {
    let mut store = keep.close().into_store();
    let made = in_file(rt, &mut store);
    let files = store.close();
    let bytes = made?;
    match put_in_place(rt, path, files, &bytes) {
        Ok(()) => Ok(()),
        Err(error) => Err(StoreFault::Store(StoreCause::Renewal(error))),
    }
}

/// The new file's bytes, once the old file alone has all that they are made of.
fn in_file(rt: &HostRuntime, store: &mut FileStore<FileFrom<Wary>>) -> Result<Vec<u8>, Error> {
    emptied(store)?;
    vacuumed(rt.alloc(), store, IN_USE)
}

/// The files, and so their locks, are held until the new one has the name.
fn put_in_place(
    rt: &HostRuntime,
    path: &str,
    mut files: Files<FileFrom<Wary>>,
    bytes: &[u8],
) -> io::Result<()> {
    if !files.may_be_used() {
        return Err(ErrorKind::Other.into());
    }
    files.log.set_len(0)?;
    files.log.sync()?;
    let done = take_name(rt, path, bytes);
    drop(files);
    done
}

fn take_name(rt: &HostRuntime, path: &str, bytes: &[u8]) -> io::Result<()> {
    let real = fs::canonicalize(rt, path)?;
    let new = format!(in rt.alloc(); "{}-new", real.as_str())?;
    // (what a start left that was cut off)
    let _ = fs::remove_file(rt, new.as_str());
    write_like(rt, new.as_str(), real.as_str(), bytes)?;
    if let Err(error) = fs::rename(rt, new.as_str(), real.as_str()) {
        let _ = fs::remove_file(rt, new.as_str());
        return Err(error);
    }
    sync_folder(rt, real.as_str())
}
