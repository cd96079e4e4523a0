//! Whole files that are written and synced. Their owner may read and write them, and nobody else.

use keep_sql::own_mode;
use std::fs::{File, Metadata, OpenOptions};
use std::io::Write;
use std::os::unix::fs::{MetadataExt, OpenOptionsExt, fchown};
use std::{fs, io};

/// Writes a new file and its name to the disk. Where that fails, the file is removed.
pub(crate) fn write_new(rt: &HostRuntime, path: &str, bytes: &[u8]) -> io::Result<()> {
    let file = make(rt, path)?;
    settle(rt, path, file, bytes)
}

/// The same, and the file belongs to the owner of another one.
pub(crate) fn write_like(
    rt: &HostRuntime,
    path: &str,
    other: &str,
    bytes: &[u8],
) -> io::Result<()> {
    let owner = fs::metadata(rt, other)?;
    write_owned(rt, path, &owner, bytes)
}

/// The same, and the file has this owner and group.
pub(crate) fn write_owned(
    rt: &HostRuntime,
    path: &str,
    owner: &Metadata,
    bytes: &[u8],
) -> io::Result<()> {
    let file = make(rt, path)?;
    if let Err(error) = give_to(&file, owner) {
        drop(file);
        let _ = fs::remove_file(rt, path);
        return Err(error);
    }
    settle(rt, path, file, bytes)
}

/// Gives the file to the owner and the group of another one.
pub(crate) fn give_to(file: &File, owner: &Metadata) -> io::Result<()> {
    fchown(file, Some(owner.uid()), Some(owner.gid()))
}

/// Makes a file where none is, for its owner alone.
pub(crate) fn make(rt: &HostRuntime, path: &str) -> io::Result<File> {
    OpenOptions::new()
        .write(true)
        .create_new(true)
        .mode(own_mode())
        .open(rt, path)
}

fn settle(rt: &HostRuntime, path: &str, mut file: File, bytes: &[u8]) -> io::Result<()> {
    let written = file
        .write_all(bytes)
        .and_then(|()| file.sync_all())
        .and_then(|()| sync_folder(rt, path));
    if written.is_err() {
        let _ = fs::remove_file(rt, path);
    }
    written
}

/// Writes the bytes of a file, which the disk may get later.
pub(crate) fn fill(mut file: File, bytes: &[u8]) -> io::Result<()> {
    file.write_all(bytes)
}

/// Writes the names in the folder of a file to the disk.
pub(crate) fn sync_folder(rt: &HostRuntime, path: &str) -> io::Result<()> {
    let mut folder = fs::canonicalize(rt, path)?;
    folder.pop();
    File::open(rt, folder.as_str())?.sync_all()
}
