//! A whole copy of a store in memory, with its log copied in.

ghost use Rattle.std.specs.Prelude.{IsTrue, IfOk};
ghost use Rattle.sqlite_disk.specs.Memory.{memory_is_usable};

use crate::fault::StoreFault;
use crate::renewal::AT_REST;
use os::RangeLock;
use sql_vacuum::vacuumed;
use sqlite::{Connection, FileStore, Files, Options};
use sqlite_disk::{Disk, Memory};
use std::alloc::Global;
use std::fs::File;
use std::io;
use std::os::fd::AsRawFd;

/// The bytes by which SQLite's programs lock a file (its pending, reserved and shared locks), and how many they are.
const LOCK_START: u64 = 1 << 30;

const LOCK_LEN: u64 = 512;

/// Whether another program has the store's file open. If not, it can't open it until the file is closed here.
pub(crate) fn is_busy(file: &File) -> bool {
    os::try_lock_range(file.as_raw_fd(), RangeLock::Shared, LOCK_START, LOCK_LEN) != 0
}

/// The bytes of a store's file and of its log, and whether there is a log.
#[derive(Drop)]
pub(crate) struct StoreCopy {
    pub(crate) db: Vec<u8>,
    pub(crate) log: Vec<u8>,
    pub(crate) has_log: bool,
}

/// A file in memory with these bytes.
pub(crate) fn memory_of(alloc: Global, bytes: &[u8]) -> io::Result<Memory>
    ensures { IfOk result (λ file. IsTrue (memory_is_usable file)) }
{
    let mut file = Memory::new(alloc);
    file.write_at(0, bytes)?;
    Ok(file)
}

impl StoreCopy {
    /// The file and its log in memory, as what opens them may change them.
    pub(crate) fn files(&self, alloc: Global) -> Result<Files<Memory>, StoreFault>
        ensures { IfOk result (λ files. IsTrue (memory_is_usable files.log) × IsTrue (memory_is_usable files.db)) }
    {
        match (memory_of(alloc, &self.log), memory_of(alloc, &self.db)) {
            (Ok(log), Ok(db)) => Ok(Files { log, db }),
            _ => Err(StoreFault::Memory),
        }
    }

    /// A connection to them.
    pub(crate) fn connect(
        &self,
        alloc: Global,
    ) -> Result<Connection<FileStore<Memory>>, StoreFault> {
        let files = self.files(alloc)?;
        match Connection::open_files(alloc, files, Options::new(0)) {
            Ok(conn) => Ok(conn),
            Err((error, _)) => Err(error.into()),
        }
    }

    /// A new file with the store's rows, and nothing else of it. It needs no log beside it.
    pub(crate) fn anew(&self, alloc: Global) -> Result<Vec<u8>, StoreFault> {
        let mut store = self.connect(alloc)?.into_store();
        let made = vacuumed(alloc, &mut store, AT_REST);
        drop(store.close());
        match made {
            Ok(bytes) => Ok(bytes),
            Err(error) => Err(error.into()),
        }
    }

    /// The file once the log is copied into it.
    pub(crate) fn image(&self, alloc: Global) -> Result<Vec<u8>, StoreFault> {
        let conn = self.connect(alloc)?;
        match conn.close_files() {
            Ok(files) => match Vec::from_slice(alloc, files.db.bytes()) {
                Ok(image) => Ok(image),
                Err(_) => Err(StoreFault::Memory),
            },
            Err((error, store)) => {
                drop(store.close());
                Err(error.into())
            }
        }
    }
}
