//! Why a store's file, or a copy of it, can't be used. Texts name ids and files, and no value, PIN, label or handle.

use keep::KeepFault;
use keep_sql::OpenFault;
use sqlite::{Error, ErrorCode};
use std::io;
use thiserror::Error as AsError;

/// What led to it.
#[derive(Clone, Copy, Debug, AsError)]
pub enum StoreCause {
    #[error("--store cannot be used: {0}")]
    File(io::Error),
    #[error("--store cannot be kept from other users: {0}")]
    Mode(io::Error),
    #[error("another program has the store open: stop a daemon by systemctl stop tokend.socket tokend, or its instance's units")]
    Busy,
    #[error("the store changes while it is read, and who changes it keeps no copies of its log: stop that program first")]
    Changing,
    #[error("another backup of it is being made")]
    OtherBackup,
    #[error("it belongs to the user {0}, and the daemon runs as the user {1}: change its owner (chown), and that of its log")]
    Foreign(u32, u32),
    #[error("its log belongs to the user {0}, and the daemon runs as the user {1}: change its owner (chown)")]
    ForeignLog(u32, u32),
    #[error("its file has another name, a hard link: remove one of them")]
    HardLink,
    #[error("it is malformed: restore a copy that tokend backup made (tokend restore), and keep this file; tokend check says more of it")]
    Malformed,
    #[error("the PIN isn't set")]
    NoPin,
    #[error("the store's folder or its log cannot be used: {0}")]
    Folder(io::Error),
    #[error("the store was in use, and its log is missing: put the log (its file's name with -wal) back beside it, or restore a copy that tokend backup made")]
    LogLost,
    #[error("the store's file cannot be written anew: {0}")]
    Renewal(io::Error),
    #[error("sqlite refuses the store: {0}")]
    Sqlite(Error),
    #[error("{0}")]
    Opening(OpenFault),
    #[error("the row of object {0} is no token object's")]
    Object(i64),
    #[error("the row of the token's record is none, or not the only one")]
    Record,
    #[error("{0}")]
    Keeper(KeepFault),
    #[error("--to cannot be written: {0}")]
    CopyFile(io::Error),
}

/// What can't be used, and why.
#[derive(Clone, Copy, Debug)]
pub enum StoreFault {
    Store(StoreCause),
    /// A copy, or the place where one is put.
    Copy(StoreCause),
    /// An allocation failed.
    Memory,
}

impl From<KeepFault> for StoreFault {
    fn from(fault: KeepFault) -> StoreFault {
        match fault {
            KeepFault::Memory => StoreFault::Memory,
            _ => StoreFault::Store(StoreCause::Keeper(fault)),
        }
    }
}

impl From<OpenFault> for StoreFault {
    fn from(fault: OpenFault) -> StoreFault {
        match fault {
            OpenFault::Keeper(fault) => fault.into(),
            OpenFault::Sqlite(error) => error.into(),
            _ => StoreFault::Store(StoreCause::Opening(fault)),
        }
    }
}

impl From<Error> for StoreFault {
    fn from(error: Error) -> StoreFault {
        match error {
            Error::SqliteFailure(ErrorCode::OutOfMemory) => StoreFault::Memory,
            Error::SqliteFailure(ErrorCode::DatabaseBusy) => StoreFault::Store(StoreCause::Busy),
            Error::SqliteFailure(ErrorCode::DatabaseCorrupt) => StoreFault::Store(
                StoreCause::Malformed,
            ),
            _ => StoreFault::Store(StoreCause::Sqlite(error)),
        }
    }
}
