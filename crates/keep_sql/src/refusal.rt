//! Why a store in files isn't opened, and what is left of it.

ghost use Rattle.std.specs.Prelude.{◌≡◌, ◌≢◌, true, option_map, IfSome, IsSome};
ghost use Rattle.keep_sql.specs.Faults.{is_of_contents};
ghost use Rattle.keep_sql.specs.Refusal.{AreLeftIn, GivesBack, GivesBackLeft};
ghost use Rattle.keep_sql.specs.declared.refusal.Left.TheVariants.{Nothing};

use keep::KeepFault;
use sql_log::put_back;
use sqlite::{Connection, Error, ErrorCode, FileStore, Files, Leftover};
use sqlite_disk::Disk;
use std::alloc::Global;
use thiserror::Error as AsError;

/// Why a store in files isn't opened.
#[derive(Clone, Copy, Debug, PartialEq, Eq, AsError)]
pub enum OpenFault {
    /// sqlite refused the files, for this reason.
    #[error("{0}")]
    Sqlite(Error),
    /// The database file is gone or empty, and its log isn't.
    #[error("the database file is gone or empty, and its log is not")]
    FileLost,
    /// Commits stand in the log behind damage that no power cut leaves.
    #[error("the log is damaged before its last commits")]
    LogDamaged,
    /// The file has no table, and isn't what a first opening leaves.
    #[error("the file has no tables of a token, or its log is lost")]
    NoTables,
    /// The keeper's own refusal.
    #[error("{0}")]
    Keeper(KeepFault),
}

impl OpenFault {
    /// Whether the files were refused for what they hold, and not because an allocation failed or the disk did.
    fn is_damage(self) -> bool
        ensures { result ≡ is_of_contents self }
    {
        match self {
            OpenFault::Sqlite(
                Error::SqliteFailure(ErrorCode::NotADatabase | ErrorCode::DatabaseCorrupt),
            ) => true,
            OpenFault::Keeper(KeepFault::Damaged) => true,
            OpenFault::Sqlite(_) | OpenFault::Keeper(_) => false,
            OpenFault::FileLost | OpenFault::LogDamaged | OpenFault::NoTables => true,
        }
    }
}

/// What is left of the files of a store that isn't opened.
pub enum Left<D: Disk + Drop> {
    /// Nothing was opened.
    Nothing,
    /// The files, to which nothing was written.
    Files(Files<D>),
    /// What sqlite left of them.
    Sqlite(Leftover<D>),
    /// The connection, as `SqlKeep::from_connection` gives it back.
    Connection(Connection<FileStore<D>>),
    /// The store, whose log could not be copied into its file.
    Store(FileStore<D>),
}

impl<D: Disk + Drop> Left<D> {
    /// The files, where they were opened.
    pub fn into_files(self) -> Option<Files<D>>
        ensures files { AreLeftIn self result }
        ensures there { self ≢ Nothing → IsSome result }
    {
        match self {
            Left::Nothing => None,
            Left::Files(files) => Some(files),
            Left::Sqlite(left) => Some(left.into_files()),
            Left::Connection(conn) => Some(conn.into_store().close()),
            Left::Store(store) => Some(store.close()),
        }
    }
}

// It is written out, so that a caller does not prove again how each part is dropped.
impl<D: Disk + Drop> Drop for Left<D> {
    fn drop(self) {
        match self {
            Left::Nothing => {}
            Left::Files(_files) => {}
            Left::Sqlite(_left) => {}
            Left::Connection(_conn) => {}
            Left::Store(_store) => {}
        }
    }
}

/// A refusal of a store in files.
#[derive(Drop)]
pub struct Refused<D: Disk + Drop> {
    pub fault: OpenFault,
    pub left: Left<D>,
    /// The bytes of the log as they were found, where they were read.
    pub log: Option<Vec<u8>>,
}

/// What a refusal gives back.
#[derive(Drop)]
pub struct GivenBack<D: Disk + Drop> {
    pub fault: OpenFault,
    /// The files, where they were refused for what they hold.
    pub files: Option<Files<D>>,
    /// The log has the bytes again that it was found with, and they are synced.
    pub is_whole: bool,
}

/// Gives the log these bytes again, and returns whether they are synced. The database file is not touched.
fn give_back<D: Disk + Drop>(alloc: Global, files: &mut Files<D>, bytes: &[u8]) -> bool
    ensures { GivesBack D.Disk files.old files.new bytes.now result }
{
    if !files.may_be_used() {
        return false;
    }
    match put_back(alloc, &mut files.log, bytes) {
        Ok(()) => true,
        Err(_) => false,
    }
}

fn nothing_back<D: Disk + Drop>(fault: OpenFault) -> GivenBack<D>
    ensures { (result.fault ≡ fault) × (result.files ≡ None) }
{
    GivenBack {
        fault,
        files: None,
        is_whole: false,
    }
}

impl<D: Disk + Drop> Refused<D> {
    /// Where the files were refused for what they hold, they come back, and their log gets back the bytes that it was found with. For
    /// sqlite may have written a new header to it, or shut it behind its last commit. What it begins with alike is not written, so
    /// that no commit is touched. After any other refusal the files are closed.
    pub fn given_back(self, alloc: Global) -> GivenBack<D>
        ensures fault { result.fault ≡ self.fault }
        ensures files { IfSome result.files (λ now. GivesBackLeft self.left (option_map (λ bytes. bytes.items) self.log) now result.is_whole) }
        ensures contents { IsSome result.files → is_of_contents self.fault ≡ true }
        ensures there { is_of_contents self.fault ≡ true → IsSome self.log → self.left ≢ Nothing → IsSome result.files }
    {
        let Refused { fault, left, log } = self;
        if !fault.is_damage() {
            return nothing_back(fault);
        }
        let Some(bytes) = log else {
            return nothing_back(fault);
        };
        match left.into_files() {
            Some(mut files) => {
                let is_whole = give_back(alloc, &mut files, bytes.as_slice());
                GivenBack {
                    fault,
                    files: Some(files),
                    is_whole,
                }
            }
            None => nothing_back(fault),
        }
    }
}
