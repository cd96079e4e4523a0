//! The errors of a store of trees, as sqlite's.

ghost use Rattle.std.specs.Prelude.{◌≡◌};
ghost use Rattle.sqlite.specs.State.{store_error};

use sqlite::{Error, ErrorCode};
use sqlite_trees::error::StoreError;

/// What a statement would have returned.
pub fn error_of(error: StoreError) -> Error
    ensures { result ≡ store_error error }
{
    Error::SqliteFailure(match error {
        StoreError::OutOfMemory => ErrorCode::OutOfMemory,
        StoreError::Io => ErrorCode::SystemIoFailure,
        StoreError::Corrupt => ErrorCode::DatabaseCorrupt,
        StoreError::Full => ErrorCode::DiskFull,
        StoreError::Broken => ErrorCode::Closed,
        StoreError::Unstorable => ErrorCode::TooBig,
    })
}
