//! Why bytes are no record.

use thiserror::Error;

#[derive(Clone, Copy, Debug, PartialEq, Eq, Error)]
pub enum DecodeFault {
    /// The bytes are no record's stored form.
    #[error("not the stored form of a record")]
    Form = 1,
    /// Not returned here, since a record is decoded without memory.
    #[error("out of memory")]
    Memory = 2,
}
