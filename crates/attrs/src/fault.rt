//! Why bytes are no object.

use thiserror::Error;

#[derive(Clone, Copy, Debug, PartialEq, Eq, Error)]
pub enum DecodeFault {
    /// The bytes are no object's stored form.
    #[error("not the stored form of an object")]
    Form = 1,
    #[error("out of memory")]
    Memory = 2,
}
