//! Attributes as a caller gives them.

use crate::items::Items;

/// A byte string of any length.
pub type Bytes = Items<u8>;

/// An attribute's type and value, as a caller gives them: a `CK_ATTRIBUTE` (PKCS #11 v3.1, 3.4).
/// The type is a number, since a caller may give one that is unknown here.
#[derive(Debug, Drop, Clone, PartialEq, Eq)]
pub struct Entry {
    pub attr_type: u64,
    pub value: Bytes,
}

/// A list of entries, in the order of the call (PKCS #11 v3.1, 4.1).
pub type Template = Items<Entry>;
