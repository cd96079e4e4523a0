//! Access control and redaction: who may see an object, who may write it, and which of its attributes are revealed.
//!
//! - `visible` and `needs_read_write` are the access table (PKCS #11 v3.1, 4.4): a session sees a public object
//!   in any state and a private one where the user is logged in; it writes what it sees, a token object
//!   only where it is a R/W session (`is_read_write`).
//! - `masked` is whether an object is a key whose value is redacted, since it is sensitive or unextractable.
//!   `reveals` is whether an attribute may be revealed: all but a masked key's CKA_VALUE. Its length,
//!   CKA_VALUE_LEN, is revealed. `reveals_number` is the same of the attribute with a number, as a
//!   template or a query gives it.
//!
//! No call takes memory. `masked`, `reveals`, `reveals_number` and what may be seen are the same for an
//! object without its masked value, so no result depends on that value.
//!
//! Proved, by the names of contracts: `visible`, `needs_read_write`, `masked` and `reveals` are the access table, and what is asked of an
//! object is the same without its masked value (`on_mask`).
#![tactic(auto)]

mod access;
mod masking;

pub use access::{is_read_write, is_user, needs_read_write, visible};
pub use masking::{masked, reveals, reveals_number};
