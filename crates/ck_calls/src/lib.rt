//! The calls of PKCS #11 that this token has, and what they return.
//!
//! - `Call` has a variant for each of the 41 calls, with named fields, and `Function` names them alone.
//! - `Reply` is what a call returns: a code, or what comes with `CKR_OK`, with `CKR_BUFFER_TOO_SMALL` or
//!   with the codes of C_GetAttributeValue.
//! - A call is a row of `with_calls!`: its number, fields, shape of reply and checks. Numbers, shapes, and the bytes of requests and the
//!   order of checks in the crates above are walks over these rows. `Shape` is what the replies to a function carry.
//! - `need` is how many random bytes a call takes, by the call alone. `AppCall` is a call of an application, with these.
//!
//! Proved, by the names of contracts: numbers and variants are each other's inverse (`IsInverse`). `need` is the number of a call's
//! random bytes (`random_bytes`).
#![tactic(auto)]

mod app_call;
mod call;
mod codec;
mod fields;
mod function;
mod random;
mod reply;
mod rows;
mod shape;

pub use app_call::AppCall;
pub use call::Call;
pub use fields::{AttributeQuery, Mechanism, Query};
pub use function::Function;
pub use random::need;
pub use reply::{AttributeValue, MechanismInfo, Output, Reply, SessionInfo, TokenInfo};
pub use shape::{Shape, is};
