//! The numbers of PKCS #11 as types, the values that its calls are made of, and their one encoding.
//!
//! - `Rv`, `AttrType`, `MechType`, `UserType`, `SessionState`, `ObjectClass` and `KeyType` are the codes
//!   and types of the standard that this token knows. `number` and `from_number` are each other's
//!   inverse: `from_number(n)` is the one value with the number `n`, or none where no value has it.
//! - `Items<T>` is a list that contracts see as a list. So a call or a reply is itself the value that a
//!   contract speaks of. `Bytes`, `Entry` and `Template` are made of it.
//! - `Codec` is a value's encoding. One definition, a `Format`, is both how a value is encoded and
//!   how it is decoded. Each format is canonical: what is decoded is encoded by just the bytes that
//!   were taken, and what is encoded is decoded again, whatever follows.
//! - `RW_SESSION`, `SERIAL_SESSION` and others are numbers that are no codes. Limits are among them.
//!
//! Proved, by the names of contracts: numbers and variants are each other's inverse (`IsInverse`). Each `Codec` decodes and encodes as
//! its `Format` says, unless an allocation fails (`Decodes`, `Encodes`), and each format is canonical (`IsCanonical`). Limits are as defined
//! (`limits_are_as_defined`).
#![tactic(auto)]

mod attr_type;
mod codec;
mod constants;
mod entry;
mod fault;
mod items;
mod key_type;
mod label;
mod laws;
mod list;
mod mech_type;
mod numbered;
mod object_class;
mod rv;
mod session_state;
mod user_type;

pub use attr_type::AttrType;
pub use codec::{Codec, decode_u32, decode_whole, encode_len, split_first};
pub use constants::{
    MAX_ENTRIES, MAX_PIN_LEN, MAX_RANDOM_LEN, MAX_SECRET_LEN, MAX_SESSION_COUNT,
    MAX_SESSION_OBJECTS, MIN_PIN_LEN, RW_SESSION, SERIAL_SESSION, UNAVAILABLE_INFORMATION,
    UNIQUE_ID_BYTES,
};
pub use entry::{Bytes, Entry, Template};
pub use fault::CodecFault;
pub use items::Items;
pub use key_type::KeyType;
pub use label::Label;
pub use laws::limits_are_as_defined;
pub use list::ListItem;
pub use mech_type::MechType;
pub use object_class::ObjectClass;
pub use rv::Rv;
pub use session_state::SessionState;
pub use user_type::UserType;
