//! The object model of a PKCS #11 token: the attributes that objects have, and the bytes that they are stored as.
//!
//! - `Object` is a data object or a secret key. It is a finite map from attribute types to values, and
//!   keeps that it has just the attributes of its class, each in its form: a truth value is one byte 0
//!   or 1, a number is eight bytes, big-endian, anything else is at most 1,024 bytes. CKA_CLASS and
//!   CKA_KEY_TYPE are among those known here, CKA_VALUE_LEN is the length of CKA_VALUE, and that
//!   length is one that the key type has. Contracts see an object as the list of its attributes by
//!   rising number, so equal objects are equal lists.
//! - `attributes` is the table of attributes: the form of each, and which objects have it. It also has what a
//!   template may say of it in each of the calls that make or change an object.
//! - `encode` and `decode` are the stored form. Each object has one: `decode` accepts just what
//!   `encode` writes. `size` is its length. `decode_old` reads the form that older stores have.
//!
//! What others may see of an object is a definition, `mask` of `specs/Masking.antt`: the object without
//! the value of a sensitive or unextractable key.
//!
//! Proved, by the names of contracts: an `Object` has just the attributes of its class, each in its form and limits (`IsObject`). The
//! code's table is the definition's. `decode` accepts just what `encode` writes, and `decode_old` just what format 1 has, each in one
//! spelling (`old_form`).
#![tactic(auto)]

mod check;
mod fault;
mod object;
mod old_stored;
mod stored;
mod table;

pub use check::{
    attribute_in, class_from, class_in, find_attribute, fits_form, fits_key_type, key_type_from,
    key_type_in, number_in,
};
pub use fault::DecodeFault;
pub use object::Object;
pub use old_stored::decode_old;
pub use stored::{decode, encode, size};
pub use table::{AttributeRow, DefaultValue, Form, Holder, Rule, attributes};
