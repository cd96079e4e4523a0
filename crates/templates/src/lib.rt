//! How a template makes or changes an object, and why it doesn't (PKCS #11 v3.1, 4.1).
//!
//! `created`, `generated`, `unwrapped`, `copied` and `changed` are what C_CreateObject, C_GenerateKey,
//! C_UnwrapKey, C_CopyObject and C_SetAttributeValue make of a template. Each returns the object, or the
//! code of the first of these conditions that holds, each checked over the whole template before the
//! next one:
//!
//! 1. a type that no object has, or that the copied or changed object doesn't have:
//!    CKR_ATTRIBUTE_TYPE_INVALID;
//! 2. a value of the wrong form, a byte string above 1,024 bytes, a class or key type that is unknown
//!    here: CKR_ATTRIBUTE_VALUE_INVALID;
//! 3. two entries of one type with unequal values: CKR_TEMPLATE_INCONSISTENT;
//! 4. an attribute that only the token sets, or a change that isn't allowed: CKR_ATTRIBUTE_READ_ONLY;
//! 5. an attribute that doesn't go with the call, the class, the mechanism or the unwrapped length:
//!    CKR_TEMPLATE_INCONSISTENT;
//! 6. a required attribute is missing: CKR_TEMPLATE_INCOMPLETE;
//! 7. a length that the key type doesn't have: CKR_ATTRIBUTE_VALUE_INVALID, and of an unwrapped value
//!    CKR_WRAPPED_KEY_LEN_RANGE.
//!
//! That code is `MakeFault::Refused`. `MakeFault::Memory` comes only where no condition holds and an allocation
//! for the object failed.
//!
//! A copied or changed key that is sensitive or unextractable stays so: what is masked of it is masked
//! in the copy. `unwrap_fault` and its kin report on an unwrapped key before its value is known.
//! Which attributes a call takes, and the defaults, are the table of the crate `attrs`.
//!
//! Proved, by the names of contracts: the object that the table and the template make, or the code of the first condition that holds
//! (`Answers`). `Memory` comes only where none holds; no clause says that it comes only where an allocation failed. A copied or changed
//! key that is sensitive or unextractable stays so (`guarded`). A changed object stays where it is and public or private (`placed`).
#![tactic(auto)]

mod ahead;
mod conditions;
mod fault;
mod make;
mod making;
mod value;

pub use ahead::{unwrap_fault, unwraps_private_key, unwraps_token_key};
pub use fault::MakeFault;
pub use make::{changed, copied, created, generated, random_len, unwrapped};
