//! Calls on objects (PKCS #11 v3.1, 5.7): they make, copy, read, change, destroy and find session and token objects.
//!
//! Each function returns the code of the first check of its call's table that fails. Its one clause (`IsDone`, or `AtDesk`
//! where no object is read) says three things:
//! - the answer is the model's to what the application sees, or it was refused and nothing has changed;
//! - how many writes it tries;
//! - `CKR_DEVICE_ERROR` comes only where a failure of the keeper was counted.
//!
//! Each allocates first, writes once or gives the first handle, then can't fail.
//!
//! C_FindObjectsInit reads each object that the application sees once, and gives handles to those that its template
//! matches and that have none. C_FindObjects returns the handles, a part at a time, and C_FindObjectsFinal ends the search.
//!
//! Proved, by the names of contracts: C_CreateObject, C_CopyObject, C_DestroyObject and C_SetAttributeValue with at most one write, the
//! others with none.
#![tactic(auto)]

pub mod copy_object;
pub mod create_object;
pub mod destroy_object;
pub mod find_objects;
pub mod find_objects_init;
pub mod get_attribute_value;
pub mod get_object_size;
mod giving;
pub mod set_attribute_value;
