//! Object search: which objects a template finds (C_FindObjectsInit, C_FindObjects and C_FindObjectsFinal; PKCS #11 v3.1,
//! 5.7.7 to 5.7.9).
//!
//! `matches` is whether an object has each attribute that the template gives, with just that value,
//! and may reveal it. So a search by CKA_VALUE never finds a sensitive or unextractable key, and no
//! search reveals anything of its value. An attribute of an unknown type matches nothing, and an empty
//! template matches every object.
//!
//! `push_if_matches` reads one object at a time, and keeps no more of it than a note.
//!
//! Proved, by the names of contracts: `push_if_matches` takes an object just where it matches (`searched`), the same where a masked value is taken
//! away. A `Mark` is of what may be seen (`marks_are_blind`), excludes no object that a template finds (`marks_pass_over`), and decides of
//! truth values, classes and key types (`marks_decide`).
#![tactic(auto)]

mod codes;
mod laws;
mod marks;
mod matching;
mod searching;

pub use laws::{marks_are_blind, marks_decide, marks_pass_over, marks_tell_privacy};
pub use marks::{Mark, Wanted};
pub use matching::matches;
pub use searching::push_if_matches;
