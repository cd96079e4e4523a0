//! What a token over a keeper is to all applications: the desk of each, the contents, and the world that they refine.
//!
//! `specs/Applications.antt` says which world a state depicts (refines), and what an event at one desk is to the others.
//! `specs/Runs.antt` says what a run of events is, what a crash may leave after it, and which replies are `CKR_DEVICE_ERROR`.
//! `specs/Lives.antt` is how many checks of a PIN fail over several lives of a token, which crashes end; `laws` has its bound.
//! `proofs/` proves that an event at one desk is a step of the world. `token` refines them, over any keeper.
#![tactic(auto)]

pub mod laws;
