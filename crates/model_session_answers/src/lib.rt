//! What the calls of slots, sessions, logins and PINs return to an application, from its view alone: a definition for
//! each call, in the order of the call's table.
//!
//! `specs/Pins.antt` is what a call that tests a PIN checks and charges. `proofs/` has of each definition that it reveals
//! nothing that is masked, and what a result does (`proofs/Over.antt`); `model_answers` gathers them.
#![tactic(auto)]
