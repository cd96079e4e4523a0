//! What each call returns to an application, from its view alone: a definition for each call, in the order of its table.
//!
//! `specs/Answers.antt` finds the definition by the call, or by the pending call whose result has come; each of the others
//! is that of one call or of calls that are alike. `specs/Standing.antt` is what a refusal leaves. The laws of `laws` hold for
//! all of them.
//!
//! Proved, by the names of contracts: the laws stand in `docs/ISOLATION.md`. `refused_answers` counts no reply with a value beside its
//! code, as CKR_BUFFER_TOO_SMALL, as a refusal. A result's refusal ends its pending call and its operation, and may change tries
//! (`FailsAlone`).
#![tactic(auto)]

pub mod laws;
