//! What one application sees of a token, and what its calls return.
//!
//! `specs/Views.antt` is what one application sees, and what is masked of it. `specs/Changes.antt` is what others see of what
//! it does. `specs/Answering.antt` is what an answer is, and `specs/Checked.antt` how the conditions of a call's table
//! determine it. `specs/Refusals.antt` is which replies are refusals, and the two resource errors, which no answer returns.
//!
//! Proved, by the names of contracts: a pending call stands in the view with what it asks, and the handles of its keys are in the call.
//! The laws stand in `docs/ISOLATION.md`.
#![tactic(auto)]

mod fault;

pub use fault::Fault;
