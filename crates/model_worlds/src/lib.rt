//! What all applications are to each other: the definitions of the isolation theorem, and its laws.
//!
//! `specs/Worlds.antt` is what an event makes of all that the token is to all applications, each of which gets its replies
//! from its view (`model_answers`). `specs/Traces.antt` is what comes to one of them, and `specs/Tries.antt` how the tries of
//! PINs change. The laws (`laws`) speak of these definitions alone, for any worlds and any runs; the crates above prove that
//! the token's code refines them.
//!
//! Proved, by the names of contracts: the laws stand in `docs/ISOLATION.md`. In a sound world, who checks the user's PIN has a session,
//! so no such check is in progress where the token is initialised.
#![tactic(auto)]

mod check;
mod event;
pub mod laws;

pub use check::Check;
pub use event::Event;
