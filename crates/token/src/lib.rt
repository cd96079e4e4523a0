//! A PKCS #11 token with one slot for several applications, each of which is a number. It is over a keeper (a storage backend)
//! of its token objects.
//!
//! What happens to it is an `Event`: a call of an application with its random bytes, the result of a call's job, or a
//! disconnect (`Gone`). A call that needs work with a key returns a `Job` instead of a reply. Any thread runs the job, and
//! `finish` takes its result.
//!
//! # What is promised
//!
//! An application's replies depend on what it sees of the token (`model_views/specs/Views.antt`), and on nothing else:
//! `model_answers/specs` has a definition for each call. The state of the token for all applications is a world
//! (`model_worlds/specs/Worlds.antt`). Each event changes it by its answer, or is refused and changes nothing but that its call
//! is pending no more (`Token::{call, finish, gone, run}`). For a whole run that gives: an application that met no refusal got
//! what its own trace determines, whatever the others do. `IsRun` and the laws of `laws` say it, and speak of the definitions
//! alone. An event tries at most one write; what a crash may leave is defined in the same words.
//!
//! `CKR_DEVICE_ERROR` is returned only where a failure of the keeper was counted (`cause`). That `CKR_HOST_MEMORY` comes only
//! where an allocation failed stands in no clause: it follows from the types, and tests show that calls succeed.
//!
//! Proved, by the names of contracts: the one dispatch answers each of the 41 calls by its definition (`IsServedIf`). While the disk is
//! faithful an event takes the world that the token refines (`Shows`) to the next one (`world`). What is returned is the written answer
//! or a resource error (`says`, `told`). A run gives each application the replies of its own trace (`IsRun`). `Token::new` refines what
//! the keeper holds (`shows`), with no call pending (`jobs`), and the ten tries begin (`sound`). Whether the disk is faithful or not:
//! - An event tries at most one write (`counts`). Each CKR_DEVICE_ERROR has a counted failure (`cause`, in a run `accounts`).
//! - CKR_HOST_MEMORY never comes to a call that takes no memory (`small`, `takes_no_memory`).
//! - A `Done` of another application, question or function is CKR_FUNCTION_FAILED and changes nothing (`other`). One that was run from
//!   another job is taken by its own value (`taken`).
//! - What others have stays, and where an event is refused the own things too, but for what it ends (`others`, `stays`, `refused`).
//! - After `gone` the application has nothing, and no check is its own (`own`, `checks`, `others`, `keep`).
//! - Replies to calls whose data fits a frame are short (`short`, `IsShortCall`, `IsShort`, `IsShortTask`).
#![tactic(auto)]

mod ending;
mod no_memory;
mod ran;
mod serving;
mod token;

pub use mech::{Done, Job};
pub use model_worlds::{Check, Event, laws};
pub use ran::Ran;
pub use serve_base::Out;
pub use token::Token;
