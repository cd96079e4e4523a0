//! The work of the mechanisms and of PINs, as jobs that any worker thread may run outside the token.
//!
//! A call that needs work with a key or a PIN becomes a pending call of the token, and returns a `Job`. Any
//! thread that has time may run it: it holds all that its work needs, so `Job::run` waits for nobody. What comes
//! back is a `Done`. Its outcome is what the definition of the work makes of its job, or an allocation
//! failure, with the work as it was.
//!
//! - A cipher's work is a part or the last data of a stream (PKCS #11 v3.1, 5.8 and 5.10).
//! - The work of a message's MAC is a part, its signature, or to verify one (PKCS #11 v3.1, 5.13 and 5.15).
//! - A key's work is to wrap its value, or to unwrap one and make the key of it (PKCS #11 v3.1, 5.18).
//! - A PIN's work is to check a PIN against a verifier, to make a new one's verifier, or both (C_Login,
//!   C_InitPIN, C_SetPIN and C_InitToken; 5.5 and 5.6). It takes no memory. Tries are counted elsewhere,
//!   before the check and after it, and nothing is claimed of the time that a check takes.
//!
//! Proved, by the names of contracts: a `Done` has the definition's value of its job (`outcome_of`), or an allocation failure with the
//! work as it was. A PIN is right exactly where its verifier accepts it, and a signature where it is the whole MAC. An output is no
//! longer than its work allows (`HasRoom`). No clause says that a PIN's work is never returned for an allocation failure.
#![tactic(auto)]

mod done;
mod job;
mod job_cell;
mod key_wrapping;
mod message_tags;
mod outcome;
mod work;

pub use done::Done;
pub use job::Job;
pub use job_cell::JobCell;
pub use outcome::Outcome;
pub use work::Work;
