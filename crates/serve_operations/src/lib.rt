//! Calls that encrypt and decrypt, sign and verify (PKCS #11 v3.1, 5.8, 5.10, 5.13 and 5.15). They begin an operation of a
//! session under a key, and work on data, all at once or in parts.
//!
//! Both kinds of operations begin in `init`; `cipher` and `mac` have the work on data. Each function returns the code of the first
//! check of its call's table that fails. Its clauses say that the answer is the model's to what the application sees, or that it was
//! refused and nothing has changed: `IsDone` where a key is read from the store, `AtDesk` where none is. Work with a key is a job: the
//! call returns it, and `cipher::update_done`, `cipher::final_done`, `cipher::bad_padding`, `mac::update_done`, `mac::sign_done` and `mac::verify_done` answer
//! its outcome.
//!
//! Proved, by the names of contracts: Init calls with no write; all others at the desk alone. `reply` and `left` say what a result
//! returns and leaves.
#![tactic(auto)]

mod chosen;
pub mod cipher;
mod data;
pub mod init;
mod kinds;
pub mod mac;
mod mac_mechanisms;
mod parameter;
