//! Calls that make, wrap and unwrap keys, and give random bytes (PKCS #11 v3.1, 5.18 and 5.19).
//!
//! Each function returns the code of the first check of its call's table that fails. Its one clause says that the answer is
//! the written one to what the application sees, or that it was refused and nothing has changed. The clause is `AtDesk` where
//! no store is used, `IsDone` where one is, and `IsDoneAs` where the call may return a job. `unwrap_key::unwrapped` takes the
//! outcome of that job.
//!
//! Proved, by the names of contracts: C_GenerateKey and the result of C_UnwrapKey with at most one write, C_WrapKey and C_UnwrapKey with
//! none.
#![tactic(auto)]

mod found_key;
pub mod generate_key;
pub mod generate_random;
pub mod unwrap_key;
pub mod wrap_key;
