//! Calls on sessions and on the token with its PINs (PKCS #11 v3.1, 5.5 and 5.6).
//!
//! Each function returns the code of the first check of its call's table that fails. Its one clause says that the answer is
//! the written one to what the application sees, or that it was refused and nothing has changed. The clause is `AtDesk` where
//! no store is used, and `IsDone` where one is. It is `IsDoneAs` where the call returns a job and writes. It is that also where
//! the answer depends on something in the store that the application doesn't see.
//!
//! A PIN is checked in two steps. `login::serve`, `set_pin::serve` and `init_token::serve` store the charge of the check and
//! only then return its job. What its outcome does is defined by `login::log_in`, `set_pin::store_pin`, `init_pin::store_pin`,
//! `init_token::initialize` and `init_token::reinitialize`, for a desk without the pending call. A wrong PIN changes nothing, since its
//! charge is stored already.
//!
//! Proved, by the names of contracts: C_Login, C_SetPIN and C_InitToken store the charge of their check, one write, and return their job
//! only then (`asker`). A result has one write at most. All others are at the desk alone, C_GetTokenInfo with no write.
#![tactic(auto)]

pub mod close_session;
pub mod get_mechanism_info;
pub mod get_mechanism_list;
pub mod get_session_info;
pub mod get_token_info;
pub mod init_pin;
pub mod init_token;
pub mod login;
pub mod logout;
pub mod open_session;
mod pin_checks;
pub mod set_pin;

/// The only slot.
const SLOT: u64 = 0;
