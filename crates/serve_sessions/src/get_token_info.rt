//! C_GetTokenInfo (PKCS #11 v3.1, 5.5).

ghost use Rattle.std.specs.Prelude.{◌≢◌};
ghost use Rattle.model_session_answers.specs.GetTokenInfo.{get_token_info};
ghost use Rattle.serve_base.specs.Refusing.{IsDone};

use crate::SLOT;
use ck_calls::{Reply, TokenInfo};
use desk::Desk;
use keep::Keep;
use pin_record::token_flags;
use precede::Condition;
use serve_base::{Refusal, Store};

/// C_GetTokenInfo (PKCS #11 v3.1, 5.5).
/// Codes: the checks of C_GetTokenInfo (`precede`). Returns the token's label and flags, and how many sessions the application has. Changes
/// nothing.
pub fn serve<K: Keep>(desk: &Desk, store: &Store<K>, slot: u64) -> Result<Reply, Refusal>
    ensures done { IsDone K.terms 0 (λ v. get_token_info v slot) store.now store.now desk.now result desk.now }
    ensures small { result ≢ Err Refusal.Memory }
{
    if slot != SLOT {
        return Err(Refusal::Condition(Condition::NoSlot));
    }
    let record = store.get_record();
    Ok(Reply::TokenInfo(TokenInfo {
        label: *record.label(),
        flags: token_flags(&record),
        session_count: desk.session_count() as u64,
        rw_session_count: desk.read_write_session_count() as u64,
    }))
}
