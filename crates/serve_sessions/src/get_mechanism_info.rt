//! C_GetMechanismInfo (PKCS #11 v3.1, 5.5).

ghost use Rattle.std.specs.Prelude.{◌≢◌};
ghost use Rattle.desk.specs.Desks.{DeskState};
ghost use Rattle.model_views.specs.Answering.{Replies};
ghost use Rattle.model_session_answers.specs.Mechanisms.{get_mechanism_info};
ghost use Rattle.serve_base.specs.Refusing.{AtDesk};

use crate::SLOT;
use ck_calls::Reply;
use ck_mechanisms::{find, info_of};
use precede::Condition;
use serve_base::Refusal;

/// C_GetMechanismInfo (PKCS #11 v3.1, 5.5).
/// Codes: the checks of C_GetMechanismInfo (`precede`). Returns the sizes of a mechanism's keys, and its flags. Changes nothing.
pub fn serve(slot: u64, mechanism: u64) -> Result<Reply, Refusal>
    ensures serves { (d : DeskState) → AtDesk Replies (λ v. get_mechanism_info v slot mechanism) d result d }
    ensures small { result ≢ Err Refusal.Memory }
{
    if slot != SLOT {
        return Err(Refusal::Condition(Condition::NoSlot));
    }
    let mechanism = find(mechanism).ok_or(Condition::WrongMechanism)?;
    Ok(Reply::MechanismInfo(info_of(mechanism)))
}
