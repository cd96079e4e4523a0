//! C_GetMechanismList (PKCS #11 v3.1, 5.5).

ghost use Rattle.std.specs.Prelude.{◌≡◌, IfOk};
ghost use Rattle.ck_mechanisms.specs.Table.{listed_numbers};
ghost use Rattle.desk.specs.Desks.{DeskState};
ghost use Rattle.model_views.specs.Answering.{Replies};
ghost use Rattle.model_session_answers.specs.Mechanisms.{get_mechanism_list};
ghost use Rattle.serve_base.specs.Refusing.{AtDesk};

use crate::SLOT;
use ck_calls::Reply;
use ck_mechanisms::LISTED;
use ck_types::Items;
use precede::Condition;
use serve_base::Refusal;
use std::alloc::{AllocError, Global};

/// C_GetMechanismList (PKCS #11 v3.1, 5.5).
/// Codes: the checks of C_GetMechanismList (`precede`). Returns the types of the token's mechanisms, rising. Changes nothing.
pub fn serve(alloc: Global, slot: u64) -> Result<Reply, Refusal>
    ensures { (d : DeskState) → AtDesk Replies (λ v. get_mechanism_list v slot) d result d }
{
    if slot != SLOT {
        return Err(Refusal::Condition(Condition::NoSlot));
    }
    Ok(Reply::MechanismList(numbers(alloc)?))
}

fn numbers(alloc: Global) -> Result<Items<u64>, AllocError>
    ensures { IfOk result (λ numbers. numbers ≡ listed_numbers) }
{
    let mut numbers = Items::new(alloc);
    for mechanism in LISTED {
        numbers.push(mechanism.number())?;
    }
    Ok(numbers)
}
