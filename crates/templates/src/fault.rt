//! Why a template makes nothing: the first condition that holds.

ghost use Rattle.std.specs.Prelude.{◌≡◌};
ghost use Rattle.templates.specs.declared.fault.MakeFault.TheVariants.{Memory};
ghost use Rattle.templates.specs.Faults.{template_fault};

use crate::conditions;
use crate::making::Making;
use attrs::class_in;
use ck_types::{Entry, Rv, SessionState};
use std::alloc::AllocError;
use thiserror::Error;

/// Why a template makes or changes no object.
#[derive(Clone, Copy, Debug, PartialEq, Eq, Error)]
pub enum MakeFault {
    /// The code of the first condition that holds.
    #[error("the template is refused with {0:?}")]
    Refused(Rv),
    /// No condition holds, and an allocation for the object failed.
    #[error("out of memory")]
    Memory,
}

impl From<AllocError> for MakeFault {
    ghost from_gives = { λ _ fault. fault ≡ Memory };

    fn from(_error: AllocError) -> MakeFault {
        MakeFault::Memory
    }
}

/// The code of the first condition that holds. The original is the object that is copied or changed,
/// and empty where a new one is made.
#[tactic(auto, unfolding(crate::specs::Faults::template_fault))]
pub(crate) fn find_fault(
    making: Making,
    state: SessionState,
    original: &[Entry],
    template: &[Entry],
) -> Option<Rv>
    ensures { result ≡ template_fault making state original.now template.now }
{
    if conditions::any_unknown(class_in(original), template) {
        return Some(Rv::AttributeTypeInvalid);
    }
    if conditions::any_ill_formed(template) {
        return Some(Rv::AttributeValueInvalid);
    }
    if conditions::any_contradicted(template) {
        return Some(Rv::TemplateInconsistent);
    }
    if conditions::any_read_only(making, state, original, template) {
        return Some(Rv::AttributeReadOnly);
    }
    if conditions::any_excluded(making, original, template)
        || conditions::is_disagreeing(making, template)
    {
        return Some(Rv::TemplateInconsistent);
    }
    if conditions::any_missing(making, template) {
        return Some(Rv::TemplateIncomplete);
    }
    if conditions::is_of_bad_len(making, template) {
        return Some(Rv::AttributeValueInvalid);
    }
    if conditions::is_of_bad_unwrapped_len(making, template) {
        return Some(Rv::WrappedKeyLenRange);
    }
    None
}
