//! The mechanism of an operation that is to begin.

ghost use Rattle.std.specs.Prelude.{◌≡◌};
ghost use Rattle.sessions.specs.Sessions.{session_at};
ghost use Rattle.serve_operations.specs.Beginning.{choice_for, chosen_with, kind_of};

use crate::kinds::{is_in_progress, purpose_for};
use crate::{mac_mechanisms, parameter};
use aes_modes::Direction;
use ck_calls::Mechanism;
use ck_mechanisms::find_for;
use ck_types::MechType;
use desk::Desk;
use ops::{Kind, MacPlace};
use precede::Condition;

/// An operation of either kind, by its mechanism with its parameter.
#[derive(Clone, Copy)]
pub(crate) enum Chosen {
    /// One that encrypts or decrypts.
    Cipher(Direction, streams::Mechanism),
    /// One that signs or verifies.
    Mac(MacPlace, macs::Mechanism),
}

impl Chosen {
    /// Which operation it is.
    pub(crate) fn kind(&self) -> Kind
        ensures { result ≡ kind_of self.now }
    {
        match self {
            Chosen::Cipher(direction, _) => Kind::Cipher(*direction),
            Chosen::Mac(place, _) => Kind::Mac(*place),
        }
    }
}

/// The mechanism's type and the operation that is to begin, where none of its kind is in progress.
pub(crate) fn choose(
    desk: &Desk,
    kind: Kind,
    session: u64,
    mechanism: &Mechanism,
) -> Result<(MechType, Chosen), Condition>
    ensures { result ≡ choice_for kind (session_at desk.now.sessions.sessions session) mechanism.now }
{
    if is_in_progress(desk, kind, session) {
        return Err(Condition::OperationActive);
    }
    let mech_type = find_for(purpose_for(kind), mechanism.mech_type).ok_or(
        Condition::WrongMechanism,
    )?;
    let chosen = chosen_with(kind, mech_type, mechanism.parameter.as_slice()).ok_or(
        Condition::WrongParameter,
    )?;
    Ok((mech_type, chosen))
}

/// The operation of a kind by its mechanism, where the parameter is one of that.
fn chosen_with(kind: Kind, mech_type: MechType, parameter: &[u8]) -> Option<Chosen>
    ensures { result ≡ chosen_with kind mech_type parameter.now }
{
    match kind {
        Kind::Cipher(direction) => {
            let mechanism = parameter::with_parameter(mech_type, parameter)?;
            Some(Chosen::Cipher(direction, mechanism))
        }
        Kind::Mac(place) => {
            let mechanism = mac_mechanisms::with_parameter(mech_type, parameter)?;
            Some(Chosen::Mac(place, mechanism))
        }
    }
}
