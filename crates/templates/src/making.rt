//! The calls that a template is given to.

ghost use Rattle.std.specs.Prelude.{◌≡◌};
ghost use Rattle.templates.specs.Making.{rule};

use attrs::{AttributeRow, Rule};
use ck_types::MechType;

/// A call that makes or changes an object, and what it has beside the template.
#[derive(Clone, Copy, Debug, PartialEq, Eq)]
pub enum Making {
    Create,
    /// By a mechanism that generates keys.
    Generate(MechType),
    /// A value of so many bytes.
    Unwrap(usize),
    Copy,
    Set,
}

/// The column of the table of attributes that is the call's.
pub(crate) fn rule_of(making: Making, row: &AttributeRow) -> Rule
    ensures { result ≡ rule making row.now }
{
    match making {
        Making::Create => row.create,
        Making::Generate(_) => row.generate,
        Making::Unwrap(_) => row.unwrap,
        Making::Copy => row.copy,
        Making::Set => row.set,
    }
}
