//! Checks of a PIN: a charge at the beginning, and what the end makes of it.

ghost use Rattle.std.specs.Prelude.{◌≡◌, ◌<◌, IsTrue, is_some, true};
ghost use Rattle.pin_record.specs.Records.{charged, checked, tries_limit, tries_of, verifier_of};

use crate::pin::TRIES_LIMIT;
use crate::record::Record;
use ck_types::UserType;

/// The record once a check of a PIN may begin: its charge is one more try. The check is to begin only
/// after this record is stored. No memory is taken.
///
/// The PIN is set and isn't locked.
pub fn begin_check(record: Record, who: UserType) -> Record
    requires set { is_some (verifier_of «record» who) ≡ true }
    requires unlocked { tries_of «record» who < tries_limit }
    ensures { result ≡ charged «record» who }
{
    record.with_tries(who, record.tries(who) + 1)
}

/// The record once a check of a PIN has ended. Where the PIN was right, its tries are the checks of it
/// that are still `under_way`; else its charge stays. No memory is taken.
///
/// Where it was right, the tries have the charge of this check and of each check that is in progress.
/// So there are fewer in progress than tries.
pub fn end_check(record: Record, who: UserType, right: bool, under_way: u8) -> Record
    requires { IsTrue right → under_way < tries_of «record» who }
    ensures { result ≡ checked «record» who right under_way }
{
    if !right {
        return record;
    }
    record.with_tries(who, under_way)
}
