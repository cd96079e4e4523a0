//! Laws of the definitions that the contracts cite.

ghost use Rattle.std.specs.Prelude.{◌≡◌, ℕ, ◌<◌, ◌≤◌, List, length, true};
ghost use Rattle.ck_types.specs.declared.user_type.UserType.{UserType as Who};
ghost use Rattle.pin_record.specs.Records.{TokenRecord, tries_limit, tries_of};
ghost use Rattle.pin_record.specs.Charges.{Charges, Event, IsCharged, after, charged_checks, is_under_way, charges_opened, spent, without};

/// However checks of the PINs overlap, the tries of each PIN are two kinds of its checks: those in progress, and
/// those that ended wrong or abandoned since the last reset. So at most ten end wrong or abandoned
/// between two resets. It begins so with each record that is read.
///
/// Hence what `end_check`, `Record::with_pin` and `Record::initialized` require of the checks in progress:
/// once a check ends, those that are left are fewer than the tries, and they are always ten at most.
pub fn ten_tries()
    ensures begins { (who : Who) (r : TokenRecord) → tries_of r who ≤ tries_limit
        → IsCharged who (tries_of r who) (charges_opened r) }
    ensures goes_on { (who : Who) (s : ℕ) (c : Charges) (es : List Event) → IsCharged who s c
        → IsCharged who (spent who s c es) (after c es) }
    ensures ten { (who : Who) (s : ℕ) (c : Charges) (es : List Event) → IsCharged who s c
        → spent who s c es ≤ tries_limit }
    ensures fewer { (who : Who) (s : ℕ) (c : Charges) (number : ℕ) → IsCharged who s c
        → is_under_way (charged_checks c who) number ≡ true
        → length (without (charged_checks c who) number) < tries_of c.stored who }
    ensures few { (who : Who) (s : ℕ) (c : Charges) → IsCharged who s c
        → length (charged_checks c who) ≤ tries_limit }
{}
