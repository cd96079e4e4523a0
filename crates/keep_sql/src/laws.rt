//! A law of the definitions that the contracts cite.

ghost use Rattle.keep_sql.specs.CrashThenOpen.{CrashThenOpen};

use sqlite_disk::Disk;

/// What a crash leaves of a store in files is what the next opening finds: of contents, the keeper then holds these and no others. So
/// where a change was acknowledged, the next opening holds it, and after a refusal what was there before or the whole change.
pub fn crash_then_open<D: Disk, N: Disk>()
    ensures { CrashThenOpen D.Disk N.Disk }
{}
