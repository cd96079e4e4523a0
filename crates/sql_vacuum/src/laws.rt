//! A law of the definitions that the contracts cite.

ghost use Rattle.sql_vacuum.specs.VacuumThenOpen.{VacuumThenOpen};

use sqlite_disk::Disk;

/// What the next opening of a new file finds is what the store held whose rows it has. So the file may take the old one's place, once
/// the old one's log is empty: a crash leaves one of the two, and both hold the same.
pub fn vacuum_then_open<N: Disk>()
    ensures { VacuumThenOpen N.Disk }
{}
