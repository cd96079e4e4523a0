//! What is found in files of which a bit is flipped, or which are cut or missing.

use super::disks::{OverStore, files_of, store_in};
use super::given::{Change, make};
use Change::{Insert, Remove, Replace, SetRecord};
use keep::{Keep, KeepFault, ListKeep};
use keep_sql::OpenFault;
use pin_record::Record;
use sqlite::Files;
use sqlite_disk::Memory;
use std::alloc::{AllocError, Global};
use std::process::Abort;
use std::test::Fail;

/// What is in the database file, and then what is in the log.
const CHANGES: [Change; 7] = [
    SetRecord(1),
    Insert(1),
    Insert(2),
    Insert(3),
    Replace(1, 4),
    SetRecord(2),
    Remove(2),
];

/// So many of the changes are in the database file.
const COPIED: usize = 3;

/// What is kept: the ids and values of the objects, and the record.
type State = (Vec<(u64, u8)>, Record);

/// The bytes of a store's two files.
#[derive(Drop)]
struct Stored {
    log: Vec<u8>,
    db: Vec<u8>,
}

/// Makes the changes from one on to another.
#[derive(Clone, Copy)]
struct Making {
    from: usize,
    to: usize,
}

impl OverStore for Making {
    fn over<K: Keep>(&mut self, alloc: Global, mut keep: K) -> Result<K, Fail> {
        for (at, change) in CHANGES.iter().enumerate() {
            if self.from <= at && at < self.to {
                make(alloc, &mut keep, *change)?;
            }
        }
        Ok(keep)
    }
}

/// Reads what is kept, where each read is answered.
#[derive(Drop)]
struct Reading(Option<State>);

impl OverStore for Reading {
    fn over<K: Keep>(&mut self, alloc: Global, mut keep: K) -> Result<K, Fail> {
        self.0 = state_of(alloc, &mut keep).ok();
        Ok(keep)
    }
}

/// What is kept. `Damaged` where a value isn't one byte.
fn state_of<K: Keep>(alloc: Global, keep: &mut K) -> Result<State, KeepFault> {
    let mut rows = Vec::new(alloc);
    for id in keep.ids(alloc)? {
        let object = keep.object(alloc, id)?;
        match object.value() {
            [byte] => rows.push((id, *byte))?,
            _ => return Err(KeepFault::Damaged),
        }
    }
    Ok((rows, keep.get_record()))
}

/// The store after all changes, of which the first are in the database file and the others in the log.
fn made(alloc: Global) -> Result<Stored, Fail> {
    let files = files_of(alloc, &[], &[])?;
    let (files, _) = store_in(
        alloc,
        files,
        64,
        &mut Making {
            from: 0,
            to: COPIED,
        },
    )?;
    let (files, _) = store_in(
        alloc,
        files,
        64,
        &mut Making {
            from: COPIED,
            to: CHANGES.len(),
        },
    )?;
    bytes_in(alloc, &files)
}

fn bytes_in(alloc: Global, files: &Files<Memory>) -> Result<Stored, Fail> {
    let log = Vec::from_slice(alloc, files.log.bytes())?;
    let db = Vec::from_slice(alloc, files.db.bytes())?;
    Ok(Stored { log, db })
}

/// What is kept after each number of changes.
fn states(alloc: Global) -> Result<Vec<State>, Fail> {
    let mut states = Vec::new(alloc);
    let mut model = ListKeep::new(alloc, Record::new());
    states.push(state_of(alloc, &mut model)?)?;
    for change in CHANGES {
        make(alloc, &mut model, change)?;
        states.push(state_of(alloc, &mut model)?)?;
    }
    Ok(states)
}

/// What an opening came to.
#[derive(Clone, Copy, Debug, PartialEq, Eq)]
enum Found {
    /// It was refused.
    Refused(OpenFault),
    /// A read was refused.
    Unread,
    /// The store has what so many changes make.
    Has(usize),
    /// It has something else.
    Other,
}

fn found_in(alloc: Global, states: &[State], log: &[u8], db: &[u8]) -> Result<Found, Fail> {
    let mut reading = Reading(None);
    let files = files_of(alloc, log, db)?;
    let (_files, fault) = store_in(alloc, files, 64, &mut reading)?;
    if let Some(fault) = fault {
        return Ok(Found::Refused(fault));
    }
    let Some((rows, record)) = reading.0 else {
        return Ok(Found::Unread);
    };
    for (changes, (wanted, of)) in states.iter().enumerate() {
        if rows.as_slice() == wanted.as_slice() && record == *of {
            return Ok(Found::Has(changes));
        }
    }
    Ok(Found::Other)
}

/// How often each kind was found.
#[derive(Clone, Copy, Debug, PartialEq, Eq)]
struct Counts {
    refused: u64,
    unread: u64,
    whole: u64,
    copied: u64,
    between: u64,
}

impl Counts {
    const NONE: Counts = Counts {
        refused: 0,
        unread: 0,
        whole: 0,
        copied: 0,
        between: 0,
    };

    /// Counts what was found. False where it is a new token, an older store than the file has, or another value.
    fn count(&mut self, found: Found) -> bool {
        let place = match found {
            Found::Refused(_) => &mut self.refused,
            Found::Unread => &mut self.unread,
            Found::Has(changes) if changes == CHANGES.len() => &mut self.whole,
            Found::Has(changes) if changes == COPIED => &mut self.copied,
            Found::Has(changes) if changes > COPIED => &mut self.between,
            Found::Has(_) | Found::Other => return false,
        };
        *place = place.saturating_add(1);
        true
    }
}

/// The bytes with one of them changed.
fn with_flip(alloc: Global, bytes: &[u8], place: usize, bits: u8) -> Result<Vec<u8>, AllocError> {
    let mut flipped = Vec::new(alloc);
    for (at, byte) in bytes.iter().enumerate() {
        flipped.push(if at == place { *byte ^ bits } else { *byte })?;
    }
    Ok(flipped)
}

/// The first bytes.
fn cut(bytes: &[u8], len: usize) -> &[u8] {
    bytes.get(..len).unwrap_or(bytes)
}

/// Every so many bytes one is flipped in one bit.
const STEP: usize = 97;

/// Every so many bytes a file is cut.
const CUT: usize = 211;

const BITS: [u8; 8] = [1, 2, 4, 8, 16, 32, 64, 128];

fn bits_at(place: usize) -> u8 {
    BITS.get(place % 8).copied().unwrap_or(1)
}

#[test]
fn a_flipped_bit_of_the_database_file_is_found_out(rt: HostRuntime) -> Result<(), Fail> {
    let alloc = rt.alloc();
    let states = states(alloc)?;
    let stored = made(alloc)?;
    let mut counts = Counts::NONE;
    for turn in 0..stored.db.len() / STEP {
        let place = turn.saturating_mul(STEP);
        let db = with_flip(alloc, &stored.db, place, bits_at(turn))?;
        let found = found_in(alloc, &states, &stored.log, &db)?;
        assert!(rt; counts.count(found), "byte {place}: {found:?}");
    }
    assert!(rt; counts.copied == 0 && counts.between == 0, "{counts:?}");
    Ok(())
}

#[test]
fn a_flipped_bit_of_the_log_brings_back_no_more_than_its_last_commits(
    rt: HostRuntime,
) -> Result<(), Fail> {
    let alloc = rt.alloc();
    let states = states(alloc)?;
    let stored = made(alloc)?;
    let mut counts = Counts::NONE;
    for turn in 0..stored.log.len() / STEP {
        let place = turn.saturating_mul(STEP);
        let log = with_flip(alloc, &stored.log, place, bits_at(turn))?;
        let found = found_in(alloc, &states, &log, &stored.db)?;
        assert!(rt; counts.count(found), "byte {place}: {found:?}");
        // No more than the last two commits are lost without a word, or three where the stored checksum of the first is hit.
        let is_told = match found {
            Found::Has(changes) => changes.saturating_add(3) >= CHANGES.len(),
            _ => true,
        };
        assert!(rt; is_told, "byte {place}: {found:?}");
    }
    assert!(rt; counts.refused > 0 && counts.between > 0, "{counts:?}");
    Ok(())
}

#[test]
fn a_file_that_is_cut_is_no_new_token(rt: HostRuntime) -> Result<(), Fail> {
    let alloc = rt.alloc();
    let states = states(alloc)?;
    let stored = made(alloc)?;
    let mut counts = Counts::NONE;
    for turn in 0..stored.db.len() / CUT {
        let len = turn.saturating_mul(CUT);
        let found = found_in(alloc, &states, &stored.log, cut(&stored.db, len))?;
        assert!(rt; counts.count(found), "cut to {len}: {found:?}");
    }
    for len in 0..20 {
        let found = found_in(alloc, &states, &stored.log, cut(&stored.db, len))?;
        assert!(rt; counts.count(found), "cut to {len}: {found:?}");
    }
    for turn in 0..stored.log.len() / CUT {
        let len = turn.saturating_mul(CUT);
        let found = found_in(alloc, &states, cut(&stored.log, len), &stored.db)?;
        assert!(rt; counts.count(found), "the log cut to {len}: {found:?}");
    }
    Ok(())
}

/// A log that is missing costs what came since the last opening, and a file that is missing is noticed.
#[test]
fn a_file_that_is_gone_is_missed(rt: HostRuntime) -> Result<(), Fail> {
    let alloc = rt.alloc();
    let states = states(alloc)?;
    let stored = made(alloc)?;
    assert_eq!(rt;
        found_in(alloc, &states, &stored.log, &stored.db)?,
        Found::Has(CHANGES.len())
    );
    assert_eq!(rt;
        found_in(alloc, &states, &[], &stored.db)?,
        Found::Has(COPIED)
    );
    assert_eq!(rt;
        found_in(alloc, &states, &stored.log, &[])?,
        Found::Refused(OpenFault::FileLost)
    );
    assert_eq!(rt;
        found_in(alloc, &states, &stored.log, b"S")?,
        Found::Refused(OpenFault::FileLost)
    );
    assert_eq!(rt; found_in(alloc, &states, &[], &[])?, Found::Has(0));
    Ok(())
}
