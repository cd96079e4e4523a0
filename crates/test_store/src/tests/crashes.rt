mod disks;
mod lasting;
mod script;

use disks::{Disks, ENDLESS, Work, disks, endings, work_in};
use keep::Keep;
use lasting::{Lasting, lasting_of, states};
use script::{VIEWS, told_as_wanted};
use sqlite::Files;
use sqlite_disk::Memory;
use std::alloc::Global;
use std::process::Abort;
use std::test::*;
use test_scripts::BenchOver;

/// How many rows of the script got what they have.
#[derive(Clone, Copy)]
struct Told(usize);

impl Work for Told {
    fn over<K: Keep>(&mut self, alloc: Global, keep: K) -> Result<K, Fail> {
        let mut bench = BenchOver::over(alloc, keep)?;
        match told_as_wanted(alloc, &mut bench) {
            Ok(told) => {
                self.0 = told;
                Ok(bench.into_keep())
            }
            Err(fault) => {
                drop(bench);
                Err(fault)
            }
        }
    }
}

/// What lasts of a store that was opened.
#[derive(Drop)]
struct Opened(Option<Lasting>);

impl Work for Opened {
    fn over<K: Keep>(&mut self, alloc: Global, mut keep: K) -> Result<K, Fail> {
        self.0 = Some(lasting_of(alloc, &mut keep)?);
        Ok(keep)
    }
}

/// How many frames the log has before it is copied: as the daemon has it, and few, so that it is copied between the rows.
const FRAMES: [usize; 2] = [64, 3];

/// What lasts in the files once the machine has come back.
fn what_lasts(alloc: Global, files: Files<Memory>, frames: usize) -> Result<Lasting, Fail> {
    let mut opened = Opened(None);
    work_in(alloc, files, frames, &mut opened)?;
    match opened.0 {
        Some(lasting) => Ok(lasting),
        None => Err("the store does not open again".into()),
    }
}

/// Sees that after a stop what was acknowledged is found, and perhaps the next change, whole, however the machine ends. Returns
/// how many rows got what they have before.
fn expect_whole(
    alloc: Global,
    states: &[Lasting],
    files: Disks,
    frames: usize,
    stop: (&str, u64),
) -> Result<usize, Fail> {
    let mut told = Told(0);
    let files = work_in(alloc, files, frames, &mut told)?;
    let next = told.0.saturating_add(1);
    for (ending, files) in endings(alloc, files)?.into_iter().enumerate() {
        let found = what_lasts(alloc, files, frames)?;
        if states.get(told.0) != Some(&found) && states.get(next) != Some(&found) {
            return Err(Fail::new(format_args!(
                "{stop:?}, ending {ending}: {} rows were told, and another store was found",
                told.0
            )));
        }
    }
    Ok(told.0)
}

/// At how many rows runs have stopped, each of which goes as far as the one before, or farther.
#[derive(Clone, Copy)]
struct Refused {
    last: usize,
    count: usize,
}

impl Refused {
    fn new() -> Refused {
        Refused { last: 0, count: 0 }
    }

    /// A run that has stopped after so many rows, of which the first writes nothing.
    fn note(&mut self, told: usize) {
        if told != self.last {
            self.count = self.count.saturating_add(1);
            self.last = told;
        }
    }
}

#[test]
fn a_stop_at_each_call_of_the_log_leaves_whole_changes(rt: HostRuntime) -> Result<(), Fail> {
    let states = states(rt.alloc())?;
    for frames in FRAMES {
        let mut refused = Refused::new();
        let mut is_done = false;
        for calls in 0..1000 {
            if !is_done {
                let files = disks(rt.alloc(), calls, ENDLESS);
                let told = expect_whole(rt.alloc(), &states, files, frames, ("log", calls))?;
                is_done = told.saturating_add(1) == states.len();
                refused.note(told);
                // More calls than the opening of a store takes.
                assert!(rt; !is_done || calls > 10, "{calls} calls");
            }
        }
        assert!(rt; is_done, "each run with {frames} frames stopped");
        // And the end, at which no row was refused.
        assert_eq!(rt; refused.count, VIEWS.len() + 1);
    }
    Ok(())
}

#[test]
fn a_stop_at_each_call_of_the_database_leaves_whole_changes(rt: HostRuntime) -> Result<(), Fail> {
    let states = states(rt.alloc())?;
    for frames in FRAMES {
        let mut is_done = false;
        for calls in 0..1000 {
            if !is_done {
                let files = disks(rt.alloc(), ENDLESS, calls);
                let told = expect_whole(rt.alloc(), &states, files, frames, ("database", calls))?;
                is_done = told.saturating_add(1) == states.len();
                assert!(rt; !is_done || calls > 3, "{calls} calls");
            }
        }
        assert!(rt; is_done, "each run with {frames} frames stopped");
    }
    Ok(())
}
