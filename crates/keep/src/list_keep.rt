//! A keeper in memory.

ghost use Rattle.std.specs.Prelude.{◌≡◌, ◌+◌, ◌≤◌, Some};
ghost use Rattle.keep.specs.declared.keep.KeepFault.TheVariants.{Device};
ghost use Rattle.keep.specs.Contents.{new_contents};
ghost use Rattle.keep.specs.Keeping.{Begins, Rises};
ghost use Rattle.keep.specs.ListState.{new_list};

use crate::keep::{Keep, KeepFault};
use crate::memory_contents::MemoryContents;
use crate::write_count::WriteCount;
use attrs::Object;
use pin_record::Record;
use std::alloc::Global;
use std::marker::Model;

/// A keeper in memory. A crash leaves what it holds.
#[derive(Drop)]
pub struct ListKeep {
    contents: MemoryContents,
    failures: u64,
    tried: WriteCount,
}

impl Model for ListKeep {
    ghost use Rattle.keep.specs.ListState.{ListState};

    ghost Value = { ListState };

    ghost view = { λ k. record { contents = k.contents; failures = k.failures; tried = k.tried } };
}

impl ListKeep {
    /// A keeper of no objects and this record. Nothing is allocated.
    pub fn new(alloc: Global, token_record: Record) -> Self
        ensures new { result ≡ new_list token_record }
        ensures begins { Begins ⟦<ListKeep as Keep>⟧.terms result (new_contents token_record) }
        ensures steady { (⟦<ListKeep as Keep>⟧.terms).is_steady result }
    {
        ListKeep {
            contents: MemoryContents::new(alloc, token_record),
            failures: 0,
            tried: WriteCount::new(),
        }
    }
}

/// A count and one; at its greatest value it stays.
fn counted(count: u64) -> u64
    ensures rises { Rises count result }
    ensures once { result ≤ count + 1 }
    ensures more { count ≤ result }
{
    count.saturating_add(1)
}

/// A failure of the device, which is counted.
fn device_failure(failures: &mut u64) -> KeepFault
    ensures fault { result ≡ Device }
    ensures rises { Rises failures.old failures.new }
    ensures once { failures.new ≤ failures.old + 1 }
    ensures more { failures.old ≤ failures.new }
{
    *failures = counted(*failures);
    KeepFault::Device
}

impl Keep for ListKeep {
    ghost use Rattle.std.specs.Prelude.{refl};
    ghost use Rattle.keep.specs.ListState.{list_terms};

    ghost terms = { list_terms };

    ghost survives = { λ k _ none. none (Some k.contents) refl };

    ghost sure = { λ _ _. refl };

    fn failures(&self) -> u64 {
        self.failures
    }

    fn get_record(&self) -> Record {
        self.contents.token_record()
    }

    fn ids(&mut self, alloc: Global) -> Result<Vec<u64>, KeepFault> {
        Ok(self.contents.ids(alloc)?)
    }

    fn object(&mut self, _alloc: Global, id: u64) -> Result<Object, KeepFault> {
        match self.contents.object(id) {
            Some(object) => Ok(object.clone()?),
            None => Err(device_failure(&mut self.failures)),
        }
    }

    fn set_record(&mut self, token_record: Record) -> Result<(), KeepFault> {
        self.tried.add();
        self.contents.set_record(token_record);
        Ok(())
    }

    fn insert(&mut self, object: &Object) -> Result<u64, KeepFault> {
        self.tried.add();
        if self.contents.is_full() {
            return Err(device_failure(&mut self.failures));
        }
        Ok(self.contents.insert(object.clone()?)?)
    }

    fn replace(&mut self, id: u64, object: &Object) -> Result<(), KeepFault> {
        self.tried.add();
        if self.contents.object(id).is_none() {
            return Err(device_failure(&mut self.failures));
        }
        Ok(self.contents.replace(id, object.clone()?)?)
    }

    fn remove(&mut self, id: u64) -> Result<(), KeepFault> {
        self.tried.add();
        if self.contents.remove(id) {
            Ok(())
        } else {
            Err(device_failure(&mut self.failures))
        }
    }

    fn reset(&mut self, token_record: Record) -> Result<(), KeepFault> {
        self.tried.add();
        self.contents.reset(token_record);
        Ok(())
    }
}
