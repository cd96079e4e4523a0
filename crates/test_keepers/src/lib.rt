//! Keepers for tests. Each passes calls on to another one: `FailingKeep` fails once, `UnreadKeep` at each read of an object.
//!
//! Proved, by the names of contracts: keepers for tests over any other. That their n-th call, or each read of an object, fails is tested.
#![tactic(auto)]

mod unread_keep;

ghost use Rattle.std.specs.Prelude.{◌≡◌, ◌+◌, ◌≤◌, IfErr, IfOk, IsErrOf, OnOk};
ghost use Rattle.keep.specs.declared.keep.KeepFault.TheVariants.{Damaged, Device, Memory};
ghost use Rattle.keep.specs.Keeping.{Rises};

use attrs::Object;
use keep::{Keep, KeepFault, WriteCount};
use pin_record::Record;
use std::alloc::Global;
use std::marker::Model;
pub use unread_keep::UnreadKeep;

/// How a keeper fails.
#[derive(Clone, Copy, Debug, PartialEq, Eq)]
pub enum Failure {
    /// An allocation fails.
    Memory,
    /// The device fails, which is counted.
    Device,
}

/// A keeper that passes each call on to another one, but for one call, which fails and changes nothing.
#[derive(Drop)]
pub struct FailingKeep<K: Keep> {
    keep: K,
    /// How many calls there are up to the one that fails, 0 where no further one does.
    left: u64,
    failure: Failure,
    failures: u64,
    tried: WriteCount,
}

impl<K: Keep> Model for FailingKeep<K> {
    ghost use Rattle.test_keepers.specs.Failing.{FailingState};

    ghost Value = { FailingState K };

    ghost view = { λ f. record { keep = f.keep; left = f.left; failure = f.failure; failures = f.failures; tried = f.tried } };
}

impl<K: Keep> FailingKeep<K> {
    /// A keeper whose n-th call fails so, of those that may fail, where the first is 1. With 0 none does.
    pub fn new(keep: K, n: u64, failure: Failure) -> Self
        ensures keep { result.keep ≡ keep }
        ensures left { result.left ≡ n }
        ensures failure { result.failure ≡ failure }
        ensures failures { result.failures ≡ 0 }
        ensures tried { result.tried ≡ 0 }
    {
        FailingKeep {
            keep,
            left: n,
            failure,
            failures: 0,
            tried: WriteCount::new(),
        }
    }

    /// Counts a call, which fails where it is the one.
    fn pass(&mut self) -> Result<(), KeepFault>
        ensures keep { self.new.keep ≡ self.old.keep }
        ensures tried { self.new.tried ≡ self.old.tried }
        ensures more { self.old.failures ≤ self.new.failures }
        ensures cause { IsErrOf result Device → Rises self.old.failures self.new.failures }
        ensures once { self.new.failures ≤ self.old.failures + 1 }
        ensures ok { OnOk result (self.new.failures ≡ self.old.failures) }
        ensures memory { IsErrOf result Memory → self.new.failures ≡ self.old.failures }
        ensures damaged { IsErrOf result Damaged → ⊥ }
    {
        match self.left {
            0 => Ok(()),
            1 => {
                self.left = 0;
                match self.failure {
                    Failure::Memory => Err(KeepFault::Memory),
                    Failure::Device => {
                        self.failures = counted(self.failures);
                        Err(KeepFault::Device)
                    }
                }
            }
            _ => {
                self.left -= 1;
                Ok(())
            }
        }
    }
}

/// A count and one; at its greatest value it stays.
fn counted(count: u64) -> u64
    ensures rises { Rises count result }
    ensures once { result ≤ count + 1 }
    ensures more { count ≤ result }
{
    count.saturating_add(1)
}

/// Why the keeper that calls are passed on to refused. A failure of its device is counted here too.
fn noted(failures: &mut u64, fault: KeepFault) -> KeepFault
    ensures same { result ≡ fault }
    ensures more { failures.old ≤ failures.new }
    ensures cause { fault ≡ Device → Rises failures.old failures.new }
    ensures once { failures.new ≤ failures.old + 1 }
    ensures memory { fault ≡ Memory → failures.new ≡ failures.old }
{
    if fault == KeepFault::Device {
        *failures = counted(*failures);
    }
    fault
}

impl<K: Keep> Keep for FailingKeep<K> {
    ghost terms = { record {
      holds = λ f c. K.terms.holds f.keep c;
      may_leave = λ f left. K.terms.may_leave f.keep left;
      is_steady = λ _. ⊥;
      doubt = λ f. K.terms.doubt f.keep;
      failures = λ f. f.failures;
      tried = λ f. f.tried;
    } };

    ghost survives = { λ f sure. K.survives f.keep sure };

    ghost sure = { λ f steady. absurd steady };

    fn failures(&self) -> u64 {
        self.failures
    }

    fn get_record(&self) -> Record {
        self.keep.get_record()
    }

    fn ids(&mut self, alloc: Global) -> Result<Vec<u64>, KeepFault> {
        self.pass()?;
        match self.keep.ids(alloc) {
            Ok(ids) => Ok(ids),
            Err(fault) => Err(noted(&mut self.failures, fault)),
        }
    }

    fn object(&mut self, alloc: Global, id: u64) -> Result<Object, KeepFault> {
        self.pass()?;
        match self.keep.object(alloc, id) {
            Ok(object) => Ok(object),
            Err(fault) => Err(noted(&mut self.failures, fault)),
        }
    }

    fn set_record(&mut self, token_record: Record) -> Result<(), KeepFault> {
        self.tried.add();
        self.pass()?;
        match self.keep.set_record(token_record) {
            Ok(()) => Ok(()),
            Err(fault) => Err(noted(&mut self.failures, fault)),
        }
    }

    fn insert(&mut self, object: &Object) -> Result<u64, KeepFault> {
        self.tried.add();
        self.pass()?;
        match self.keep.insert(object) {
            Ok(id) => Ok(id),
            Err(fault) => Err(noted(&mut self.failures, fault)),
        }
    }

    fn replace(&mut self, id: u64, object: &Object) -> Result<(), KeepFault> {
        self.tried.add();
        self.pass()?;
        match self.keep.replace(id, object) {
            Ok(()) => Ok(()),
            Err(fault) => Err(noted(&mut self.failures, fault)),
        }
    }

    fn remove(&mut self, id: u64) -> Result<(), KeepFault> {
        self.tried.add();
        self.pass()?;
        match self.keep.remove(id) {
            Ok(()) => Ok(()),
            Err(fault) => Err(noted(&mut self.failures, fault)),
        }
    }

    fn reset(&mut self, token_record: Record) -> Result<(), KeepFault> {
        self.tried.add();
        self.pass()?;
        match self.keep.reset(token_record) {
            Ok(()) => Ok(()),
            Err(fault) => Err(noted(&mut self.failures, fault)),
        }
    }
}
