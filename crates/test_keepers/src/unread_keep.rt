//! A keeper for tests whose objects are never read.

ghost use Rattle.std.specs.Prelude.{◌≡◌};

use crate::{counted, noted};
use attrs::Object;
use keep::{Keep, KeepFault};
use pin_record::Record;
use std::alloc::Global;
use std::marker::Model;

/// A keeper that passes each call on to another one, but for each read of an object: there the device fails, which is
/// counted.
#[derive(Drop)]
pub struct UnreadKeep<K: Keep> {
    keep: K,
    failures: u64,
}

impl<K: Keep> Model for UnreadKeep<K> {
    ghost use Rattle.test_keepers.specs.Failing.{UnreadState};

    ghost Value = { UnreadState K };

    ghost view = { λ u. record { keep = u.keep; failures = u.failures } };
}

impl<K: Keep> UnreadKeep<K> {
    pub fn new(keep: K) -> Self
        ensures keep { result.keep ≡ keep }
        ensures failures { result.failures ≡ 0 }
    {
        UnreadKeep { keep, failures: 0 }
    }
}

impl<K: Keep> Keep for UnreadKeep<K> {
    ghost terms = { record {
      holds = λ u c. K.terms.holds u.keep c;
      may_leave = λ u left. K.terms.may_leave u.keep left;
      is_steady = λ _. ⊥;
      doubt = λ u. K.terms.doubt u.keep;
      failures = λ u. u.failures;
      tried = λ u. K.terms.tried u.keep;
    } };

    ghost survives = { λ u sure. K.survives u.keep sure };

    ghost sure = { λ u steady. absurd steady };

    fn failures(&self) -> u64 {
        self.failures
    }

    fn get_record(&self) -> Record {
        self.keep.get_record()
    }

    fn ids(&mut self, alloc: Global) -> Result<Vec<u64>, KeepFault> {
        match self.keep.ids(alloc) {
            Ok(ids) => Ok(ids),
            Err(fault) => Err(noted(&mut self.failures, fault)),
        }
    }

    fn object(&mut self, _alloc: Global, _id: u64) -> Result<Object, KeepFault> {
        self.failures = counted(self.failures);
        Err(KeepFault::Device)
    }

    fn set_record(&mut self, token_record: Record) -> Result<(), KeepFault> {
        match self.keep.set_record(token_record) {
            Ok(()) => Ok(()),
            Err(fault) => Err(noted(&mut self.failures, fault)),
        }
    }

    fn insert(&mut self, object: &Object) -> Result<u64, KeepFault> {
        match self.keep.insert(object) {
            Ok(id) => Ok(id),
            Err(fault) => Err(noted(&mut self.failures, fault)),
        }
    }

    fn replace(&mut self, id: u64, object: &Object) -> Result<(), KeepFault> {
        match self.keep.replace(id, object) {
            Ok(()) => Ok(()),
            Err(fault) => Err(noted(&mut self.failures, fault)),
        }
    }

    fn remove(&mut self, id: u64) -> Result<(), KeepFault> {
        match self.keep.remove(id) {
            Ok(()) => Ok(()),
            Err(fault) => Err(noted(&mut self.failures, fault)),
        }
    }

    fn reset(&mut self, token_record: Record) -> Result<(), KeepFault> {
        match self.keep.reset(token_record) {
            Ok(()) => Ok(()),
            Err(fault) => Err(noted(&mut self.failures, fault)),
        }
    }
}
