//! A keeper that looks after what stands beside its store's file: the mark, and the copies of the log for a backup.

ghost use Rattle.std.specs.Prelude.{◌≡◌};

use crate::mark::Mark;
use crate::spare_logs::SpareLogs;
use attrs::Object;
use keep::{Keep, KeepFault};
use keep_sql::SqlKeep;
use pin_record::Record;
use reserve::Explains;
use sqlite::{Alter, Connection, Error};
use std::alloc::Global;

/// A keeper that returns what the one behind it does. Before an object is replaced or removed, and before a reset, it lifts the
/// mark: the old value may stay in the file until that is written anew. Before each change it copies the log, if a backup is made.
#[derive(Drop)]
pub struct Marked<K> {
    keep: K,
    mark: Mark,
    logs: SpareLogs,
}

impl<K: Explains> Marked<K> {
    /// The keeper over a store with this mark and these copies.
    pub(crate) fn new(keep: K, mark: Mark, logs: SpareLogs) -> Marked<K>
        ensures { result.keep ≡ keep }
    {
        Marked { keep, mark, logs }
    }
}

impl<S: Alter + Drop> Marked<SqlKeep<S>> {
    /// The connection behind it, as it is.
    pub(crate) fn close(self) -> Connection<S> {
        let Marked { keep, .. } = self;
        keep.close()
    }
}

impl<K: Explains> Explains for Marked<K> {
    fn cause(&self) -> Option<Error> {
        self.keep.cause()
    }

    fn is_shut(&mut self) -> bool {
        self.keep.is_shut()
    }
}

impl<K: Explains> Keep for Marked<K> {
    ghost use Rattle.store_files.specs.Behind.{terms_behind};

    ghost terms = { terms_behind (λ k. k.keep) K.Keep.terms };

    ghost survives = { λ k sure. K.Keep.survives k.keep sure };

    ghost sure = { λ k steady. K.Keep.sure k.keep steady };

    fn on_behalf_of(&self, app: u64) {
        self.keep.on_behalf_of(app)
    }

    fn failures(&self) -> u64 {
        self.keep.failures()
    }

    fn get_record(&self) -> Record {
        self.keep.get_record()
    }

    fn ids(&mut self, alloc: Global) -> Result<Vec<u64>, KeepFault> {
        self.keep.ids(alloc)
    }

    fn object(&mut self, alloc: Global, id: u64) -> Result<Object, KeepFault> {
        self.keep.object(alloc, id)
    }

    fn set_record(&mut self, token_record: Record) -> Result<(), KeepFault> {
        self.logs.keep();
        self.keep.set_record(token_record)
    }

    fn insert(&mut self, object: &Object) -> Result<u64, KeepFault> {
        self.logs.keep();
        self.keep.insert(object)
    }

    fn replace(&mut self, id: u64, object: &Object) -> Result<(), KeepFault> {
        self.mark.lift();
        self.logs.keep();
        self.keep.replace(id, object)
    }

    fn remove(&mut self, id: u64) -> Result<(), KeepFault> {
        self.mark.lift();
        self.logs.keep();
        self.keep.remove(id)
    }

    fn reset(&mut self, token_record: Record) -> Result<(), KeepFault> {
        self.mark.lift();
        self.logs.keep();
        self.keep.reset(token_record)
    }
}
