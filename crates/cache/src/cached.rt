//! A keeper behind a cache.

ghost use Rattle.std.specs.Prelude.{◌≡◌, IfErr, IfOk};
ghost use Rattle.keep.specs.declared.keep.KeepFault.TheVariants.{Memory};
ghost use Rattle.cache.specs.CachedState.{Inherits, cached_terms};

use crate::entries::{forget, recall, remember};
use attrs::Object;
use keep::{Keep, KeepFault};
use lru::LruCache;
use pin_record::Record;
use std::alloc::Global;
use std::marker::Model;
use std::num::NonZeroUsize;

/// A keeper that remembers objects by their ids, and else returns what the one behind it does.
#[derive(Drop)]
pub struct Cached<K: Keep> {
    keep: K,
    entries: LruCache<u64, Object>,
}

impl<K: Keep> Model for Cached<K> {
    ghost use Rattle.cache.specs.CachedState.{CachedState};

    ghost Value = { CachedState K };

    ghost view = { λ k. record { keep = k.keep; entries = k.entries.entries } };
}

impl<K: Keep> Cached<K> {
    /// The keeper behind a cache of up to so many objects, none of which is remembered yet. Where the allocation of the
    /// cache fails, the keeper comes back as it was.
    pub fn new(alloc: Global, keep: K, capacity: NonZeroUsize) -> Result<Self, (KeepFault, K)>
        ensures keep { IfOk result (λ k. k.keep ≡ keep) }
        ensures same { IfOk result (λ k. Inherits K.terms keep ⟦<Cached<K> as Keep>⟧.terms k) }
        ensures alone { IfOk result (λ k. Inherits ⟦<Cached<K> as Keep>⟧.terms k K.terms keep) }
        ensures err { IfErr result (λ back. (back.0 ≡ Memory) × (back.1 ≡ keep)) }
    {
        match LruCache::new(alloc, capacity) {
            Ok(entries) => Ok(Cached { keep, entries }),
            Err(_) => Err((KeepFault::Memory, keep)),
        }
    }

    /// The keeper behind the cache. What was remembered is forgotten.
    pub fn into_keep(self) -> K
        ensures keep { result ≡ self.keep }
        ensures same { Inherits ⟦<Cached<K> as Keep>⟧.terms self K.terms result }
    {
        let Cached { keep, entries: _ } = self;
        keep
    }
}

impl<K: Keep> Keep for Cached<K> {
    ghost terms = { cached_terms K.terms };

    ghost survives = { λ k sure. K.survives k.keep sure };

    ghost sure = { λ k steady. K.sure k.keep steady };

    fn on_behalf_of(&self, app: u64) {
        self.keep.on_behalf_of(app)
    }

    fn failures(&self) -> u64 {
        self.keep.failures()
    }

    fn get_record(&self) -> Record {
        self.keep.get_record()
    }

    fn ids(&mut self, alloc: Global) -> Result<Vec<u64>, KeepFault> {
        self.keep.ids(alloc)
    }

    fn object(&mut self, alloc: Global, id: u64) -> Result<Object, KeepFault> {
        if let Some(known) = recall(&mut self.entries, id) {
            return Ok(known);
        }
        let object = self.keep.object(alloc, id)?;
        remember(&mut self.entries, id, &object);
        Ok(object)
    }

    fn set_record(&mut self, token_record: Record) -> Result<(), KeepFault> {
        self.keep.set_record(token_record)
    }

    fn insert(&mut self, object: &Object) -> Result<u64, KeepFault> {
        self.keep.insert(object)
    }

    fn replace(&mut self, id: u64, object: &Object) -> Result<(), KeepFault> {
        self.keep.replace(id, object)?;
        forget(&mut self.entries, id);
        Ok(())
    }

    fn remove(&mut self, id: u64) -> Result<(), KeepFault> {
        self.keep.remove(id)?;
        forget(&mut self.entries, id);
        Ok(())
    }

    fn reset(&mut self, token_record: Record) -> Result<(), KeepFault> {
        self.keep.reset(token_record)?;
        self.entries.clear();
        Ok(())
    }
}
