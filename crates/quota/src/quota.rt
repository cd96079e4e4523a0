//! A keeper with a limit of objects.

ghost use Rattle.std.specs.Prelude.{◌≡◌, ◌+◌, ◌<◌, ◌≤◌, IfOk, IfErr, IsErrOf, OnErr, OnOk};
ghost use Rattle.keep.specs.declared.keep.KeepFault.TheVariants.{Device};
ghost use Rattle.keep.specs.Contents.{Contents, IsTokenObject, greatest_id, with_object};
ghost use Rattle.keep.specs.Keeping.{Changes, Counted, Fails, HasCause, Rises, Stays};
ghost use Rattle.quota.specs.QuotaState.{quota_terms};

use attrs::Object;
use keep::{Keep, KeepFault, WriteCount};
use pin_record::Record;
use std::alloc::Global;
use std::marker::Model;

/// A keeper that refuses an object beyond a number of them, and else returns what the one behind it does.
#[derive(Drop)]
pub struct Quota<K: Keep> {
    keep: K,
    count: u64,
    most: u64,
    refused: u64,
    tried: WriteCount,
}

impl<K: Keep> Model for Quota<K> {
    ghost use Rattle.quota.specs.QuotaState.{QuotaState};

    ghost Value = { QuotaState K };

    ghost view = { λ k. record { keep = k.keep; count = k.count; most = k.most; refused = k.refused; tried = k.tried } };
}

impl<K: Keep> Quota<K> {
    /// The keeper with a limit of so many objects. It counts those that the keeper behind it has. Where that fails, the keeper comes back.
    pub fn new(alloc: Global, mut keep: K, most: u64) -> Result<Self, (KeepFault, K)>
        ensures most { IfOk result (λ k. k.most ≡ most) }
        ensures stays { IfOk result (λ k. Stays K.terms keep k.keep) }
        ensures held { IfOk result (λ k. (c : Contents) → K.terms.holds keep c → ⟦<Quota<K> as Keep>⟧.terms.holds k c) }
        ensures counts { IfOk result (λ k. Counted K.terms keep k.keep 0 0) }
        ensures none { IfOk result (λ k. (k.refused ≡ 0) × (k.tried ≡ 0)) }
        ensures err { IfErr result (λ back. Stays K.terms keep back.1 × Counted K.terms keep back.1 0 0
            × (back.0 ≡ Device → Rises (K.terms.failures keep) (K.terms.failures back.1))) }
    {
        match keep.ids(alloc) {
            Ok(ids) => Ok(Quota {
                keep,
                count: ids.len() as u64,
                most,
                refused: 0,
                tried: WriteCount::new(),
            }),
            Err(fault) => Err((fault, keep)),
        }
    }

    /// How many objects there are, as it counts them.
    pub fn count(&self) -> u64
        ensures { result ≡ self.now.count }
    {
        self.count
    }

    /// The keeper behind it.
    pub fn into_keep(self) -> K
        ensures { result ≡ self.keep }
    {
        let Quota { keep, .. } = self;
        keep
    }
}

impl<K: Keep> Keep for Quota<K> {
    ghost terms = { quota_terms K.terms };

    ghost survives = { λ k sure. K.survives k.keep sure };

    ghost sure = { λ k steady. absurd steady };

    fn on_behalf_of(&self, app: u64) {
        self.keep.on_behalf_of(app)
    }

    fn failures(&self) -> u64 {
        self.keep.failures().saturating_add(self.refused)
    }

    fn get_record(&self) -> Record {
        self.keep.get_record()
    }

    fn ids(&mut self, alloc: Global) -> Result<Vec<u64>, KeepFault> {
        self.keep.ids(alloc)
    }

    fn object(&mut self, alloc: Global, id: u64) -> Result<Object, KeepFault> {
        self.keep.object(alloc, id)
    }

    fn set_record(&mut self, token_record: Record) -> Result<(), KeepFault> {
        self.keep.set_record(token_record)
    }

    /// Adds an object, or refuses it where there are as many as there may be. Then the keeper behind it isn't asked.
    fn insert(&mut self, object: &Object) -> Result<u64, KeepFault>
        requires { IsTokenObject object.now }
        // Beyond the limit it is refused, and below it the keeper behind is asked.
        ensures beyond { self.old.most ≤ self.old.count → IsErrOf result Device × (self.new.keep ≡ self.old.keep) }
        ensures below { self.old.count < self.old.most → K.terms.tried self.new.keep ≡ K.terms.tried self.old.keep + 1 }
        // As each keeper does.
        ensures id { (quota_terms K.terms).doubt self.new ≡ 0 → (c : Contents) → (quota_terms K.terms).holds self.old c
            → IfOk result (λ id. id ≡ c.last_id + 1) }
        ensures limit { IfOk result (λ id. id ≤ greatest_id) }
        ensures ok { OnOk result (Changes (quota_terms K.terms) self.old self.new (with_object object.now)) }
        ensures err { OnErr result (Fails (quota_terms K.terms) self.old self.new (with_object object.now)) }
        ensures steady { (quota_terms K.terms).is_steady self.old → IsErrOf result Device → (c : Contents)
            → (quota_terms K.terms).holds self.old c → greatest_id ≤ c.last_id }
        ensures counts { Counted (quota_terms K.terms) self.old self.new 1 1 }
        ensures cause { HasCause ((quota_terms K.terms).failures self.old) ((quota_terms K.terms).failures self.new) result }
    {
        if self.count >= self.most {
            self.tried.add();
            self.refused = self.refused.saturating_add(1);
            return Err(KeepFault::Device);
        }
        let id = self.keep.insert(object)?;
        self.count += 1;
        Ok(id)
    }

    fn replace(&mut self, id: u64, object: &Object) -> Result<(), KeepFault> {
        self.keep.replace(id, object)
    }

    fn remove(&mut self, id: u64) -> Result<(), KeepFault> {
        self.keep.remove(id)?;
        self.count = self.count.saturating_sub(1);
        Ok(())
    }

    fn reset(&mut self, token_record: Record) -> Result<(), KeepFault> {
        self.keep.reset(token_record)?;
        self.count = 0;
        Ok(())
    }
}
