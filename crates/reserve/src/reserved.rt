//! A keeper that keeps room for PINs and removals.

ghost use Rattle.std.specs.Prelude.{◌≡◌, ◌+◌, ◌≤◌, None, true, false, IfOk, IsErrOf, IsSome, IsTrue, OnErr, OnOk};
ghost use Rattle.keep.specs.declared.keep.KeepFault.TheVariants.{Device};
ghost use Rattle.keep.specs.Contents.{Contents, IsSound, IsTokenObject, after_reset, greatest_id, ids_of, object_at, with_object, with_record, with_replacement, without_object};
ghost use Rattle.keep.specs.Keeping.{Changes, Counted, Fails, HasCause, Rises, Stays};
ghost use Rattle.reserve.specs.ReservedState.{reserved_terms};

use crate::explains::Explains;
use crate::room::SpareRoom;
use attrs::Object;
use keep::{Keep, KeepFault, WriteCount};
use pin_record::Record;
use sqlite::Error;
use std::alloc::Global;
use std::marker::Model;

/// A keeper that makes and changes objects only while its room is set aside, and else refuses them as the device's failure. Where
/// another change fails by the device, it gives the room up and tries that change once more.
#[derive(Drop)]
pub struct Reserved<K: Keep, R: SpareRoom> {
    keep: K,
    room: R,
    failed: u64,
    tried: WriteCount,
}

impl<K: Keep, R: SpareRoom> Model for Reserved<K, R> {
    ghost use Rattle.reserve.specs.ReservedState.{ReservedState};

    ghost Value = { ReservedState K R };

    ghost view = { λ k. record { keep = k.keep; room = k.room; failed = k.failed; tried = k.tried } };
}

impl<K: Keep, R: SpareRoom> Reserved<K, R> {
    /// The keeper, with this room.
    pub fn new(keep: K, room: R) -> Self
        ensures keep { result.keep ≡ keep }
        ensures room { result.room ≡ room }
        ensures none { (result.failed ≡ 0) × (result.tried ≡ 0) }
    {
        Reserved {
            keep,
            room,
            failed: 0,
            tried: WriteCount::new(),
        }
    }

    /// The keeper behind it.
    pub fn into_keep(self) -> K
        ensures { result ≡ self.keep }
    {
        let Reserved { keep, .. } = self;
        keep
    }

    /// Counts a fault, if it is the device's, and returns it.
    fn count(&mut self, fault: KeepFault) -> KeepFault
        ensures fault { result ≡ fault }
        ensures keep { self.new.keep ≡ self.old.keep }
        ensures room { self.new.room ≡ self.old.room }
        ensures tried { self.new.tried ≡ self.old.tried }
        ensures rises { fault ≡ Device → Rises self.old.failed self.new.failed }
        ensures once { self.new.failed ≤ self.old.failed + 1 }
        ensures grows { self.old.failed ≤ self.new.failed }
        ensures other { (fault ≡ Device → ⊥) → self.new.failed ≡ self.old.failed }
    {
        if matches!(fault, KeepFault::Device) {
            self.failed = self.failed.saturating_add(1);
        }
        fault
    }

    /// Gives the room up for a change that failed by the device, and returns whether there was any.
    fn makes_room(&mut self, fault: KeepFault) -> bool
        ensures made { result ≡ true → (fault ≡ Device) × (R.is_whole self.old.room ≡ true) }
        ensures none { result ≡ false → fault ≡ Device → R.is_whole self.old.room ≡ false }
        ensures gone { fault ≡ Device → R.is_whole self.new.room ≡ false }
        ensures other { (fault ≡ Device → ⊥) → self.new.room ≡ self.old.room }
        ensures same { (self.new.keep ≡ self.old.keep) × (self.new.failed ≡ self.old.failed) × (self.new.tried ≡ self.old.tried) }
    {
        matches!(fault, KeepFault::Device) && self.room.give_up()
    }

    /// Whether an object may be made or changed. If not, that is a failure of the device.
    fn admit(&mut self) -> Result<(), KeepFault>
        ensures keep { self.new.keep ≡ self.old.keep }
        ensures tried { self.new.tried ≡ self.old.tried + 1 }
        ensures ok { OnOk result (IsTrue (R.is_whole self.new.room) × (self.new.failed ≡ self.old.failed)) }
        ensures err { OnErr result (IsErrOf result Device × (R.is_whole self.new.room ≡ false) × Rises self.old.failed self.new.failed) }
        ensures once { self.new.failed ≤ self.old.failed + 1 }
        ensures grows { self.old.failed ≤ self.new.failed }
    {
        self.tried.add();
        if self.room.fill() {
            Ok(())
        } else {
            Err(self.count(KeepFault::Device))
        }
    }
}

impl<K: Keep, R: SpareRoom> Keep for Reserved<K, R> {
    ghost terms = { reserved_terms K.terms };

    ghost survives = { λ k sure. K.survives k.keep sure };

    ghost sure = { λ k steady. absurd steady };

    fn on_behalf_of(&self, app: u64) {
        self.keep.on_behalf_of(app)
    }

    fn failures(&self) -> u64 {
        self.failed
    }

    fn get_record(&self) -> Record {
        self.keep.get_record()
    }

    fn ids(&mut self, alloc: Global) -> Result<Vec<u64>, KeepFault> {
        match self.keep.ids(alloc) {
            Ok(ids) => Ok(ids),
            Err(fault) => Err(self.count(fault)),
        }
    }

    fn object(&mut self, alloc: Global, id: u64) -> Result<Object, KeepFault> {
        match self.keep.object(alloc, id) {
            Ok(object) => Ok(object),
            Err(fault) => Err(self.count(fault)),
        }
    }

    fn set_record(&mut self, token_record: Record) -> Result<(), KeepFault>
        // It fails by the device only where there is no room to give up, and gives that up only for a second try.
        ensures again { IsErrOf result Device → R.is_whole self.new.room ≡ false }
        ensures asked { K.terms.tried self.old.keep + 1 ≤ K.terms.tried self.new.keep }
        ensures spared { K.terms.tried self.new.keep ≡ K.terms.tried self.old.keep + 1 → R.is_whole self.new.room ≡ R.is_whole self.old.room }
        // As each keeper does.
        ensures ok { OnOk result (Changes (reserved_terms K.terms) self.old self.new (with_record token_record)) }
        ensures err { OnErr result (Fails (reserved_terms K.terms) self.old self.new (with_record token_record)) }
        ensures steady { (reserved_terms K.terms).is_steady self.old → IsErrOf result Device → ⊥ }
        ensures counts { Counted (reserved_terms K.terms) self.old self.new 1 1 }
        ensures cause { HasCause ((reserved_terms K.terms).failures self.old) ((reserved_terms K.terms).failures self.new) result }
    {
        self.tried.add();
        match self.keep.set_record(token_record) {
            Ok(()) => return Ok(()),
            Err(fault) => {
                if !self.makes_room(fault) {
                    return Err(self.count(fault));
                }
            }
        }
        match self.keep.set_record(token_record) {
            Ok(()) => Ok(()),
            Err(fault) => Err(self.count(fault)),
        }
    }

    fn insert(&mut self, object: &Object) -> Result<u64, KeepFault>
        requires { IsTokenObject object.now }
        // Its room is set aside then, and the keeper behind is asked once. Otherwise that one isn't asked.
        ensures room { OnOk result (IsTrue (R.is_whole self.new.room)) }
        ensures asked { IsTrue (R.is_whole self.new.room) → K.terms.tried self.new.keep ≡ K.terms.tried self.old.keep + 1 }
        ensures refused { R.is_whole self.new.room ≡ false → IsErrOf result Device × (self.new.keep ≡ self.old.keep) }
        ensures id { (reserved_terms K.terms).doubt self.new ≡ 0 → (c : Contents) → (reserved_terms K.terms).holds self.old c
            → IfOk result (λ id. id ≡ c.last_id + 1) }
        ensures limit { IfOk result (λ id. id ≤ greatest_id) }
        // As each keeper does.
        ensures ok { OnOk result (Changes (reserved_terms K.terms) self.old self.new (with_object object.now)) }
        ensures err { OnErr result (Fails (reserved_terms K.terms) self.old self.new (with_object object.now)) }
        ensures steady { (reserved_terms K.terms).is_steady self.old → IsErrOf result Device → (c : Contents)
            → (reserved_terms K.terms).holds self.old c → greatest_id ≤ c.last_id }
        ensures counts { Counted (reserved_terms K.terms) self.old self.new 1 1 }
        ensures cause { HasCause ((reserved_terms K.terms).failures self.old) ((reserved_terms K.terms).failures self.new) result }
    {
        self.admit()?;
        match self.keep.insert(object) {
            Ok(id) => Ok(id),
            Err(fault) => Err(self.count(fault)),
        }
    }

    fn replace(&mut self, id: u64, object: &Object) -> Result<(), KeepFault>
        requires { IsTokenObject object.now }
        // Its room is set aside then, and the keeper behind is asked once. Otherwise that one isn't asked.
        ensures room { OnOk result (IsTrue (R.is_whole self.new.room)) }
        ensures asked { IsTrue (R.is_whole self.new.room) → K.terms.tried self.new.keep ≡ K.terms.tried self.old.keep + 1 }
        ensures refused { R.is_whole self.new.room ≡ false → IsErrOf result Device × (self.new.keep ≡ self.old.keep) }
        ensures there { (reserved_terms K.terms).doubt self.new ≡ 0 → (c : Contents) → (reserved_terms K.terms).holds self.old c
            → OnOk result (IsSome (object_at c id)) }
        // As each keeper does.
        ensures ok { OnOk result (Changes (reserved_terms K.terms) self.old self.new (with_replacement id object.now)) }
        ensures err { OnErr result (Fails (reserved_terms K.terms) self.old self.new (with_replacement id object.now)) }
        ensures steady { (reserved_terms K.terms).is_steady self.old → IsErrOf result Device → (c : Contents)
            → (reserved_terms K.terms).holds self.old c → object_at c id ≡ None }
        ensures counts { Counted (reserved_terms K.terms) self.old self.new 1 1 }
        ensures cause { HasCause ((reserved_terms K.terms).failures self.old) ((reserved_terms K.terms).failures self.new) result }
    {
        self.admit()?;
        match self.keep.replace(id, object) {
            Ok(()) => Ok(()),
            Err(fault) => Err(self.count(fault)),
        }
    }

    fn remove(&mut self, id: u64) -> Result<(), KeepFault>
        // It fails by the device only where there is no room to give up, and gives that up only for a second try.
        ensures again { IsErrOf result Device → R.is_whole self.new.room ≡ false }
        ensures asked { K.terms.tried self.old.keep + 1 ≤ K.terms.tried self.new.keep }
        ensures spared { K.terms.tried self.new.keep ≡ K.terms.tried self.old.keep + 1 → R.is_whole self.new.room ≡ R.is_whole self.old.room }
        ensures there { (reserved_terms K.terms).doubt self.new ≡ 0 → (c : Contents) → (reserved_terms K.terms).holds self.old c
            → OnOk result (IsSome (object_at c id)) }
        // As each keeper does.
        ensures ok { OnOk result (Changes (reserved_terms K.terms) self.old self.new (without_object id)) }
        ensures err { OnErr result (Fails (reserved_terms K.terms) self.old self.new (without_object id)) }
        ensures steady { (reserved_terms K.terms).is_steady self.old → IsErrOf result Device → (c : Contents)
            → (reserved_terms K.terms).holds self.old c → object_at c id ≡ None }
        ensures counts { Counted (reserved_terms K.terms) self.old self.new 1 1 }
        ensures cause { HasCause ((reserved_terms K.terms).failures self.old) ((reserved_terms K.terms).failures self.new) result }
    {
        self.tried.add();
        match self.keep.remove(id) {
            Ok(()) => return Ok(()),
            Err(fault) => {
                if !self.makes_room(fault) {
                    return Err(self.count(fault));
                }
            }
        }
        match self.keep.remove(id) {
            Ok(()) => Ok(()),
            Err(fault) => Err(self.count(fault)),
        }
    }

    fn reset(&mut self, token_record: Record) -> Result<(), KeepFault>
        // It fails by the device only where there is no room to give up, and gives that up only for a second try.
        ensures again { IsErrOf result Device → R.is_whole self.new.room ≡ false }
        ensures asked { K.terms.tried self.old.keep + 1 ≤ K.terms.tried self.new.keep }
        ensures spared { K.terms.tried self.new.keep ≡ K.terms.tried self.old.keep + 1 → R.is_whole self.new.room ≡ R.is_whole self.old.room }
        // As each keeper does.
        ensures ok { OnOk result (Changes (reserved_terms K.terms) self.old self.new (after_reset token_record)) }
        ensures err { OnErr result (Fails (reserved_terms K.terms) self.old self.new (after_reset token_record)) }
        ensures steady { (reserved_terms K.terms).is_steady self.old → IsErrOf result Device → ⊥ }
        ensures counts { Counted (reserved_terms K.terms) self.old self.new 1 1 }
        ensures cause { HasCause ((reserved_terms K.terms).failures self.old) ((reserved_terms K.terms).failures self.new) result }
    {
        self.tried.add();
        match self.keep.reset(token_record) {
            Ok(()) => return Ok(()),
            Err(fault) => {
                if !self.makes_room(fault) {
                    return Err(self.count(fault));
                }
            }
        }
        match self.keep.reset(token_record) {
            Ok(()) => Ok(()),
            Err(fault) => Err(self.count(fault)),
        }
    }
}

impl<K: Explains, R: SpareRoom> Explains for Reserved<K, R> {
    fn cause(&self) -> Option<Error> {
        self.keep.cause()
    }

    fn is_shut(&mut self) -> bool {
        self.keep.is_shut()
    }
}
