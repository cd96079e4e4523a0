//! What a keeper, a storage backend, is.

ghost use Rattle.std.specs.Prelude.{◌≡◌, ◌+◌, ◌≤◌, Some, None, IfOk, OnOk, OnErr, IsErrOf, IsSome};
ghost use Rattle.keep.specs.declared.keep.KeepFault.TheVariants.{Memory, Device};
ghost use Rattle.keep.specs.Contents.{Contents, IsSound, IsTokenObject, after_reset, greatest_id, ids_of, object_at, with_object, with_record, with_replacement, without_object};
ghost use Rattle.keep.specs.Keeping.{Changes, Counted, Fails, HasCause, LeavesSome, Stays, Terms};

use attrs::Object;
use pin_record::Record;
use std::alloc::{AllocError, AllocFailed, Global};
use thiserror::Error;

/// The greatest id. Once it was given, no object can be inserted any more.
pub const GREATEST_ID: u64 = (1 << 63) - 1;

/// Why a keeper refuses.
#[derive(Clone, Copy, Debug, PartialEq, Eq, Error)]
pub enum KeepFault {
    #[error("out of memory")]
    Memory = 1,
    /// The device failed, which was counted (`Keep::failures`).
    #[error("the store failed")]
    Device = 2,
    /// What the store has is no token's. It is found when a store is opened, and never later.
    #[error("the store is damaged")]
    Damaged = 3,
}

impl From<AllocError> for KeepFault {
    ghost from_gives = { λ _ fault. fault ≡ Memory };

    fn from(_: AllocError) -> Self {
        KeepFault::Memory
    }
}

impl<T: Drop> From<AllocFailed<T>> for KeepFault {
    ghost from_gives = { λ _ fault. fault ≡ Memory };

    fn from(_: AllocFailed<T>) -> Self {
        Self::Memory
    }
}

/// One list of token objects, in the order in which they were made, and one record.
///
/// An object is a token object (PKCS #11 v3.1, 4.4: CKA_TOKEN is true) and has an id, a number from 1 to
/// `GREATEST_ID`. Ids rise by one and never return. After a fault the list and the record are as before.
/// `Memory` may be returned by each call with a Result. `Device` comes only where `failures` rose in that
/// call.
pub trait Keep: Drop {
    /// What is said of it: what it holds, what a crash leaves, and what is counted.
    ghost terms: { Terms Self };

    /// Whose call what follows is part of: an application's number. Nothing changes. A keeper that logs what is done takes note.
    fn on_behalf_of(&self, _app: u64) {}

    /// How often the device has failed. At its greatest value the count stays.
    fn failures(&self) -> u64
        ensures { result ≡ terms.failures self.now };

    /// The record. It is at hand, so nothing is read and no memory is taken.
    fn get_record(&self) -> Record
        ensures { (c : Contents) → terms.holds self.now c → result ≡ c.token_record };

    /// The ids of the objects, in the order in which these were made.
    fn ids(&mut self, alloc: Global) -> Result<Vec<u64>, KeepFault>
        ensures ids { terms.doubt self.new ≡ 0 → (c : Contents) → terms.holds self.old c → IfOk result (λ ids. ids.items ≡ ids_of c) }
        ensures sound { terms.doubt self.new ≡ 0 → (c : Contents) → terms.holds self.old c → OnOk result (IsSound c) }
        ensures same { Stays terms self.old self.new }
        ensures steady { terms.is_steady self.old → IsErrOf result Device → ⊥ }
        ensures counts { Counted terms self.old self.new 0 0 }
        ensures cause { HasCause (terms.failures self.old) (terms.failures self.new) result };

    /// A copy of the object with an id. `Device` where there is none, or where what is stored is no
    /// token object.
    fn object(&mut self, alloc: Global, id: u64) -> Result<Object, KeepFault>
        ensures object { terms.doubt self.new ≡ 0 → (c : Contents) → terms.holds self.old c → IfOk result (λ object. object_at c id ≡ Some object) }
        ensures token { IfOk result IsTokenObject }
        ensures same { Stays terms self.old self.new }
        ensures steady { terms.is_steady self.old → IsErrOf result Device → (c : Contents) → terms.holds self.old c → object_at c id ≡ None }
        ensures counts { Counted terms self.old self.new 0 0 }
        ensures cause { HasCause (terms.failures self.old) (terms.failures self.new) result };

    /// Puts another record in the place of the one held.
    fn set_record(&mut self, token_record: Record) -> Result<(), KeepFault>
        ensures ok { OnOk result (Changes terms self.old self.new (with_record token_record)) }
        ensures err { OnErr result (Fails terms self.old self.new (with_record token_record)) }
        ensures steady { terms.is_steady self.old → IsErrOf result Device → ⊥ }
        ensures counts { Counted terms self.old self.new 1 1 }
        ensures cause { HasCause (terms.failures self.old) (terms.failures self.new) result };

    /// Adds an object at the end and returns its id, which is one more than the greatest ever given.
    /// `Device` where that is above `GREATEST_ID`.
    fn insert(&mut self, object: &Object) -> Result<u64, KeepFault>
        requires { IsTokenObject object.now }
        ensures id { terms.doubt self.new ≡ 0 → (c : Contents) → terms.holds self.old c → IfOk result (λ id. id ≡ c.last_id + 1) }
        ensures limit { IfOk result (λ id. id ≤ greatest_id) }
        ensures ok { OnOk result (Changes terms self.old self.new (with_object object.now)) }
        ensures err { OnErr result (Fails terms self.old self.new (with_object object.now)) }
        ensures steady { terms.is_steady self.old → IsErrOf result Device → (c : Contents) → terms.holds self.old c → greatest_id ≤ c.last_id }
        ensures counts { Counted terms self.old self.new 1 1 }
        ensures cause { HasCause (terms.failures self.old) (terms.failures self.new) result };

    /// Puts another object in the place of the one with an id. `Device` where there is none.
    fn replace(&mut self, id: u64, object: &Object) -> Result<(), KeepFault>
        requires { IsTokenObject object.now }
        ensures there { terms.doubt self.new ≡ 0 → (c : Contents) → terms.holds self.old c → OnOk result (IsSome (object_at c id)) }
        ensures ok { OnOk result (Changes terms self.old self.new (with_replacement id object.now)) }
        ensures err { OnErr result (Fails terms self.old self.new (with_replacement id object.now)) }
        ensures steady { terms.is_steady self.old → IsErrOf result Device → (c : Contents) → terms.holds self.old c → object_at c id ≡ None }
        ensures counts { Counted terms self.old self.new 1 1 }
        ensures cause { HasCause (terms.failures self.old) (terms.failures self.new) result };

    /// Takes the object with an id away. `Device` where there is none.
    fn remove(&mut self, id: u64) -> Result<(), KeepFault>
        ensures there { terms.doubt self.new ≡ 0 → (c : Contents) → terms.holds self.old c → OnOk result (IsSome (object_at c id)) }
        ensures ok { OnOk result (Changes terms self.old self.new (without_object id)) }
        ensures err { OnErr result (Fails terms self.old self.new (without_object id)) }
        ensures steady { terms.is_steady self.old → IsErrOf result Device → (c : Contents) → terms.holds self.old c → object_at c id ≡ None }
        ensures counts { Counted terms self.old self.new 1 1 }
        ensures cause { HasCause (terms.failures self.old) (terms.failures self.new) result };

    /// Takes all objects away and puts another record in the place of the one held, as one change.
    fn reset(&mut self, token_record: Record) -> Result<(), KeepFault>
        ensures ok { OnOk result (Changes terms self.old self.new (after_reset token_record)) }
        ensures err { OnErr result (Fails terms self.old self.new (after_reset token_record)) }
        ensures steady { terms.is_steady self.old → IsErrOf result Device → ⊥ }
        ensures counts { Counted terms self.old self.new 1 1 }
        ensures cause { HasCause (terms.failures self.old) (terms.failures self.new) result };

    // As long as the disk is faithful, a crash leaves something.
    ghost survives: { (k : Self) → terms.doubt k ≡ 0 → LeavesSome (terms.may_leave k) };

    // A steady keeper's disk is faithful.
    ghost sure: { (k : Self) → terms.is_steady k → terms.doubt k ≡ 0 };
}
