//! The keeper, with a list of its objects in the order of their creation: their ids, and their marks.

ghost use Rattle.std.specs.Prelude.{◌≡◌, ◌≢◌, ◌+◌, ◌++◌, ◌≤◌, None, Option, IfOk, IfErr, IsErrOf, OnOk, IfSome};
ghost use Rattle.std.specs.List.{AllByRecursion};
ghost use Rattle.keep.specs.Contents.{Contents, IsTokenObject, after_reset, greatest_id, object_at, with_object, with_record, with_replacement, without_object};
ghost use Rattle.keep.specs.Keeping.{Stays, HasCause, Counted};
ghost use Rattle.keep.specs.declared.keep.KeepFault.TheVariants.{Device};
ghost use Rattle.serve_base.specs.Searching.{kept_found, MayFind};
ghost use Rattle.serve_base.specs.Stores.{StoreHas, SameIds, Wrote};

use crate::listed::{ObjectEntry, compact, has_id, list_unread, remove_id, set_mark};
use crate::searching::{Match, search_kept};
use attrs::Object;
use ck_types::{Template, UserType};
use find::Mark;
use keep::{Keep, KeepFault};
use pin_record::Record;
use std::alloc::Global;
use std::marker::Model;

/// A keeper and the list of its objects. The keeper is called only with ids that it has. A mark is known once an object was
/// searched through or written here.
#[derive(Drop)]
pub struct Store<K: Keep> {
    keep: K,
    listed: Vec<ObjectEntry>,
    /// How many entries of the list are of removed objects.
    removed: usize,
}

impl<K: Keep> Model for Store<K> {
    ghost use Rattle.serve_base.specs.Stores.{StoreState};

    ghost Value = { StoreState K };

    ghost view = { λ s. record { keep = s.keep; listed = s.listed.items } };
}

impl<K: Keep> Store<K> {
    /// Reads the ids of a keeper, and none of its objects. A keeper that fails comes back beside its fault.
    pub fn adopt(alloc: Global, mut keep: K) -> Result<Store<K>, (KeepFault, K)>
        ensures has { (c : Contents) → K.terms.holds keep c → IfOk result (λ s. K.terms.doubt s.keep ≡ 0 → StoreHas K.terms s c) }
        ensures leaves { (c : Contents) → K.terms.holds keep c
            → IfOk result (λ s. (left : Option Contents) → K.terms.may_leave s.keep left → K.terms.may_leave keep left) }
        ensures back { IfErr result (λ e. Stays K.terms keep e.1) }
        ensures steady { K.terms.is_steady keep → IfOk result (λ s. K.terms.is_steady s.keep) }
        ensures device { K.terms.is_steady keep → IfErr result (λ e. e.0 ≢ Device) }
    {
        let ids = match keep.ids(alloc) {
            Ok(ids) => ids,
            Err(fault) => return Err((fault, keep)),
        };
        match list_unread(alloc, &ids) {
            Ok(listed) => Ok(Store {
                keep,
                listed,
                removed: 0,
            }),
            Err(_) => Err((KeepFault::Memory, keep)),
        }
    }

    pub fn into_keep(self) -> K
        ensures { result ≡ self.keep }
    {
        let Store { keep, .. } = self;
        keep
    }

    /// Has the keeper know whose call what follows is part of: an application's number.
    pub fn on_behalf_of(&self, app: u64) {
        self.keep.on_behalf_of(app)
    }

    /// The record. It is held in memory, so nothing is read or allocated.
    pub fn get_record(&self) -> Record
        ensures { (c : Contents) → StoreHas K.terms self.now c → result ≡ c.token_record }
    {
        self.keep.get_record()
    }

    /// Replaces the record. The objects stay.
    pub fn set_record(&mut self, token_record: Record) -> Result<(), KeepFault>
        ensures has { (c : Contents) → StoreHas K.terms self.old c → OnOk result (StoreHas K.terms self.new (with_record token_record c)) }
        ensures wrote { Wrote K.terms (with_record token_record) ⊥ self.old self.new result }
    {
        self.keep.set_record(token_record)?;
        Ok(())
    }

    /// Removes all objects and replaces the record, as one change. Ids are counted on.
    pub fn reset(&mut self, token_record: Record) -> Result<(), KeepFault>
        ensures has { (c : Contents) → StoreHas K.terms self.old c → OnOk result (StoreHas K.terms self.new (after_reset token_record c)) }
        ensures wrote { Wrote K.terms (after_reset token_record) ⊥ self.old self.new result }
    {
        self.keep.reset(token_record)?;
        self.listed.clear();
        self.removed = 0;
        Ok(())
    }

    /// A copy of the object under an id.
    #[tactic(auto, using(crate::proofs::Storing::absent_at, crate::proofs::Storing::present_at))]
    pub fn object(&mut self, alloc: Global, id: u64) -> Result<Option<Object>, KeepFault>
        ensures object { K.terms.doubt self.new.keep ≡ 0 → (c : Contents) → StoreHas K.terms self.old c → IfOk result (λ found. found ≡ object_at c id) }
        ensures token { IfOk result (λ found. IfSome found IsTokenObject) }
        ensures same { Stays K.terms self.old.keep self.new.keep }
        ensures ids { SameIds K.terms self.old self.new }
        ensures steady { K.terms.is_steady self.old.keep → IsErrOf result Device → (c : Contents) → StoreHas K.terms self.old c → ⊥ }
        ensures counts { Counted K.terms self.old.keep self.new.keep 0 0 }
        ensures cause { HasCause (K.terms.failures self.old.keep) (K.terms.failures self.new.keep) result }
    {
        if !has_id(&self.listed, id) {
            return Ok(None);
        }
        Ok(Some(self.keep.object(alloc, id)?))
    }

    /// Finds the token objects that one who is logged in so sees and the template finds. Appends them to what was found before, in
    /// the order of their creation. An object whose mark excludes it is not read, nor is one whose mark decides. Each other one is read
    /// once.
    pub fn search(
        &mut self,
        alloc: Global,
        login: Option<UserType>,
        template: &Template,
        found: &mut Vec<Match>,
    ) -> Result<(), KeepFault>
        ensures found { K.terms.doubt self.new.keep ≡ 0 → (c : Contents) → StoreHas K.terms self.old c
            → OnOk result (found.new.items ≡ found.old.items ++ kept_found login template.now c.objects) }
        ensures may { AllByRecursion (MayFind login) found.old.items → OnOk result (AllByRecursion (MayFind login) found.new.items) }
        ensures same { Stays K.terms self.old.keep self.new.keep }
        ensures ids { SameIds K.terms self.old self.new }
        ensures steady { K.terms.is_steady self.old.keep → IsErrOf result Device → (c : Contents) → StoreHas K.terms self.old c → ⊥ }
        ensures counts { Counted K.terms self.old.keep self.new.keep 0 0 }
        ensures cause { HasCause (K.terms.failures self.old.keep) (K.terms.failures self.new.keep) result }
    {
        compact(&mut self.listed, &mut self.removed);
        search_kept(
            alloc,
            &mut self.keep,
            &mut self.listed,
            login,
            template,
            found,
        )
    }

    /// Reads the objects whose marks aren't known and notes these, up to the first that can't be read. So no search has to. The list of all
    /// objects is allocated meanwhile.
    pub fn note_marks(&mut self, alloc: Global) -> Result<(), KeepFault>
        ensures same { Stays K.terms self.old.keep self.new.keep }
        ensures ids { SameIds K.terms self.old self.new }
        ensures steady { K.terms.is_steady self.old.keep → IsErrOf result Device → (c : Contents) → StoreHas K.terms self.old c → ⊥ }
        ensures counts { Counted K.terms self.old.keep self.new.keep 0 0 }
        ensures cause { HasCause (K.terms.failures self.old.keep) (K.terms.failures self.new.keep) result }
    {
        let mut found = Vec::new(alloc);
        self.search(
            alloc,
            Some(UserType::User),
            &Template::new(alloc),
            &mut found,
        )
    }

    /// Adds a token object at the end. Memory for its id and its mark is allocated before it is written.
    pub fn insert(&mut self, object: &Object) -> Result<u64, KeepFault>
        requires { IsTokenObject object.now }
        ensures id { K.terms.doubt self.new.keep ≡ 0 → (c : Contents) → StoreHas K.terms self.old c → IfOk result (λ id. id ≡ c.last_id + 1) }
        ensures has { K.terms.doubt self.new.keep ≡ 0 → (c : Contents) → StoreHas K.terms self.old c
            → OnOk result (StoreHas K.terms self.new (with_object object.now c)) }
        ensures wrote { Wrote K.terms (with_object object.now)
            ((c : Contents) → StoreHas K.terms self.old c → greatest_id ≤ c.last_id) self.old self.new result }
    {
        compact(&mut self.listed, &mut self.removed);
        self.listed.reserve(1)?;
        let id = self.keep.insert(object)?;
        self.listed.push_reserved(ObjectEntry {
            id,
            mark: Some(Mark::of(object)),
            removed: false,
        });
        Ok(id)
    }

    /// Replaces the token object under an id.
    pub fn replace(&mut self, id: u64, object: &Object) -> Result<(), KeepFault>
        requires { IsTokenObject object.now }
        ensures has { (c : Contents) → StoreHas K.terms self.old c → OnOk result (StoreHas K.terms self.new (with_replacement id object.now c)) }
        ensures wrote { Wrote K.terms (with_replacement id object.now)
            ((c : Contents) → StoreHas K.terms self.old c → object_at c id ≡ None) self.old self.new result }
    {
        self.keep.replace(id, object)?;
        set_mark(&mut self.listed, id, Mark::of(object));
        Ok(())
    }

    /// Removes the object under an id.
    pub fn remove(&mut self, id: u64) -> Result<(), KeepFault>
        ensures has { (c : Contents) → StoreHas K.terms self.old c → OnOk result (StoreHas K.terms self.new (without_object id c)) }
        ensures wrote { Wrote K.terms (without_object id)
            ((c : Contents) → StoreHas K.terms self.old c → object_at c id ≡ None) self.old self.new result }
    {
        self.keep.remove(id)?;
        remove_id(&mut self.listed, id);
        self.removed = self.removed.saturating_add(1);
        Ok(())
    }
}
