//! Searching the token objects.

ghost use Rattle.std.specs.Prelude.{◌≡◌, ◌++◌, true, false, None, Some, Option, IsErrOf, IsSome, OnOk};
ghost use Rattle.std.specs.List.{AllByRecursion};
ghost use Rattle.keep.specs.Contents.{Contents, object_at};
ghost use Rattle.keep.specs.Keeping.{Counted, HasCause, Stays};
ghost use Rattle.keep.specs.declared.keep.KeepFault.TheVariants.{Device};
ghost use Rattle.find.specs.Marks.{wanted_of};
ghost use Rattle.serve_base.specs.Listing.{AreMarks, IsMarkOf, all_ids, listed_ids};
ghost use Rattle.guard.specs.Access.{is_user_in};
ghost use Rattle.serve_base.specs.Searching.{found_at, found_in, found_of, marked_match, passes_over, MayFind};
ghost use Rattle.ck_types.specs.declared.user_type.UserType.{UserType as AnUser};

use crate::finding::{sees, sees_private};
use crate::listed::ObjectEntry;
use attrs::Object;
use ck_types::{AttrType, Template, UserType};
use find::{Mark, Wanted, push_if_matches};
use keep::{Keep, KeepFault};
use std::alloc::{AllocError, Global};

/// What a search has found.
#[derive(Clone, Copy, Debug, PartialEq, Eq)]
pub enum Match {
    /// A token object, by its id, and whether it is private.
    TokenObject { id: u64, private: bool },
    /// A session object, by its handle.
    SessionObject { handle: u64 },
}

/// Finds the token objects among those of the list. An object whose mark is known and excludes it is passed over. Where marks decide all
/// that the template wants, it is found or not by its mark. Each other one is read, its mark is noted, and no copy is kept.
pub(crate) fn search_kept<K: Keep>(
    alloc: Global,
    keep: &mut K,
    listed: &mut [ObjectEntry],
    login: Option<UserType>,
    template: &Template,
    found: &mut Vec<Match>,
) -> Result<(), KeepFault>
    ensures found { K.terms.doubt keep.new ≡ 0 → (c : Contents) → K.terms.holds keep.old c → AreMarks c listed.old
        → AllByRecursion (λ id. IsSome (object_at c id)) (listed_ids listed.old)
        → OnOk result (found.new.items ≡ found.old.items ++ found_at login template.now (object_at c) (listed_ids listed.old)) }
    ensures may { AllByRecursion (MayFind login) found.old.items → OnOk result (AllByRecursion (MayFind login) found.new.items) }
    ensures ids { listed_ids listed.new ≡ listed_ids listed.old }
    ensures all { all_ids listed.new ≡ all_ids listed.old }
    ensures marks { K.terms.doubt keep.new ≡ 0 → (c : Contents) → K.terms.holds keep.old c → AreMarks c listed.old → AreMarks c listed.new }
    ensures same { Stays K.terms keep.old keep.new }
    ensures steady { K.terms.is_steady keep.old → IsErrOf result Device → (c : Contents) → K.terms.holds keep.old c
        → AllByRecursion (λ id. IsSome (object_at c id)) (listed_ids listed.old) → ⊥ }
    ensures counts { Counted K.terms keep.old keep.new 0 0 }
    ensures cause { HasCause (K.terms.failures keep.old) (K.terms.failures keep.new) result }
{
    let wanted = Wanted::of(template);
    for entry in listed.iter_mut() {
        search_next(alloc, keep, entry, login, template, &wanted, found)?;
    }
    Ok(())
}

/// Looks at the next object of the list, if it wasn't removed.
fn search_next<K: Keep>(
    alloc: Global,
    keep: &mut K,
    entry: &mut ObjectEntry,
    login: Option<UserType>,
    template: &Template,
    wanted: &Wanted,
    found: &mut Vec<Match>,
) -> Result<(), KeepFault>
    requires { wanted.now ≡ wanted_of template.now }
    ensures found { K.terms.doubt keep.new ≡ 0 → (c : Contents) → K.terms.holds keep.old c → IsMarkOf (object_at c entry.old.id) entry.old.mark
        → (entry.old.removed ≡ false → IsSome (object_at c entry.old.id))
        → OnOk result (found.new.items ≡ found.old.items ++ found_in login template.now (object_at c) entry.old) }
    ensures may { AllByRecursion (MayFind login) found.old.items → OnOk result (AllByRecursion (MayFind login) found.new.items) }
    ensures id { entry.new.id ≡ entry.old.id }
    ensures removed { entry.new.removed ≡ entry.old.removed }
    ensures mark { K.terms.doubt keep.new ≡ 0 → (c : Contents) → K.terms.holds keep.old c → IsMarkOf (object_at c entry.old.id) entry.old.mark
        → IsMarkOf (object_at c entry.old.id) entry.new.mark }
    ensures same { Stays K.terms keep.old keep.new }
    ensures steady { K.terms.is_steady keep.old → IsErrOf result Device → (c : Contents) → K.terms.holds keep.old c
        → (entry.old.removed ≡ false) × (object_at c entry.old.id ≡ None) }
    ensures counts { Counted K.terms keep.old keep.new 0 0 }
    ensures cause { HasCause (K.terms.failures keep.old) (K.terms.failures keep.new) result }
{
    if entry.removed {
        return Ok(());
    }
    if let Some(mark) = entry.mark {
        if passes_over(login, wanted, &mark) {
            return Ok(());
        }
        if wanted.is_decided() {
            return Ok(find_by_mark(template, entry.id, &mark, found)?);
        }
    }
    let object = keep.object(alloc, entry.id)?;
    entry.mark = Some(Mark::of(&object));
    search_one(login, template, entry.id, &object, found)?;
    Ok(())
}

/// Whether a search passes over each object with this mark. One who is logged in so doesn't see it, or the template doesn't find
/// it.
fn passes_over(login: Option<UserType>, wanted: &Wanted, mark: &Mark) -> bool
    ensures { result ≡ passes_over login wanted.now mark.now }
{
    (mark.is_private() && !sees_private(login)) || wanted.excludes(mark)
}

/// Adds a token object that isn't passed over to what was found, where its mark says that the template finds it.
fn find_by_mark(
    template: &Template,
    id: u64,
    mark: &Mark,
    found: &mut Vec<Match>,
) -> Result<(), AllocError>
    ensures found { OnOk result (found.new.items ≡ found.old.items ++ marked_match template.now id mark.now) }
    ensures may { (login : Option AnUser) → (mark.now.private ≡ true → is_user_in login ≡ true)
        → AllByRecursion (MayFind login) found.old.items → OnOk result (AllByRecursion (MayFind login) found.new.items) }
{
    if mark.is_found(template) {
        found.reserve(1)?;
        found.push_reserved(Match::TokenObject {
            id,
            private: mark.is_private(),
        });
    }
    Ok(())
}

/// Adds a token object to what was found, where it is seen and the template finds it.
fn search_one(
    login: Option<UserType>,
    template: &Template,
    id: u64,
    object: &Object,
    found: &mut Vec<Match>,
) -> Result<(), AllocError>
    ensures found { OnOk result (found.new.items ≡ found.old.items ++ found_of login template.now id (Some object.now)) }
    ensures may { AllByRecursion (MayFind login) found.old.items → OnOk result (AllByRecursion (MayFind login) found.new.items) }
{
    if !sees(login, object) {
        return Ok(());
    }
    let note = Match::TokenObject {
        id,
        private: object.flag(AttrType::Private),
    };
    push_if_matches(template, object, note, found)
}
