//! C_FindObjectsInit (PKCS #11 v3.1, 5.7.7).

ghost use Rattle.std.specs.Prelude.{◌≡◌, ◌<◌, ◌^◌, ◌++◌, IfOk, IsErrOf};
ghost use Rattle.std.specs.List.{AllByRecursion};
ghost use Rattle.keep.specs.Contents.{Contents};
ghost use Rattle.keep.specs.Keeping.{Counted, HasCause, Stays};
ghost use Rattle.keep.specs.declared.keep.KeepFault.TheVariants.{Device};
ghost use Rattle.model_answers.specs.FindObjectsInit.{find_objects_init};
ghost use Rattle.serve_base.specs.Refusing.{IsDone};
ghost use Rattle.serve_base.specs.Searching.{kept_found, MayFind};
ghost use Rattle.serve_base.specs.Stores.{StoreHas, SameIds};
ghost use Rattle.serve_objects.specs.Giving.{own_matches};

use crate::giving::give_handles;
use ck_calls::Reply;
use ck_types::{Rv, Template};
use desk::{Desk, OwnObject};
use find::push_if_matches;
use keep::{Keep, KeepFault};
use ops::Search;
use precede::Condition;
use serve_base::{Match, Refusal, Store};
use std::alloc::{AllocError, Global};

/// C_FindObjectsInit (PKCS #11 v3.1, 5.7.7).
/// Codes: the checks of C_FindObjectsInit (`precede`). Begins a search: it finds what the template finds now, even where an object is
/// destroyed later.
pub fn serve<K: Keep>(
    alloc: Global,
    desk: &mut Desk,
    store: &mut Store<K>,
    session: u64,
    template: &Template,
) -> Result<Reply, Refusal>
    requires below { desk.old.handles.next_number < 2 ^ 63 }
    ensures { IsDone K.terms 0 (λ v. find_objects_init v session template.now) store.old store.new desk.old result desk.new }
{
    let _ = desk.state(session).ok_or(Condition::NoSession)?;
    if desk.search(session).is_some() {
        return Err(Refusal::Condition(Condition::OperationActive));
    }
    let matches = find_all(alloc, desk, store, template)?;
    let mut handles = Vec::with_capacity(alloc, matches.len())?;
    desk.reserve_handles(matches.len())?;
    give_handles(desk, &matches, &mut handles);
    desk.set_search(session, Some(Search::new(handles)));
    Ok(Reply::Code(Rv::Ok))
}

/// What the template finds: of the token objects that the application sees, and then of its session objects.
fn find_all<K: Keep>(
    alloc: Global,
    desk: &Desk,
    store: &mut Store<K>,
    template: &Template,
) -> Result<Vec<Match>, KeepFault>
    ensures found { K.terms.doubt store.new.keep ≡ 0 → (c : Contents) → StoreHas K.terms store.old c
        → IfOk result (λ found. found.items ≡ kept_found desk.now.sessions.login template.now c.objects ++ own_matches template.now desk.now.own) }
    ensures may { IfOk result (λ found. AllByRecursion (MayFind desk.now.sessions.login) found.items) }
    ensures same { Stays K.terms store.old.keep store.new.keep }
    ensures ids { SameIds K.terms store.old store.new }
    ensures steady { K.terms.is_steady store.old.keep → IsErrOf result Device → (c : Contents) → StoreHas K.terms store.old c → ⊥ }
    ensures counts { Counted K.terms store.old.keep store.new.keep 0 0 }
    ensures cause { HasCause (K.terms.failures store.old.keep) (K.terms.failures store.new.keep) result }
{
    let mut found = Vec::new(alloc);
    store.search(alloc, desk.logged_in(), template, &mut found)?;
    search_own(desk.own_objects(), template, &mut found)?;
    Ok(found)
}

/// Finds session objects, and appends them to what was found before.
fn search_own(
    objects: &[OwnObject],
    template: &Template,
    found: &mut Vec<Match>,
) -> Result<(), AllocError>
    ensures { IfOk result (λ done. found.new.items ≡ found.old.items ++ own_matches template.now objects.now) }
{
    for own in objects {
        let note = Match::SessionObject { handle: own.handle };
        push_if_matches(template, &own.object, note, found)?;
    }
    Ok(())
}
