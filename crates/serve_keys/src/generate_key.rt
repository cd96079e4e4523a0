//! C_GenerateKey (PKCS #11 v3.1, 5.18).

ghost use Rattle.std.specs.Prelude.{◌≡◌, ◌+◌, ◌<◌, ◌^◌, ◌==◌, length, not};
ghost use Rattle.ck_calls.specs.Need.{value_len_in};
ghost use Rattle.model_answers.specs.GenerateKey.{generate_key};
ghost use Rattle.serve_base.specs.Refusing.{IsDone};

use ck_calls::{Mechanism, Reply};
use ck_mechanisms::{Purpose, find_for};
use ck_types::Template;
use desk::Desk;
use keep::Keep;
use precede::Condition;
use serve_base::{Refusal, Store, add_object};
use std::alloc::Global;
use templates::generated;

/// C_GenerateKey (PKCS #11 v3.1, 5.18).
/// Codes: the checks of C_GenerateKey (`precede`), and those of the template. Makes a key of a template and of the call's random bytes, and
/// returns its handle. The first 16 random bytes make its CKA_UNIQUE_ID, and those that follow are its value.
pub fn serve<K: Keep>(
    alloc: Global,
    desk: &mut Desk,
    store: &mut Store<K>,
    session: u64,
    mechanism: Mechanism,
    template: &Template,
    random: &[u8],
) -> Result<Reply, Refusal>
    requires below { desk.old.handles.next_number < 2 ^ 63 }
    requires random { length random.now ≡ 16 + value_len_in template.now }
    ensures { IsDone K.terms 1 (λ v. generate_key v session mechanism template.now random.now) store.old store.new desk.old result desk.new }
{
    generate(alloc, desk, store, session, &mechanism, template, random)
}

fn generate<K: Keep>(
    alloc: Global,
    desk: &mut Desk,
    store: &mut Store<K>,
    session: u64,
    mechanism: &Mechanism,
    template: &Template,
    random: &[u8],
) -> Result<Reply, Refusal>
    requires below { desk.old.handles.next_number < 2 ^ 63 }
    requires random { length random.now ≡ 16 + value_len_in template.now }
    ensures { IsDone K.terms 1 (λ v. generate_key v session mechanism.now template.now random.now) store.old store.new desk.old result desk.new }
{
    let state = desk.state(session).ok_or(Condition::NoSession)?;
    let generation = find_for(Purpose::Generation, mechanism.mech_type).ok_or(
        Condition::WrongMechanism,
    )?;
    if has_parameter(mechanism) {
        return Err(Refusal::Condition(Condition::WrongParameter));
    }
    let object = generated(alloc, state, generation, template, random)?;
    add_object(desk, store, session, state, object)
}

/// Whether a mechanism has a parameter, which none that generates keys takes.
fn has_parameter(mechanism: &Mechanism) -> bool
    ensures { result ≡ not (length mechanism.now.parameter == 0) }
{
    !mechanism.parameter.is_empty()
}
