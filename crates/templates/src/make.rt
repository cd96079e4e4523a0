//! The five calls that make or change an object.

ghost use Rattle.std.specs.Prelude.{◌≡◌, ◌+◌, ◌≤◌, [], IfOk, None, true, MatchResult, length};
ghost use Rattle.attrs.specs.Objects.{IsObject};
ghost use Rattle.ck_types.specs.declared.object_class.ObjectClass.TheVariants.{SecretKey};
ghost use Rattle.templates.specs.declared.making.Making.TheVariants as calls;
ghost use Rattle.templates.specs.declared.fault.MakeFault.TheVariants.{Memory};
ghost use Rattle.templates.specs.Faults.{template_fault};
ghost use Rattle.templates.specs.Guarded.{IsAsGuarded, StaysPlaced};
ghost use Rattle.templates.specs.Made.{alters, Answers, asked_len, generated_len, generated_value, given_value, made_entries, made_entry, object_made};

use crate::fault::{MakeFault, find_fault};
use crate::making::Making;
use crate::value::{Recipe, value_made};
use attrs::{AttributeRow, Object, attribute_in, attributes, class_in, number_in};
use ck_types::{
    AttrType, Entry, Items, MAX_SECRET_LEN, MechType, ObjectClass, SessionState, Template,
    UNIQUE_ID_BYTES,
};
use std::alloc::{AllocError, Global};

fn make_entry(alloc: Global, recipe: &Recipe, row: &AttributeRow) -> Result<Entry, AllocError>
    requires { 16 ≤ length recipe.now.random.now }
    ensures { IfOk result
        (λ entry. entry ≡ made_entry recipe.now.making recipe.now.class recipe.now.original.now recipe.now.template.now
        recipe.now.random.now recipe.now.value.now row.now) }
{
    let number = row.attribute.number();
    let value = value_made(alloc, recipe, row)?;
    Ok(Entry {
        attr_type: number,
        value,
    })
}

fn make_entries(alloc: Global, recipe: &Recipe) -> Result<Items<Entry>, AllocError>
    requires { 16 ≤ length recipe.now.random.now }
    ensures { IfOk result
        (λ entries. entries ≡ made_entries recipe.now.making recipe.now.class recipe.now.original.now recipe.now.template.now
        recipe.now.random.now recipe.now.value.now) }
{
    let mut entries = Items::new(alloc);
    for row in attributes() {
        if row.is_held_by(recipe.class) {
            entries.push(make_entry(alloc, recipe, row)?)?;
        }
    }
    Ok(entries)
}

fn make(alloc: Global, recipe: &Recipe) -> Result<Object, MakeFault>
    requires random { 16 ≤ length recipe.now.random.now }
    requires object { IsObject
        (made_entries recipe.now.making recipe.now.class recipe.now.original.now recipe.now.template.now recipe.now.random.now recipe.now.value.now) }
    ensures { MatchResult result
        (λ object. object ≡ made_entries recipe.now.making recipe.now.class recipe.now.original.now recipe.now.template.now
        recipe.now.random.now recipe.now.value.now) (λ fault. fault ≡ Memory) }
{
    let entries = make_entries(alloc, recipe)?;
    Ok(Object::new(alloc, entries)?)
}

fn value_given(template: &[Entry]) -> &[u8]
    ensures { result.now ≡ given_value template.now }
{
    match attribute_in(template, AttrType::Value) {
        Some(value) => value,
        None => &[],
    }
}

/// The object that C_CreateObject makes of a template. The first 16 random bytes make CKA_UNIQUE_ID.
pub fn created(
    alloc: Global,
    state: SessionState,
    template: &Template,
    random: &[u8],
) -> Result<Object, MakeFault>
    requires { 16 ≤ length random.now }
    ensures { Answers result (template_fault calls.Create state [] template.now)
        (object_made calls.Create [] template.now random.now (given_value template.now)) }
{
    let template = template.as_slice();
    if let Some(code) = find_fault(Making::Create, state, &[], template) {
        return Err(MakeFault::Refused(code));
    }
    let Some(class) = class_in(template) else {
        unreachable!()
    };
    let recipe = Recipe {
        making: Making::Create,
        class,
        original: &[],
        template,
        random,
        value: value_given(template),
    };
    make(alloc, &recipe)
}

fn len_asked_for(template: &[Entry]) -> usize
    ensures { result ≡ generated_len template.now }
{
    match number_in(attribute_in(template, AttrType::ValueLen)) {
        Some(len) if len <= MAX_SECRET_LEN => len as usize,
        Some(_) | None => 0,
    }
}

/// How many random bytes `generated` needs for a template: 16, and as many as CKA_VALUE_LEN is where
/// that is at most 512.
pub fn random_len(template: &Template) -> usize
    ensures { result ≡ 16 + generated_len template.now }
{
    UNIQUE_ID_BYTES + len_asked_for(template.as_slice())
}

/// A key that is new, with this value.
fn make_key(
    alloc: Global,
    making: Making,
    state: SessionState,
    template: &[Entry],
    random: &[u8],
    value: &[u8],
) -> Result<Object, MakeFault>
    requires random { 16 ≤ length random.now }
    requires object { template_fault making state [] template.now ≡ None → IsObject (made_entries making SecretKey [] template.now random.now value.now) }
    ensures { Answers result (template_fault making state [] template.now) (made_entries making SecretKey [] template.now random.now value.now) }
{
    if let Some(code) = find_fault(making, state, &[], template) {
        return Err(MakeFault::Refused(code));
    }
    let recipe = Recipe {
        making,
        class: ObjectClass::SecretKey,
        original: &[],
        template,
        random,
        value,
    };
    make(alloc, &recipe)
}

/// The key that C_GenerateKey makes of a template by a mechanism that generates keys. The first 16
/// random bytes make CKA_UNIQUE_ID, those that follow are the value; `random_len` is how many.
pub fn generated(
    alloc: Global,
    state: SessionState,
    mechanism: MechType,
    template: &Template,
    random: &[u8],
) -> Result<Object, MakeFault>
    requires { 16 + generated_len template.now ≤ length random.now }
    ensures { Answers result (template_fault (calls.Generate mechanism) state [] template.now)
        (object_made (calls.Generate mechanism) [] template.now random.now (generated_value template.now random.now)) }
{
    let template = template.as_slice();
    let (_, after) = random.split_at(UNIQUE_ID_BYTES);
    let (value, _) = after.split_at(len_asked_for(template));
    let making = Making::Generate(mechanism);
    make_key(alloc, making, state, template, random, value)
}

/// The key that C_UnwrapKey makes of a template and the unwrapped value. The first 16 random bytes make
/// CKA_UNIQUE_ID. Where the value isn't known yet, `unwrap_fault` finds from its length whether there
/// will be a key.
pub fn unwrapped(
    alloc: Global,
    state: SessionState,
    template: &Template,
    value: &[u8],
    random: &[u8],
) -> Result<Object, MakeFault>
    requires { 16 ≤ length random.now }
    ensures { Answers result (template_fault (calls.Unwrap (length value.now)) state [] template.now)
        (object_made (calls.Unwrap (length value.now)) [] template.now random.now value.now) }
{
    let making = Making::Unwrap(value.len());
    make_key(alloc, making, state, template.as_slice(), random, value)
}

/// What a copy or a change makes of an object, with the template's changes.
fn altered(
    alloc: Global,
    making: Making,
    state: SessionState,
    original: &Object,
    template: &[Entry],
    random: &[u8],
) -> Result<Object, MakeFault>
    requires making { alters making ≡ true }
    requires random { 16 ≤ length random.now }
    ensures made { Answers result (template_fault making state original.now template.now) (object_made making original.now template.now random.now []) }
    ensures guarded { IfOk result (λ object. IsAsGuarded state original.now object) }
    ensures placed { making ≡ calls.Set → IfOk result (λ object. StaysPlaced original.now object) }
{
    if let Some(code) = find_fault(making, state, original.entries(), template) {
        return Err(MakeFault::Refused(code));
    }
    let recipe = Recipe {
        making,
        class: original.class(),
        original: original.entries(),
        template,
        random,
        value: &[],
    };
    make(alloc, &recipe)
}

/// The copy that C_CopyObject makes of an object, with the template's changes. The first 16 random
/// bytes make its CKA_UNIQUE_ID. A masked value is masked in the copy too.
pub fn copied(
    alloc: Global,
    state: SessionState,
    original: &Object,
    template: &Template,
    random: &[u8],
) -> Result<Object, MakeFault>
    requires { 16 ≤ length random.now }
    ensures made { Answers result (template_fault calls.Copy state original.now template.now) (object_made calls.Copy original.now template.now random.now []) }
    ensures guarded { IfOk result (λ object. IsAsGuarded state original.now object) }
{
    altered(
        alloc,
        Making::Copy,
        state,
        original,
        template.as_slice(),
        random,
    )
}

/// What C_SetAttributeValue makes of an object, with the template's changes. A masked value
/// stays so, and so does a token object, and a private one.
pub fn changed(
    alloc: Global,
    state: SessionState,
    original: &Object,
    template: &Template,
) -> Result<Object, MakeFault>
    ensures made { Answers result (template_fault calls.Set state original.now template.now) (object_made calls.Set original.now template.now [] []) }
    ensures guarded { IfOk result (λ object. IsAsGuarded state original.now object) }
    ensures placed { IfOk result (λ object. StaysPlaced original.now object) }
{
    // CKA_UNIQUE_ID stays: no random bytes are read.
    let random = [0; UNIQUE_ID_BYTES];
    altered(
        alloc,
        Making::Set,
        state,
        original,
        template.as_slice(),
        &random,
    )
}
