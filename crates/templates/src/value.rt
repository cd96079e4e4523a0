//! The value of each attribute of the object that is made.

ghost use Rattle.std.specs.Prelude.{◌≡◌, ◌≤◌, [], IfOk, Some, length, unwrap_or};
ghost use Rattle.attrs.specs.Objects.{attribute, attribute_of, is_true};
ghost use Rattle.attrs.specs.Table.{row_number};
ghost use Rattle.templates.specs.Made.{by_default, by_token, generator, is_extractable, is_generate, is_key_class, is_sensitive, is_renewed, is_unwrap, made_value, not_given, number_bytes, renews, truth, type_by_making};

use crate::making::Making;
use attrs::{AttributeRow, DefaultValue, attribute_in, find_attribute};
use ck_mechanisms::key_type_of;
use ck_types::{AttrType, Bytes, Entry, KeyType, ObjectClass, UNAVAILABLE_INFORMATION};
use std::alloc::{AllocError, Global};

/// What an object is made of.
#[derive(Clone, Copy)]
pub(crate) struct Recipe<'a> {
    pub making: Making,
    pub class: ObjectClass,
    /// The object that is copied or changed; empty where a new one is made.
    pub original: &'a [Entry],
    pub template: &'a [Entry],
    /// The first sixteen bytes make CKA_UNIQUE_ID.
    pub random: &'a [u8],
    /// The value of a key that is created, generated or unwrapped.
    pub value: &'a [u8],
}

fn truth_bytes(alloc: Global, is_true: bool) -> Result<Bytes, AllocError>
    ensures { IfOk result (λ bytes. bytes ≡ truth is_true) }
{
    if is_true {
        Bytes::from_slice(alloc, &[1])
    } else {
        Bytes::from_slice(alloc, &[0])
    }
}

fn bytes_of_number(alloc: Global, number: u64) -> Result<Bytes, AllocError>
    ensures { IfOk result (λ bytes. bytes ≡ number_bytes number) }
{
    Bytes::from_slice(alloc, &number.to_be_bytes())
}

fn generates(making: Making) -> bool
    ensures { result ≡ is_generate making }
{
    match making {
        Making::Generate(_) => true,
        Making::Create | Making::Unwrap(_) | Making::Copy | Making::Set => false,
    }
}

fn unwraps(making: Making) -> bool
    ensures { result ≡ is_unwrap making }
{
    match making {
        Making::Unwrap(_) => true,
        Making::Create | Making::Generate(_) | Making::Copy | Making::Set => false,
    }
}

fn is_key(class: ObjectClass) -> bool
    ensures { result ≡ is_key_class class }
{
    match class {
        ObjectClass::Data => false,
        ObjectClass::SecretKey => true,
    }
}

fn generator_of(making: Making) -> u64
    ensures { result ≡ generator making }
{
    match making {
        Making::Generate(mechanism) => mechanism.number(),
        Making::Create | Making::Unwrap(_) | Making::Copy | Making::Set => UNAVAILABLE_INFORMATION,
    }
}

fn key_type_by_call(making: Making) -> KeyType
    ensures { result ≡ type_by_making making }
{
    match making {
        Making::Generate(mechanism) => key_type_of(mechanism),
        Making::Create | Making::Unwrap(_) | Making::Copy | Making::Set => KeyType::GenericSecret,
    }
}

fn is_true_value(value: &[u8]) -> bool
    ensures { result ≡ is_true (Some value.now) }
{
    value.len() == 1 && value[0] == 1
}

/// Whether a flag is given as true, or isn't given and true by default.
pub(crate) fn flag_or(template: &[Entry], attribute: AttrType, default: bool) -> bool
    ensures { result ≡ is_true (Some (unwrap_or (attribute_of template.now attribute) (truth default))) }
{
    match attribute_in(template, attribute) {
        Some(value) => is_true_value(value),
        None => default,
    }
}

fn is_sensitive_key(template: &[Entry]) -> bool
    ensures { result ≡ is_sensitive template.now }
{
    flag_or(template, AttrType::Sensitive, true)
}

fn is_extractable_key(template: &[Entry]) -> bool
    ensures { result ≡ is_extractable template.now }
{
    flag_or(template, AttrType::Extractable, false)
}

fn value_by_token(
    alloc: Global,
    making: Making,
    template: &[Entry],
    value: &[u8],
    attribute: AttrType,
) -> Result<Bytes, AllocError>
    ensures { IfOk result (λ bytes. bytes ≡ by_token making template.now value.now attribute) }
{
    match attribute {
        AttrType::Class => bytes_of_number(alloc, ObjectClass::SecretKey.number()),
        AttrType::KeyType => bytes_of_number(alloc, key_type_by_call(making).number()),
        AttrType::Value => Bytes::from_slice(alloc, value),
        AttrType::ValueLen => bytes_of_number(alloc, value.len() as u64),
        AttrType::Local => truth_bytes(alloc, generates(making)),
        AttrType::NeverExtractable => {
            truth_bytes(alloc, generates(making) && !is_extractable_key(template))
        }
        AttrType::AlwaysSensitive => {
            truth_bytes(alloc, generates(making) && is_sensitive_key(template))
        }
        AttrType::KeyGenMechanism => bytes_of_number(alloc, generator_of(making)),
        _ => Ok(Bytes::new(alloc)),
    }
}

fn default_value(alloc: Global, recipe: &Recipe, row: &AttributeRow) -> Result<Bytes, AllocError>
    ensures { IfOk result
        (λ bytes. bytes ≡ by_default row.now.default recipe.now.making recipe.now.class recipe.now.template.now recipe.now.value.now row.now.attribute) }
{
    match row.default {
        DefaultValue::ByToken => value_by_token(
            alloc,
            recipe.making,
            recipe.template,
            recipe.value,
            row.attribute,
        ),
        DefaultValue::False => truth_bytes(alloc, false),
        DefaultValue::True => truth_bytes(alloc, true),
        DefaultValue::TrueForKey => truth_bytes(alloc, is_key(recipe.class)),
        DefaultValue::TrueUnwrapped => truth_bytes(alloc, unwraps(recipe.making)),
        DefaultValue::Empty => Ok(Bytes::new(alloc)),
    }
}

fn original_value(alloc: Global, recipe: &Recipe, row: &AttributeRow) -> Result<Bytes, AllocError>
    ensures { IfOk result (λ bytes. bytes ≡ unwrap_or (attribute recipe.now.original.now (row_number row.now)) []) }
{
    match find_attribute(recipe.original, row.attribute.number()) {
        Some(value) => Bytes::from_slice(alloc, value),
        None => Ok(Bytes::new(alloc)),
    }
}

fn value_not_given(alloc: Global, recipe: &Recipe, row: &AttributeRow) -> Result<Bytes, AllocError>
    ensures { IfOk result
        (λ bytes. bytes ≡ not_given recipe.now.making recipe.now.class recipe.now.original.now recipe.now.template.now recipe.now.value.now row.now) }
{
    match recipe.making {
        Making::Create | Making::Generate(_) | Making::Unwrap(_) => default_value(
            alloc, recipe, row,
        ),
        Making::Copy | Making::Set => original_value(alloc, recipe, row),
    }
}

fn renews_unique_id(making: Making) -> bool
    ensures { result ≡ renews making }
{
    match making {
        Making::Create | Making::Generate(_) | Making::Unwrap(_) | Making::Copy => true,
        Making::Set => false,
    }
}

fn is_renewed_by(making: Making, row: &AttributeRow) -> bool
    ensures { result ≡ is_renewed making row.now }
{
    renews_unique_id(making) && row.attribute.number() == AttrType::UniqueId.number()
}

/// The value of an attribute of the object that is made.
pub(crate) fn value_made(
    alloc: Global,
    recipe: &Recipe,
    row: &AttributeRow,
) -> Result<Bytes, AllocError>
    requires { 16 ≤ length recipe.now.random.now }
    ensures { IfOk result
        (λ bytes. bytes ≡ made_value recipe.now.making recipe.now.class recipe.now.original.now recipe.now.template.now
        recipe.now.random.now recipe.now.value.now row.now) }
{
    if is_renewed_by(recipe.making, row) {
        let digits = hex::encode(alloc, recipe.random.split_at(16).0)?;
        return Ok(Bytes::from_vec(digits.into_bytes()));
    }
    match find_attribute(recipe.template, row.attribute.number()) {
        Some(value) => Bytes::from_slice(alloc, value),
        None => value_not_given(alloc, recipe, row),
    }
}
