//! The conditions on a template, each over all of it.

ghost use Rattle.std.specs.Prelude.{◌≡◌, Some};
ghost use Rattle.std.specs.List.{list_any};
ghost use Rattle.std.specs.Option.{option_copied};
ghost use Rattle.attrs.specs.Objects.{class_of};
ghost use Rattle.attrs.specs.Table.{attribute_table};
ghost use Rattle.templates.specs.Faults.{contradicts, disagrees, fits_form_of, form_in, has_bad_len, has_bad_unwrapped_len, is_about, is_bad_len, is_excluded, is_held, is_ill_formed, is_inconsistent, is_missing, is_of_other_class, is_other, is_present, is_read_only, is_required, is_value_set, is_so_state, is_unknown, is_unlisted, len_of, refuses};

use crate::making::{Making, rule_of};
use attrs::{
    AttributeRow, Form, Rule, attribute_in, attributes, class_from, class_in, find_attribute,
    fits_form, fits_key_type, key_type_from, key_type_in, number_in,
};
use ck_mechanisms::key_type_of;
use ck_types::{AttrType, Entry, KeyType, ObjectClass, SessionState};

fn is_held_in(class: Option<ObjectClass>, row: &AttributeRow) -> bool
    ensures { result ≡ is_held class row.now }
{
    match class {
        None => true,
        Some(class) => row.is_held_by(class),
    }
}

fn speaks_of(class: Option<ObjectClass>, number: u64, row: &AttributeRow) -> bool
    ensures { result ≡ is_about class number row.now }
{
    row.attribute.number() == number && is_held_in(class, row)
}

fn is_known_type(class: Option<ObjectClass>, number: u64) -> bool
    ensures { result ≡ list_any (is_about class number) attribute_table }
{
    attributes().iter().any(|row| speaks_of(class, number, row))
}

fn is_unknown_type(class: Option<ObjectClass>, entry: &Entry) -> bool
    ensures { result ≡ is_unknown class entry.now }
{
    !is_known_type(class, entry.attr_type)
}

/// Whether a type is no attribute of the class, or where there is none, of no object.
pub(crate) fn any_unknown(class: Option<ObjectClass>, template: &[Entry]) -> bool
    ensures { result ≡ list_any (is_unknown class) template.now }
{
    template.iter().any(|entry| is_unknown_type(class, entry))
}

fn find_form(rows: &[AttributeRow], number: u64) -> Option<Form>
    ensures { result ≡ form_in rows.now number }
{
    let [row, rows @ ..] = rows else {
        return None;
    };
    if row.attribute.number() == number {
        return Some(row.form);
    }
    find_form(rows, number)
}

fn fits_its_form(entry: &Entry) -> bool
    ensures { result ≡ fits_form_of (form_in attribute_table entry.now.attr_type) entry.now.value }
{
    match find_form(attributes(), entry.attr_type) {
        None => true,
        Some(form) => fits_form(form, entry.value.as_slice()),
    }
}

fn is_unlisted_entry(entry: &Entry) -> bool
    ensures { result ≡ is_unlisted entry.now }
{
    let number = number_in(Some(entry.value.as_slice()));
    (entry.attr_type == AttrType::Class.number() && class_from(number).is_none())
        || (entry.attr_type == AttrType::KeyType.number() && key_type_from(number).is_none())
}

fn is_ill_formed_entry(entry: &Entry) -> bool
    ensures { result ≡ is_ill_formed entry.now }
{
    !fits_its_form(entry) || is_unlisted_entry(entry)
}

/// Whether a value has the wrong form, or is an unknown class or key type.
pub(crate) fn any_ill_formed(template: &[Entry]) -> bool
    ensures { result ≡ list_any is_ill_formed template.now }
{
    template.iter().any(|entry| is_ill_formed_entry(entry))
}

fn is_contradicted(entry: &Entry, template: &[Entry]) -> bool
    ensures { result ≡ list_any (contradicts entry.now) template.now }
{
    template.iter().any(|other| entry.attr_type == other.attr_type
        && entry.value.as_slice() != other.value.as_slice())
}

/// Whether two entries of one type have unequal values.
pub(crate) fn any_contradicted(template: &[Entry]) -> bool
    ensures { result ≡ list_any (λ e. list_any (contradicts e) template.now) template.now }
{
    template
        .iter()
        .any(|entry| is_contradicted(entry, template))
}

fn is_set_value(value: &[u8]) -> bool
    ensures { result ≡ is_value_set value.now }
{
    value.len() == 1 && value[0] == 1
}

fn is_present_value(present: Option<&[u8]>, value: &[u8]) -> bool
    ensures { result ≡ is_present (option_copied present.entry) value.now }
{
    match present {
        None => false,
        Some(present) => present == value,
    }
}

fn is_so_state(state: SessionState) -> bool
    ensures { result ≡ is_so_state state }
{
    match state {
        SessionState::RwSo => true,
        SessionState::RoPublic
        | SessionState::RoUser
        | SessionState::RwPublic
        | SessionState::RwUser => false,
    }
}

fn rule_refuses(rule: Rule, state: SessionState, present: Option<&[u8]>, value: &[u8]) -> bool
    ensures { result ≡ refuses rule state (option_copied present.entry) value.now }
{
    match rule {
        Rule::Unused | Rule::Required | Rule::Optional | Rule::Inconsistent => false,
        Rule::ReadOnly => true,
        Rule::FalseOnly => is_set_value(value) && !is_present_value(present, value),
        Rule::TrueOnly => !is_set_value(value) && !is_present_value(present, value),
        Rule::TrueBySo => {
            is_set_value(value) && !is_so_state(state) && !is_present_value(present, value)
        }
    }
}

fn is_read_only_entry(
    making: Making,
    state: SessionState,
    original: &[Entry],
    entry: &Entry,
) -> bool
    ensures { result ≡ is_read_only making state original.now entry.now }
{
    let class = class_in(original);
    let present = find_attribute(original, entry.attr_type);
    attributes().iter().any(|row| {
        speaks_of(class, entry.attr_type, row)
            && rule_refuses(rule_of(making, row), state, present, entry.value.as_slice())
    })
}

/// Whether the rule of an attribute refuses its value as read-only.
pub(crate) fn any_read_only(
    making: Making,
    state: SessionState,
    original: &[Entry],
    template: &[Entry],
) -> bool
    ensures { result ≡ list_any (is_read_only making state original.now) template.now }
{
    template
        .iter()
        .any(|entry| is_read_only_entry(making, state, original, entry))
}

fn is_inconsistent_rule(rule: Rule) -> bool
    ensures { result ≡ is_inconsistent rule }
{
    rule == Rule::Inconsistent
}

fn is_excluded_entry(making: Making, original: &[Entry], entry: &Entry) -> bool
    ensures { result ≡ is_excluded making original.now entry.now }
{
    let class = class_in(original);
    attributes().iter().any(|row| {
        speaks_of(class, entry.attr_type, row) && is_inconsistent_rule(rule_of(making, row))
    })
}

/// Whether an attribute doesn't go with the call.
pub(crate) fn any_excluded(making: Making, original: &[Entry], template: &[Entry]) -> bool
    ensures { result ≡ list_any (is_excluded making original.now) template.now }
{
    template
        .iter()
        .any(|entry| is_excluded_entry(making, original, entry))
}

fn is_other_number(number: Option<u64>, wanted: u64) -> bool
    ensures { result ≡ is_other number wanted }
{
    match number {
        None => false,
        Some(number) => number != wanted,
    }
}

fn is_of_another_class(template: &[Entry]) -> bool
    ensures { result ≡ is_of_other_class template.now }
{
    let number = number_in(attribute_in(template, AttrType::Class));
    is_other_number(number, ObjectClass::SecretKey.number())
}

/// Whether the template disagrees with itself, the mechanism or the unwrapped length.
pub(crate) fn is_disagreeing(making: Making, template: &[Entry]) -> bool
    ensures { result ≡ disagrees making template.now }
{
    match making {
        Making::Create => any_unknown(class_in(template), template),
        Making::Generate(mechanism) => {
            let number = number_in(attribute_in(template, AttrType::KeyType));
            is_of_another_class(template)
                || is_other_number(number, key_type_of(mechanism).number())
        }
        Making::Unwrap(len) => {
            let number = number_in(attribute_in(template, AttrType::ValueLen));
            is_of_another_class(template) || is_other_number(number, len as u64)
        }
        Making::Copy | Making::Set => false,
    }
}

fn is_required_rule(rule: Rule) -> bool
    ensures { result ≡ is_required rule }
{
    rule == Rule::Required
}

fn is_missing_in(making: Making, template: &[Entry], row: &AttributeRow) -> bool
    ensures { result ≡ is_missing making template.now row.now }
{
    is_required_rule(rule_of(making, row))
        && is_held_in(class_in(template), row)
        && attribute_in(template, row.attribute).is_none()
}

/// Whether a required attribute is missing.
pub(crate) fn any_missing(making: Making, template: &[Entry]) -> bool
    ensures { result ≡ list_any (is_missing making template.now) attribute_table }
{
    attributes()
        .iter()
        .any(|row| is_missing_in(making, template, row))
}

fn is_bad_len_of(key_type: Option<KeyType>, len: Option<u64>) -> bool
    ensures { result ≡ is_bad_len key_type len }
{
    match (key_type, len) {
        (Some(key_type), Some(len)) => !fits_key_type(key_type, len as usize),
        (Some(_), None) | (None, _) => false,
    }
}

fn len_in(value: Option<&[u8]>) -> Option<u64>
    ensures { result ≡ len_of (option_copied value.entry) }
{
    match value {
        None => None,
        Some(value) => Some(value.len() as u64),
    }
}

/// Whether the value that is given or asked for has a length that its key type doesn't have.
pub(crate) fn is_of_bad_len(making: Making, template: &[Entry]) -> bool
    ensures { result ≡ has_bad_len making template.now }
{
    match making {
        Making::Create => is_bad_len_of(
            key_type_in(template),
            len_in(attribute_in(template, AttrType::Value)),
        ),
        Making::Generate(mechanism) => is_bad_len_of(
            Some(key_type_of(mechanism)),
            number_in(attribute_in(template, AttrType::ValueLen)),
        ),
        Making::Unwrap(_) | Making::Copy | Making::Set => false,
    }
}

/// Whether the unwrapped value has a length that its key type doesn't have.
pub(crate) fn is_of_bad_unwrapped_len(making: Making, template: &[Entry]) -> bool
    ensures { result ≡ has_bad_unwrapped_len making template.now }
{
    match making {
        Making::Unwrap(len) => is_bad_len_of(key_type_in(template), Some(len as u64)),
        Making::Create | Making::Generate(_) | Making::Copy | Making::Set => false,
    }
}
