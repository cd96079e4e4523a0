//! Whether attributes are those of an object.

ghost use Rattle.std.specs.Prelude.{◌≡◌, filter, length};
ghost use Rattle.std.specs.Option.{option_copied};
ghost use Rattle.ck_types.specs.Numbers.{attr_type_number};
ghost use Rattle.attrs.specs.Table.{is_held_by, rows_of};
ghost use Rattle.attrs.specs.Objects.{attribute, attribute_of, has_form, number_of, fits_rows, is_key_len, is_key_value, class_at, class_of, key_type_at, key_type_of, has_key_value, is_object};

use crate::table::{AttributeRow, Form, attributes};
use byteorder::{BigEndian, ByteOrder};
use ck_types::{AttrType, Entry, KeyType, ObjectClass};

/// The longest value of a byte string, in bytes.
const MAX_BYTES: usize = 1024;

/// Whether a value has a form.
pub fn fits_form(form: Form, bytes: &[u8]) -> bool
    ensures { result ≡ has_form form bytes.now }
{
    match form {
        Form::Truth => bytes.len() == 1 && bytes[0] < 2,
        Form::Number => bytes.len() == 8,
        Form::Bytes => bytes.len() <= MAX_BYTES,
    }
}

/// Whether a key type's values may have a length, in bytes (PKCS #11 v3.1, 6.8 and 6.10).
pub fn fits_key_type(key_type: KeyType, len: usize) -> bool
    ensures { result ≡ is_key_len key_type len }
{
    match key_type {
        KeyType::GenericSecret => 1 <= len && len <= 512,
        KeyType::Aes => len == 16 || len == 24 || len == 32,
    }
}

/// The value of the first entry of a type, in an object or in a template.
pub fn find_attribute(entries: &[Entry], number: u64) -> Option<&[u8]>
    ensures { option_copied result ≡ attribute entries.now number }
{
    let [entry, others @ ..] = entries else {
        return None;
    };
    if entry.attr_type == number {
        return Some(entry.value.as_slice());
    }
    find_attribute(others, number)
}

/// The number that a value of eight bytes is.
pub fn number_in(value: Option<&[u8]>) -> Option<u64>
    ensures { result ≡ number_of (option_copied value.entry) }
{
    let value = value?;
    if value.len() != 8 {
        return None;
    }
    Some(BigEndian::read_u64(value))
}

/// The value of an attribute, in an object or in a template.
pub fn attribute_in(entries: &[Entry], attribute: AttrType) -> Option<&[u8]>
    ensures { option_copied result ≡ attribute_of entries.now attribute }
{
    find_attribute(entries, attribute.number())
}

/// The class that an object or a template has, where it has one that is known here.
pub fn class_in(entries: &[Entry]) -> Option<ObjectClass>
    ensures { result ≡ class_of entries.now }
{
    class_from(number_in(attribute_in(entries, AttrType::Class)))
}

/// The class with a number, where there is one that is known here.
pub fn class_from(number: Option<u64>) -> Option<ObjectClass>
    ensures { result ≡ class_at number }
{
    ObjectClass::from_number(number?)
}

/// The key type that an object or a template has, where it has one that is known here.
pub fn key_type_in(entries: &[Entry]) -> Option<KeyType>
    ensures { result ≡ key_type_of entries.now }
{
    key_type_from(number_in(attribute_in(entries, AttrType::KeyType)))
}

/// The key type with a number, where there is one that is known here.
pub fn key_type_from(number: Option<u64>) -> Option<KeyType>
    ensures { result ≡ key_type_at number }
{
    KeyType::from_number(number?)
}

fn fits(class: ObjectClass, rows: &[AttributeRow], entries: &[Entry]) -> bool
    ensures { result ≡ fits_rows (filter (is_held_by class) rows.now) entries.now }
{
    let [row, rows @ ..] = rows else {
        return entries.is_empty();
    };
    if !row.is_held_by(class) {
        return fits(class, rows, entries);
    }
    let [entry, entries @ ..] = entries else {
        return false;
    };
    entry.attr_type == row.attribute.number()
        && fits_form(row.form, entry.value.as_slice())
        && fits(class, rows, entries)
}

fn fits_class(class: ObjectClass, entries: &[Entry]) -> bool
    ensures { result ≡ fits_rows (rows_of class) entries.now }
{
    fits(class, attributes(), entries)
}

fn key_value_fits(key_type: Option<KeyType>, value: Option<&[u8]>, len: Option<u64>) -> bool
    ensures { result ≡ is_key_value key_type (option_copied value.entry) len }
{
    match (key_type, value, len) {
        (Some(key_type), Some(value), Some(len)) => {
            fits_key_type(key_type, value.len()) && len == value.len() as u64
        }
        (Some(_), Some(_), None) | (Some(_), None, _) | (None, _, _) => false,
    }
}

fn has_key_value_in(entries: &[Entry]) -> bool
    ensures { result ≡ has_key_value entries.now }
{
    key_value_fits(
        key_type_in(entries),
        attribute_in(entries, AttrType::Value),
        number_in(attribute_in(entries, AttrType::ValueLen)),
    )
}

/// Whether the entries are all the attributes of an object.
pub(crate) fn is_object_in(entries: &[Entry]) -> bool
    ensures { result ≡ is_object entries.now }
{
    match class_in(entries) {
        None => false,
        Some(ObjectClass::Data) => fits_class(ObjectClass::Data, entries),
        Some(ObjectClass::SecretKey) => {
            fits_class(ObjectClass::SecretKey, entries) && has_key_value_in(entries)
        }
    }
}
