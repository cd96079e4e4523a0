//! Objects of given attributes.

use attrs::{AttributeRow, Form, Object, attributes};
use ck_types::{AttrType, Bytes, Entry, Items, ObjectClass};
use std::alloc::{AllocError, Global};
use std::test::Fail;

/// An attribute, and its value.
pub(super) type Given<'a> = (AttrType, &'a [u8]);

/// What a row has of which nothing is given: false, the number 0, or no bytes. A key is a generic secret
/// of the byte `v`, and CKA_UNIQUE_ID has 32 bytes.
fn default_value(class: ObjectClass, row: &AttributeRow) -> &'static [u8] {
    match (class, row.attribute, row.form) {
        (ObjectClass::SecretKey, AttrType::Class, _) => &[0, 0, 0, 0, 0, 0, 0, 4],
        (ObjectClass::SecretKey, AttrType::KeyType, _) => &[0, 0, 0, 0, 0, 0, 0, 0x10],
        (ObjectClass::SecretKey, AttrType::Value, _) => b"v",
        (ObjectClass::SecretKey, AttrType::ValueLen, _) => &[0, 0, 0, 0, 0, 0, 0, 1],
        (_, AttrType::UniqueId, _) => b"00000000000000000000000000000000",
        (_, _, Form::Truth) => &[0],
        (_, _, Form::Number) => &[0; 8],
        (_, _, Form::Bytes) => &[],
    }
}

/// The first value that is given for an attribute.
fn given_value<'a>(given: &[Given<'a>], attribute: AttrType) -> Option<&'a [u8]> {
    for (of, value) in given {
        if *of == attribute {
            return Some(value);
        }
    }
    None
}

/// The attributes that an object of the class has.
pub(super) fn entries_of(
    alloc: Global,
    class: ObjectClass,
    given: &[Given],
) -> Result<Items<Entry>, AllocError> {
    let mut entries = Items::new(alloc);
    for row in attributes() {
        if row.is_held_by(class) {
            let found = given_value(given, row.attribute);
            let value = Bytes::from_slice(alloc, found.unwrap_or(default_value(class, row)))?;
            let number = row.attribute.number();
            entries.push(Entry {
                attr_type: number,
                value,
            })?;
        }
    }
    Ok(entries)
}

/// An object of the class.
pub(super) fn object_of(
    alloc: Global,
    class: ObjectClass,
    given: &[Given],
) -> Result<Object, Fail> {
    Ok(Object::from_entries(alloc, entries_of(alloc, class, given)?)?.ok_or("an object")?)
}
