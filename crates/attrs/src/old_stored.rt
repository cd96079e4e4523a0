//! The stored form of an object in format 1, which older stores have.

ghost use Rattle.std.specs.Prelude.{◌≡◌, ◌≤◌, IfOk, Some, List, false, insert, length};
ghost use Rattle.ck_types.specs.declared.entry.Entry.{Entry as AnEntry};
ghost use Rattle.attrs.specs.Objects.{IsObject};
ghost use Rattle.attrs.specs.Stored.{DecodesObject};
ghost use Rattle.attrs.specs.OldStored.{false_of, has_new_flags, object_old_stored, old_form, index_in, placed, renewed_entries};

use crate::check::class_in;
use crate::fault::DecodeFault;
use crate::object::Object;
use crate::stored::decode_all;
use ck_types::{AttrType, Bytes, CodecFault, Entry, Items, ObjectClass};
use std::alloc::{AllocError, Global};

/// The format of the old stored form, its first byte.
const FORMAT: u8 = 1;

/// Where an attribute with this number stands.
fn index_of(entries: &[Entry], number: u64) -> usize
    ensures index { result ≡ index_in entries.now number }
    ensures within { result ≤ length entries.now }
{
    match entries {
        [] => 0,
        [entry, rest @ ..] => {
            if number < entry.attr_type {
                0
            } else {
                1 + index_of(rest, number)
            }
        }
    }
}

fn with_false(
    alloc: Global,
    mut entries: Vec<Entry>,
    attribute: AttrType,
) -> Result<Vec<Entry>, AllocError>
    ensures { IfOk result (λ more. more.items ≡ placed (false_of attribute) entries.items) }
{
    let number = attribute.number();
    let value = Bytes::from_slice(alloc, &[0])?;
    let index = index_of(entries.as_slice(), number);
    entries.insert(
        index,
        Entry {
            attr_type: number,
            value,
        },
    )?;
    Ok(entries)
}

/// The attributes, and those of a key which format 1 hasn't.
fn renewed(alloc: Global, entries: Vec<Entry>) -> Result<Vec<Entry>, AllocError>
    ensures { IfOk result (λ more. more.items ≡ renewed_entries entries.items) }
{
    match class_in(entries.as_slice()) {
        None | Some(ObjectClass::Data) => Ok(entries),
        Some(ObjectClass::SecretKey) => {
            let entries = with_false(alloc, entries, AttrType::Trusted)?;
            with_false(alloc, entries, AttrType::WrapWithTrusted)
        }
    }
}

#[tactic(auto, unfolding(crate::specs::OldStored::object_old_stored))]
fn decoded(alloc: Global, bytes: &[u8]) -> Result<Object, DecodeFault>
    ensures { DecodesObject result (object_old_stored bytes.now) }
{
    let [FORMAT, bytes @ ..] = bytes else {
        return Err(DecodeFault::Form);
    };
    match decode_all(alloc, bytes) {
        Err(CodecFault::Memory) => Err(DecodeFault::Memory),
        Err(CodecFault::Malformed) => Err(DecodeFault::Form),
        Ok(entries) => match renewed(alloc, entries) {
            Err(_) => Err(DecodeFault::Memory),
            Ok(entries) => match Object::from_entries(alloc, Items::from_vec(entries)) {
                Err(_) => Err(DecodeFault::Memory),
                Ok(Some(object)) => Ok(object),
                Ok(None) => Err(DecodeFault::Form),
            },
        },
    }
}

/// The object with a stored form of format 1, in which a key's CKA_TRUSTED and CKA_WRAP_WITH_TRUSTED are false. `Form` where
/// the bytes are no object's stored form of format 1, `Memory` where memory for the object ran out.
pub fn decode_old(alloc: Global, bytes: &[u8]) -> Result<Object, DecodeFault>
    ensures found { IfOk result (λ object. (bytes.now ≡ old_form object) × (has_new_flags object ≡ false)) }
    ensures only { (object : List AnEntry) → IsObject object → has_new_flags object ≡ false → bytes.now ≡ old_form object → DecodesObject result (Some object) }
    ensures exact { DecodesObject result (object_old_stored bytes.now) }
{
    decoded(alloc, bytes)
}
