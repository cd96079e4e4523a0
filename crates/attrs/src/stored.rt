//! The stored form of an object.

ghost use Rattle.std.specs.Prelude.{◌≡◌, ◌++◌, ◌<◌, ◌^◌, IfOk, OnOk, Some, List, length};
ghost use Rattle.ck_types.specs.declared.entry.Entry.{Entry as AnEntry};
ghost use Rattle.ck_types.specs.Format.{decode_many, whole};
ghost use Rattle.ck_types.specs.Coding.{Decodes as DecodesFormat};
ghost use Rattle.attrs.specs.Objects.{IsObject};
ghost use Rattle.attrs.specs.Stored.{stored_form, object_stored, stored_entry, stored_entries, DecodesObject};

use crate::fault::DecodeFault;
use crate::object::Object;
use byteorder::{BigEndian, ByteOrder};
use ck_types::{Bytes, Codec, CodecFault, Entry, Items, decode_u32, split_first};
use std::alloc::{AllocError, Global};

/// The format of the stored form, its first byte.
const FORMAT: u8 = 2;

fn decode_entry(alloc: Global, bytes: &[u8]) -> Result<(Entry, &[u8]), CodecFault>
    ensures { DecodesFormat (λ x. (x.0, x.1.now)) result (stored_entry.decode bytes.now) }
{
    let (number, rest) = decode_u32(bytes)?;
    let (value, rest) = Bytes::decode(alloc, rest)?;
    let entry = Entry {
        attr_type: u64::from(number),
        value,
    };
    Ok((entry, rest))
}

fn decode_entries(
    alloc: Global,
    count: u16,
    bytes: &[u8],
) -> Result<(Vec<Entry>, &[u8]), CodecFault>
    ensures { DecodesFormat (λ x. (x.0.items, x.1.now)) result (decode_many stored_entry count bytes.now) }
{
    let mut entries = Vec::new(alloc);
    let mut rest = bytes;
    for _ in 0..count {
        let (entry, after) = decode_entry(alloc, rest)?;
        entries.push(entry)?;
        rest = after;
    }
    Ok((entries, rest))
}

pub(crate) fn decode_all(alloc: Global, bytes: &[u8]) -> Result<Vec<Entry>, CodecFault>
    ensures { DecodesFormat (λ x. x.items) result (whole stored_entries bytes.now) }
{
    let (front, rest) = split_first(bytes, 2)?;
    let count = BigEndian::read_u16(front);
    let (entries, rest) = decode_entries(alloc, count, rest)?;
    if !rest.is_empty() {
        return Err(CodecFault::Malformed);
    }
    Ok(entries)
}

#[tactic(auto, unfolding(crate::specs::Stored::object_stored))]
fn decoded(alloc: Global, bytes: &[u8]) -> Result<Object, DecodeFault>
    ensures { DecodesObject result (object_stored bytes.now) }
{
    let [FORMAT, bytes @ ..] = bytes else {
        return Err(DecodeFault::Form);
    };
    match decode_all(alloc, bytes) {
        Err(CodecFault::Memory) => Err(DecodeFault::Memory),
        Err(CodecFault::Malformed) => Err(DecodeFault::Form),
        Ok(entries) => match Object::from_entries(alloc, Items::from_vec(entries)) {
            Err(_) => Err(DecodeFault::Memory),
            Ok(Some(object)) => Ok(object),
            Ok(None) => Err(DecodeFault::Form),
        },
    }
}

/// The object with a stored form. `Form` where the bytes are no object's stored form, `Memory` where
/// memory for the object ran out.
pub fn decode(alloc: Global, bytes: &[u8]) -> Result<Object, DecodeFault>
    ensures found { IfOk result (λ object. bytes.now ≡ stored_form object) }
    ensures only { (object : List AnEntry) → IsObject object → bytes.now ≡ stored_form object → DecodesObject result (Some object) }
    ensures exact { DecodesObject result (object_stored bytes.now) }
{
    decoded(alloc, bytes)
}

fn encode_entry(out: &mut Vec<u8>, entry: &Entry) -> Result<(), AllocError>
    requires number { entry.now.attr_type < 2 ^ 32 }
    requires value { length entry.now.value < 2 ^ 32 }
    ensures { OnOk result (out.new.items ≡ out.old.items ++ stored_entry.encode entry.now) }
{
    out.extend_from_slice(&(entry.attr_type as u32).to_be_bytes())?;
    out.extend_from_slice(&(entry.value.len() as u32).to_be_bytes())?;
    out.extend_from_slice(entry.value.as_slice())?;
    Ok(())
}

/// The stored form of an object.
pub fn encode(alloc: Global, object: &Object) -> Result<Vec<u8>, AllocError>
    ensures { IfOk result (λ bytes. bytes.items ≡ stored_form object.now) }
{
    let entries = object.entries();
    let mut out = Vec::new(alloc);
    out.push(FORMAT)?;
    out.extend_from_slice(&(entries.len() as u16).to_be_bytes())?;
    for entry in entries {
        encode_entry(&mut out, entry)?;
    }
    Ok(out)
}

/// The length of the stored form, in bytes. It takes no memory.
pub fn size(object: &Object) -> usize
    ensures { result ≡ length (stored_form object.now) }
{
    let mut total = 3;
    for entry in object.entries() {
        total += 8 + entry.value.len();
    }
    total
}
