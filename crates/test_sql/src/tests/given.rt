//! Objects, records and what a keeper has.

ghost use Rattle.std.specs.Prelude.{IfOk};
ghost use Rattle.keep.specs.Contents.{IsTokenObject};

use attrs::{AttributeRow, Form, Object, attributes};
use ck_types::{AttrType, Bytes, Entry, Items, Label, ObjectClass};
use keep::{Keep, KeepFault};
use pin_record::{Record, Verifier};
use std::alloc::{AllocError, Global};
use std::test::Fail;

/// The value of another attribute than CKA_VALUE.
fn value_of(row: &AttributeRow, is_token: bool) -> &'static [u8] {
    match (row.attribute, row.form) {
        (AttrType::Token, _) => { if is_token { &[1] } else { &[0] } }
        (AttrType::UniqueId, _) => b"00000000000000000000000000000000",
        (_, Form::Truth) => &[0],
        (_, Form::Number) => &[0; 8],
        (_, Form::Bytes) => &[],
    }
}

fn entries_of(alloc: Global, is_token: bool, byte: u8) -> Result<Items<Entry>, AllocError> {
    let mut entries = Items::new(alloc);
    for row in attributes() {
        if row.is_held_by(ObjectClass::Data) {
            let value = if row.attribute == AttrType::Value {
                Bytes::from_slice(alloc, &[byte])?
            } else {
                Bytes::from_slice(alloc, value_of(row, is_token))?
            };
            let number = row.attribute.number();
            entries.push(Entry {
                attr_type: number,
                value,
            })?;
        }
    }
    Ok(entries)
}

/// A data object with a value of one byte, of the token or of a session. `Memory` stands for none too.
pub(super) fn data_object(alloc: Global, is_token: bool, byte: u8) -> Result<Object, KeepFault> {
    Object::from_entries(alloc, entries_of(alloc, is_token, byte)?)?.ok_or(KeepFault::Memory)
}

/// A token object with a value of one byte.
fn token_object(alloc: Global, byte: u8) -> Result<Object, KeepFault>
    ensures { IfOk result IsTokenObject }
{
    let object = data_object(alloc, true, byte)?;
    if object.flag(AttrType::Token) {
        Ok(object)
    } else {
        Err(KeepFault::Memory)
    }
}

/// The record of a token with this byte in its label and as the SO's PIN.
pub(super) fn initialized(byte: u8) -> Record {
    let label = match Label::from_slice(&[byte; 32]) {
        Some(label) => label,
        None => Label::BLANK,
    };
    Record::initialized(label, Verifier::made(&[byte], [byte; 16]), 0)
}

/// A change of a keeper.
#[derive(Clone, Copy, Debug)]
pub(super) enum Change {
    Insert(u8),
    Replace(u64, u8),
    Remove(u64),
    SetRecord(u8),
    Reset(u8),
}

/// Makes the change.
pub(super) fn make<K: Keep>(alloc: Global, keep: &mut K, change: Change) -> Result<(), KeepFault> {
    match change {
        Change::Insert(byte) => {
            let object = token_object(alloc, byte)?;
            keep.insert(&object)?;
            Ok(())
        }
        Change::Replace(id, byte) => {
            let object = token_object(alloc, byte)?;
            keep.replace(id, &object)
        }
        Change::Remove(id) => keep.remove(id),
        Change::SetRecord(byte) => keep.set_record(initialized(byte)),
        Change::Reset(byte) => keep.reset(initialized(byte)),
    }
}

/// The id and the value of each object, in order, and the record.
pub(super) fn seen<K: Keep>(alloc: Global, keep: &mut K) -> Result<(Vec<(u64, u8)>, Record), Fail> {
    let mut rows = Vec::new(alloc);
    for id in keep.ids(alloc)? {
        let object = keep.object(alloc, id)?;
        match object.value() {
            [byte] => rows.push((id, *byte))?,
            _ => return Err("a value of one byte".into()),
        }
    }
    Ok((rows, keep.get_record()))
}

/// Whether two keepers have the same.
pub(super) fn are_same<A: Keep, B: Keep>(
    alloc: Global,
    a: &mut A,
    b: &mut B,
) -> Result<bool, Fail> {
    let (rows, record) = seen(alloc, a)?;
    let (others, other) = seen(alloc, b)?;
    Ok(rows.as_slice() == others.as_slice() && record == other)
}
