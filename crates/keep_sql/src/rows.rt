//! What rows contain.

ghost use Rattle.std.specs.Prelude.{◌≡◌, ◌≢◌, ℕ, false, List, Some, pos, All, [], ◌∷◌, map, IfOk, OnOk, IfSome, IsSome, IsErrOf};
ghost use Rattle.sqlite_value.specs.declared.value.Value.TheVariants.{Int};
ghost use Rattle.sqlite_value.specs.Order.{column};
ghost use Rattle.ck_types.specs.declared.entry.Entry.{Entry as AnEntry};
ghost use Rattle.attrs.specs.Objects.{IsObject};
ghost use Rattle.attrs.specs.declared.fault.DecodeFault.TheVariants.{Form};
ghost use Rattle.pin_record.specs.Records.{TokenRecord};
ghost use Rattle.keep.specs.Contents.{Contents, IsTokenObject, object_at};
ghost use Rattle.keep.specs.declared.keep.KeepFault.TheVariants.{Damaged};
ghost use Rattle.keep_sql_model.specs.Store.{RowShows, encoded};
ghost use Rattle.attrs.specs.OldStored.{has_new_flags};
ghost use Rattle.keep_sql_model.specs.Formats.{IsRecordBody, is_old as is_old_in, old_encoded};
ghost use Rattle.keep_sql_model.specs.Rows.{ShowRecordEither, ShowsEither, first_number};
ghost use Rattle.keep_sql_model.specs.Renewals.{FindsRecord, IsCovered, IsNewBody, IsOfRow, IsRenewedAs, IsStoredAs, RenewsIf};

use attrs::{DecodeFault, Object};
use ck_types::AttrType;
use keep::KeepFault;
use pin_record::Record;
use sql_tables::Renewal;
use sqlite::Row;
use sqlite::types::ValueRef;
use std::alloc::Global;

/// The token object whose body this is. `Form` where it is the body of none.
pub(crate) fn decode_object(alloc: Global, body: &[u8]) -> Result<Object, DecodeFault>
    ensures ok { IfOk result (λ o. IsObject o × IsTokenObject o × (body.now ≡ encoded o)) }
    ensures found { (o : List AnEntry) → IsObject o → body.now ≡ encoded o → IfOk result (λ x. x ≡ o) }
    ensures form { (o : List AnEntry) → IsObject o → IsTokenObject o → body.now ≡ encoded o → IsErrOf result Form → ⊥ }
{
    match attrs::decode(alloc, body) {
        Ok(object) => {
            if object.flag(AttrType::Token) {
                Ok(object)
            } else {
                Err(DecodeFault::Form)
            }
        }
        Err(fault) => Err(fault),
    }
}

/// Once a store is open, a body that doesn't decode is a failure of the device.
fn read_fault(fault: DecodeFault) -> KeepFault
    ensures { result ≢ Damaged }
{
    match fault {
        DecodeFault::Memory => KeepFault::Memory,
        DecodeFault::Form => KeepFault::Device,
    }
}

/// The object of a row of one body.
pub(crate) fn stored_object(alloc: Global, row: &Row) -> Result<Object, KeepFault>
    ensures found { (c : Contents) (id : ℕ) → RowShows c id row.now → IfOk result (λ x. object_at c id ≡ Some x) }
    ensures token { IfOk result IsTokenObject }
    ensures open { IsErrOf result Damaged → ⊥ }
{
    match row.get_ref(0) {
        Ok(ValueRef::Blob(body)) => match decode_object(alloc, body) {
            Ok(object) => Ok(object),
            Err(fault) => Err(read_fault(fault)),
        },
        _ => Err(KeepFault::Device),
    }
}

/// The id in the first column.
fn id_of(row: &Row) -> Option<u64>
    ensures value { IfSome result (λ id. column row.now 0 ≡ Int (pos id)) }
    ensures number { IfSome result (λ id. id ≡ first_number row.now) }
    ensures found { (id : ℕ) → column row.now 0 ≡ Int (pos id) → IsSome result }
{
    match row.get_ref(0) {
        Ok(ValueRef::Int(id)) if id >= 0 => Some(id as u64),
        _ => None,
    }
}

/// The ids of rows, one in each.
pub(crate) fn ids_of(alloc: Global, rows: &[Row]) -> Result<Vec<u64>, KeepFault>
    ensures ids { (ids : List ℕ) → rows.now ≡ map (λ id. Int (pos id) ∷ []) ids → IfOk result (λ out. out.items ≡ ids) }
    ensures open { IsErrOf result Damaged → ⊥ }
{
    let mut ids = Vec::new(alloc);
    for row in rows {
        match id_of(row) {
            Some(id) => ids.push(id)?,
            None => return Err(KeepFault::Device),
        }
    }
    Ok(ids)
}

/// As a store is opened, a body that doesn't decode is damage.
fn opening_fault(fault: DecodeFault) -> KeepFault
    ensures { result ≡ Damaged → fault ≡ Form }
{
    match fault {
        DecodeFault::Memory => KeepFault::Memory,
        DecodeFault::Form => KeepFault::Damaged,
    }
}

/// Whether a body has format 1.
fn is_old(body: &[u8]) -> bool
    ensures { result ≡ is_old_in body.now }
{
    match body {
        [first, ..] => *first == 1,
        [] => false,
    }
}

/// The token object whose body in format 1 this is. `Form` where it is the body of none.
fn decode_old_object(alloc: Global, body: &[u8]) -> Result<Object, DecodeFault>
    ensures ok { IfOk result (λ o. IsObject o × IsTokenObject o × (has_new_flags o ≡ false) × (body.now ≡ old_encoded o)) }
    ensures form { (o : List AnEntry) → IsObject o → IsTokenObject o → has_new_flags o ≡ false → body.now ≡ old_encoded o → IsErrOf result Form → ⊥ }
{
    match attrs::decode_old(alloc, body) {
        Ok(object) => {
            if object.flag(AttrType::Token) {
                Ok(object)
            } else {
                Err(DecodeFault::Form)
            }
        }
        Err(fault) => Err(fault),
    }
}

/// The body of an object, in format 2.
fn renew_body(alloc: Global, body: &[u8]) -> Result<Vec<u8>, KeepFault>
    ensures ok { IfOk result (λ bytes. IsRenewedAs body.now bytes.items) }
    ensures undamaged { (o : List AnEntry) → IsObject o → IsTokenObject o → has_new_flags o ≡ false → body.now ≡ old_encoded o → IsErrOf result Damaged → ⊥ }
{
    match decode_old_object(alloc, body) {
        Ok(object) => Ok(attrs::encode(alloc, &object)?),
        Err(fault) => Err(opening_fault(fault)),
    }
}

/// `Damaged` where this is no body of a token object in format 2.
fn check_new_body(alloc: Global, body: &[u8]) -> Result<(), KeepFault>
    ensures ok { OnOk result ((o : List AnEntry) × (body.now ≡ encoded o) × IsObject o × IsTokenObject o) }
    ensures undamaged { (o : List AnEntry) → IsObject o → IsTokenObject o → body.now ≡ encoded o → IsErrOf result Damaged → ⊥ }
{
    match decode_object(alloc, body) {
        Ok(_) => Ok(()),
        Err(fault) => Err(opening_fault(fault)),
    }
}

/// The body of format 2 for one of format 1. `Damaged` where the second column is no body of a token
/// object in either.
fn check_body(alloc: Global, row: &Row) -> Result<Option<Vec<u8>>, KeepFault>
    ensures ok { IfOk result (IsNewBody row.now) }
    ensures undamaged { ShowsEither row.now → IsErrOf result Damaged → ⊥ }
{
    let Ok(ValueRef::Blob(body)) = row.get_ref(1) else {
        return Err(KeepFault::Damaged);
    };
    if is_old(body) {
        return Ok(Some(renew_body(alloc, body)?));
    }
    check_new_body(alloc, body)?;
    Ok(None)
}

/// The renewal of a row that has format 1. `Damaged` where a row has no id above 0 with the body of a
/// token object.
fn check_row(alloc: Global, row: &Row) -> Result<Option<Renewal>, KeepFault>
    ensures ok { IfOk result (RenewsIf row.now) }
    ensures undamaged { ShowsEither row.now → IsErrOf result Damaged → ⊥ }
{
    match row.get_ref(0) {
        Ok(ValueRef::Int(id)) if id > 0 => match check_body(alloc, row)? {
            Some(body) => Ok(Some(Renewal { id, body })),
            None => Ok(None),
        },
        _ => Err(KeepFault::Damaged),
    }
}

/// The renewals of all rows that have format 1.
pub(crate) fn check_rows(alloc: Global, rows: &[Row]) -> Result<Vec<Renewal>, KeepFault>
    ensures covered { IfOk result (λ es. All (IsCovered es.items) rows.now) }
    ensures own { IfOk result (λ es. All (IsOfRow rows.now) es.items) }
    ensures undamaged { All ShowsEither rows.now → IsErrOf result Damaged → ⊥ }
{
    let mut renewals = Vec::new(alloc);
    for row in rows {
        match check_row(alloc, row)? {
            Some(renewal) => renewals.push(renewal)?,
            None => {}
        }
    }
    Ok(renewals)
}

/// The record with a body, and whether that has format 1.
fn decode_record(body: &[u8]) -> Result<(Record, bool), KeepFault>
    ensures ok { IfOk result (λ r. IsStoredAs body.now r.0 r.1) }
    ensures undamaged { (r : TokenRecord) → IsRecordBody body.now r → IsErrOf result Damaged → ⊥ }
{
    if is_old(body) {
        match pin_record::decode_old(body) {
            Ok(record) => Ok((record, true)),
            Err(_) => Err(KeepFault::Damaged),
        }
    } else {
        match pin_record::decode(body) {
            Ok(record) => Ok((record, false)),
            Err(_) => Err(KeepFault::Damaged),
        }
    }
}

/// The record, where it is the body of the only row, and whether that has format 1. Else `Damaged`.
pub(crate) fn only_record(rows: &[Row]) -> Result<(Record, bool), KeepFault>
    ensures ok { IfOk result (λ r. FindsRecord rows.now r.0 r.1) }
    ensures undamaged { (r : TokenRecord) → ShowRecordEither rows.now r → IsErrOf result Damaged → ⊥ }
{
    let [row] = rows else {
        return Err(KeepFault::Damaged);
    };
    match row.get_ref(0) {
        Ok(ValueRef::Blob(body)) => decode_record(body),
        _ => Err(KeepFault::Damaged),
    }
}
