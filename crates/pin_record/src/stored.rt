//! The stored form of a record.

ghost use Rattle.std.specs.Prelude.{◌≡◌, ◌++◌, IfOk, OnOk, Some};
ghost use Rattle.ck_types.specs.Format.{first_bytes, optional};
ghost use Rattle.pin_record.specs.declared.record.Record.{Record as ARecord};
ghost use Rattle.pin_record.specs.declared.version.Version.TheVariants.{Two};
ghost use Rattle.pin_record.specs.Stored.{IsOldRecord, IsRecord, DecodesRecord, ReadsField, byte, flag_byte, old_record_form, old_verifier_form, pin_form, record_form, record_old_stored, record_stored, record_stored_in, stored_record_form, verifier_form, verifier_form_in};

use crate::fault::DecodeFault;
use crate::pin::{Pin, TRIES_LIMIT};
use crate::record::Record;
use crate::verifier::{OLD_ROUNDS, Verifier};
use crate::version::Version;
use ck_types::{Label, UserType};
use std::alloc::{AllocError, Global};

fn decode_byte(bytes: &[u8]) -> Option<(u8, &[u8])>
    ensures { ReadsField (λ x. (x.0, x.1.now)) result (byte.decode bytes.now) }
{
    match bytes {
        [] => None,
        [first, rest @ ..] => Some((*first, rest)),
    }
}

/// The first `N` bytes, and those after them.
fn split_array<const N: usize>(bytes: &[u8]) -> Option<([u8; N], &[u8])>
    ensures { ReadsField (λ x. (x.0, x.1.now)) result (first_bytes N bytes.now) }
{
    if bytes.len() < N {
        return None;
    }
    let (front, rest) = bytes.split_at(N);
    let mut array = [0; N];
    array.copy_from_slice(front);
    Some((array, rest))
}

fn decode_verifier(bytes: &[u8]) -> Option<(Verifier, &[u8])>
    ensures { ReadsField (λ x. (x.0, x.1.now)) result (verifier_form.decode bytes.now) }
{
    let (salt, rest) = split_array::<16>(bytes)?;
    let (rounds, rest) = split_array::<4>(rest)?;
    let (key, rest) = split_array::<32>(rest)?;
    let verifier = Verifier::from_parts(salt, u32::from_be_bytes(rounds), key)?;
    Some((verifier, rest))
}

fn decode_old_verifier(bytes: &[u8]) -> Option<(Verifier, &[u8])>
    ensures { ReadsField (λ x. (x.0, x.1.now)) result (old_verifier_form.decode bytes.now) }
{
    let (salt, rest) = split_array::<16>(bytes)?;
    let (key, rest) = split_array::<32>(rest)?;
    let verifier = Verifier::from_parts(salt, OLD_ROUNDS, key)?;
    Some((verifier, rest))
}

fn decode_verifier_in(version: Version, bytes: &[u8]) -> Option<(Verifier, &[u8])>
    ensures { ReadsField (λ x. (x.0, x.1.now)) result ((verifier_form_in version).decode bytes.now) }
{
    match version {
        Version::One => decode_old_verifier(bytes),
        Version::Two => decode_verifier(bytes),
    }
}

fn decode_optional(version: Version, bytes: &[u8]) -> Option<(Option<Verifier>, &[u8])>
    ensures { ReadsField (λ x. (x.0, x.1.now)) result ((optional (verifier_form_in version)).decode bytes.now) }
{
    match bytes {
        [0, rest @ ..] => Some((None, rest)),
        [1, rest @ ..] => {
            // `?` isn't proved at a pair of a value with a model and a borrow.
            let Some((verifier, rest)) = decode_verifier_in(version, rest) else {
                return None;
            };
            Some((Some(verifier), rest))
        }
        [] | [_, ..] => None,
    }
}

fn decode_pin(version: Version, bytes: &[u8]) -> Option<(Pin, &[u8])>
    ensures { ReadsField (λ x. (x.0, x.1.now)) result ((pin_form version).decode bytes.now) }
{
    let Some((verifier, rest)) = decode_optional(version, bytes) else {
        return None;
    };
    let (tries, rest) = decode_byte(rest)?;
    if tries > TRIES_LIMIT {
        return None;
    }
    let pin = Pin::from_parts(verifier, tries)?;
    Some((pin, rest))
}

fn decode_record(version: Version, bytes: &[u8]) -> Option<(Record, &[u8])>
    ensures { ReadsField (λ x. (x.0, x.1.now)) result ((record_form version).decode bytes.now) }
{
    let (number, rest) = decode_byte(bytes)?;
    if number != version.number() {
        return None;
    }
    let (initialized, rest) = decode_byte(rest)?;
    let (label, rest) = split_array::<32>(rest)?;
    let Some((so, rest)) = decode_pin(version, rest) else {
        return None;
    };
    let Some((user, rest)) = decode_pin(version, rest) else {
        return None;
    };
    if initialized != flag_byte(so.verifier().is_some()) {
        return None;
    }
    let label = Label::from_slice(&label)?;
    let record = Record::from_parts(label, so, user)?;
    Some((record, rest))
}

fn flag_byte(initialized: bool) -> u8
    ensures { result ≡ flag_byte initialized }
{
    if initialized { 1 } else { 0 }
}

#[tactic(auto, unfolding(crate::specs::Stored::record_stored_in))]
fn decoded(version: Version, bytes: &[u8]) -> Result<Record, DecodeFault>
    ensures { DecodesRecord result (record_stored_in version bytes.now) }
{
    match decode_record(version, bytes) {
        Some((record, [])) => Ok(record),
        Some(_) | None => Err(DecodeFault::Form),
    }
}

/// The record with a stored form. `Form` where the bytes are no record's stored form. No memory is
/// taken.
pub fn decode(bytes: &[u8]) -> Result<Record, DecodeFault>
    ensures found { IfOk result (λ r. IsRecord r × (bytes.now ≡ stored_record_form r)) }
    ensures only { (r : ARecord) → IsRecord r → bytes.now ≡ stored_record_form r → DecodesRecord result (Some r) }
    ensures exact { DecodesRecord result (record_stored bytes.now) }
{
    decoded(Version::Two, bytes)
}

/// The record that an older token stored so, with a verifier's rounds `OLD_ROUNDS`. `Form` where the bytes are no record's
/// stored form of format 1. No memory is taken.
pub fn decode_old(bytes: &[u8]) -> Result<Record, DecodeFault>
    ensures found { IfOk result (λ r. IsOldRecord r × (bytes.now ≡ old_record_form r)) }
    ensures only { (r : ARecord) → IsOldRecord r → bytes.now ≡ old_record_form r → DecodesRecord result (Some r) }
    ensures exact { DecodesRecord result (record_old_stored bytes.now) }
{
    decoded(Version::One, bytes)
}

fn encode_verifier(verifier: &Verifier, out: &mut Vec<u8>) -> Result<(), AllocError>
    ensures bytes { OnOk result (out.new.items ≡ out.old.items ++ verifier_form.encode verifier.now) }
    ensures fits { OnOk result (verifier_form.Fits verifier.now) }
{
    out.extend_from_slice(verifier.salt())?;
    out.extend_from_slice(&verifier.rounds().to_be_bytes())?;
    out.extend_from_slice(verifier.key())?;
    Ok(())
}

fn encode_pin(pin: &Pin, out: &mut Vec<u8>) -> Result<(), AllocError>
    ensures bytes { OnOk result (out.new.items ≡ out.old.items ++ (pin_form Two).encode pin.now) }
    ensures fits { OnOk result ((pin_form Two).Fits pin.now) }
{
    match pin.verifier() {
        None => out.push(0)?,
        Some(verifier) => {
            out.push(1)?;
            encode_verifier(verifier, out)?;
        }
    }
    out.push(pin.tries())?;
    Ok(())
}

/// The stored form of a record: 38 bytes for a new store, 142 where both PINs are set.
pub fn encode(alloc: Global, record: &Record) -> Result<Vec<u8>, AllocError>
    ensures bytes { IfOk result (λ bytes. bytes.items ≡ stored_record_form «record».now) }
    ensures fits { OnOk result (IsRecord «record».now) }
{
    let mut out = Vec::new(alloc);
    out.push(Version::Two.number())?;
    out.push(flag_byte(record.is_initialized()))?;
    out.extend_from_slice(record.label().as_slice())?;
    encode_pin(record.pin(UserType::So), &mut out)?;
    encode_pin(record.pin(UserType::User), &mut out)?;
    Ok(out)
}
