//! The stored forms of older tokens.

use super::given::object_of;
use attrs::{Object, decode, decode_old, encode};
use ck_types::{AttrType, Label, ObjectClass, UserType};
use pin_record::{Record, Verifier};
use std::alloc::{AllocError, Global};
use std::process::Abort;
use std::test::Fail;

fn is_new(number: u64) -> bool {
    number == AttrType::Trusted.number() || number == AttrType::WrapWithTrusted.number()
}

/// What an older token stored of the object, with so many attributes.
fn old_object(alloc: Global, object: &Object, count: u8) -> Result<Vec<u8>, Fail> {
    let mut bytes = Vec::from_slice(alloc, &[1, 0, count])?;
    for entry in object.entries() {
        if !is_new(entry.attr_type) {
            let number = u32::try_from(entry.attr_type)?;
            let len = u32::try_from(entry.value.len())?;
            bytes.extend_from_slice(&number.to_be_bytes())?;
            bytes.extend_from_slice(&len.to_be_bytes())?;
            bytes.extend_from_slice(entry.value.as_slice())?;
        }
    }
    Ok(bytes)
}

fn aes_key(alloc: Global) -> Result<Object, Fail> {
    const LEN_16: [u8; 8] = [0, 0, 0, 0, 0, 0, 0, 16];
    const AES: [u8; 8] = [0, 0, 0, 0, 0, 0, 0, 0x1f];
    let given: [(AttrType, &[u8]); 3] = [
        (AttrType::KeyType, &AES),
        (AttrType::Value, &[7; 16]),
        (AttrType::ValueLen, &LEN_16),
    ];
    object_of(alloc, ObjectClass::SecretKey, &given)
}

/// Sees that the old bytes are read as the object, and in no other form; and that no part of them is read, nor they with a
/// byte more.
fn expect_old(rt: &impl Abort, alloc: Global, object: &Object, old: &[u8]) -> Result<(), Fail> {
    let is_read = is_read_so(alloc, object, old)?;
    assert!(rt; is_read);
    for len in 0..old.len() {
        let front = old.get(..len).unwrap_or(&[]);
        assert!(rt; decode_old(alloc, front).is_err(), "{len} bytes");
    }
    let mut longer = Vec::from_slice(alloc, old)?;
    longer.push(0)?;
    assert!(rt; decode_old(alloc, &longer).is_err());
    Ok(())
}

/// Whether the old bytes are read as the object, and in no other form.
fn is_read_so(alloc: Global, object: &Object, old: &[u8]) -> Result<bool, Fail> {
    let read = decode_old(alloc, old)?;
    Ok(read.entries() == object.entries() && decode(alloc, old).is_err())
}

#[test]
fn an_older_object_is_read_in_its_form_alone(rt: HostRuntime) -> Result<(), Fail> {
    let key = aes_key(rt.alloc())?;
    let old = old_object(rt.alloc(), &key, 24)?;
    assert_eq!(rt; old.len(), 291);
    expect_old(&rt, rt.alloc(), &key, &old)?;
    let data = object_of(rt.alloc(), ObjectClass::Data, &[])?;
    let old = old_object(rt.alloc(), &data, 10)?;
    expect_old(&rt, rt.alloc(), &data, &old)
}

/// Whether the stored form of an object would be read as an older one, if its first byte were another.
fn is_read_as_older(alloc: Global, object: &Object) -> Result<bool, Fail> {
    let mut stored = encode(alloc, object)?;
    if decode_old(alloc, &stored).is_ok() {
        return Ok(true);
    }
    if let Some(first) = stored.first_mut() {
        *first = 1;
    }
    Ok(decode_old(alloc, &stored).is_ok())
}

#[test]
fn an_older_key_has_none_of_the_newer_attributes(rt: HostRuntime) -> Result<(), Fail> {
    let is_read = is_read_as_older(rt.alloc(), &aes_key(rt.alloc())?)?;
    assert!(rt; !is_read);
    Ok(())
}

const LABEL: &[u8; 32] = b"a label of thirty-two characters";

/// A record with one PIN as an older token stored it, and the rounds of its verifier.
fn old_record(alloc: Global, tries: u8) -> Result<Vec<u8>, AllocError> {
    let mut bytes = Vec::from_slice(alloc, &[1, 1])?;
    bytes.extend_from_slice(LABEL)?;
    bytes.push(1)?;
    bytes.extend_from_slice(&[0xa5; 16])?;
    bytes.extend_from_slice(&[0x5a; 32])?;
    bytes.push(tries)?;
    bytes.extend_from_slice(&[0, 0])?;
    Ok(bytes)
}

/// The rounds, the salt and the key of the SO's verifier, and the label.
fn told(record: &Record) -> Option<(u32, [u8; 16], [u8; 32], Label)> {
    let verifier: &Verifier = record.verifier(UserType::So)?;
    Some((
        verifier.rounds(),
        *verifier.salt(),
        *verifier.key(),
        *record.label(),
    ))
}

#[test]
fn an_older_record_has_verifiers_of_10000_rounds(rt: HostRuntime) -> Result<(), Fail> {
    let old = old_record(rt.alloc(), 3)?;
    let read = pin_record::decode_old(&old)?;
    let label = Label::from_slice(LABEL).ok_or("a label has 32 bytes")?;
    let wanted = (10_000, [0xa5; 16], [0x5a; 32], label);
    assert!(rt; told(&read) == Some(wanted));
    assert!(rt; pin_record::decode(&old).is_err());
    assert!(rt; pin_record::decode_old(&pin_record::encode(rt.alloc(), &read)?).is_err());
    Ok(())
}

#[test]
fn an_older_record_is_read_whole(rt: HostRuntime) -> Result<(), Fail> {
    let old = old_record(rt.alloc(), 10)?;
    for len in 0..old.len() {
        let front = old.get(..len).unwrap_or(&[]);
        assert!(rt; pin_record::decode_old(front).is_err(), "{len} bytes");
    }
    let locked = old_record(rt.alloc(), 11)?;
    assert!(rt; pin_record::decode_old(&locked).is_err());
    Ok(())
}
