use super::given::{entries_of, object_of};
use attrs::*;
use ck_types::{AttrType, Entry, Items, KeyType, ObjectClass};
use std::alloc::{AllocError, Global};
use std::process::Abort;
use std::test::Fail;

const GENERIC: [u8; 8] = [0, 0, 0, 0, 0, 0, 0, 0x10];

const AES: [u8; 8] = [0, 0, 0, 0, 0, 0, 0, 0x1f];

const LEN_16: [u8; 8] = [0, 0, 0, 0, 0, 0, 0, 16];

const LEN_5: [u8; 8] = [0, 0, 0, 0, 0, 0, 0, 5];

/// The attributes of a key, but for its type, value and length all by default.
fn key_entries(
    alloc: Global,
    key_type: &[u8],
    value: &[u8],
    len: &[u8],
) -> Result<Items<Entry>, AllocError> {
    let given = [
        (AttrType::KeyType, key_type),
        (AttrType::Value, value),
        (AttrType::ValueLen, len),
    ];
    entries_of(alloc, ObjectClass::SecretKey, &given)
}

fn aes_key(alloc: Global) -> Result<Object, Fail> {
    let entries = key_entries(alloc, &AES, &[7; 16], &LEN_16)?;
    Ok(Object::from_entries(alloc, entries)?.ok_or("a key")?)
}

fn data_object(alloc: Global) -> Result<Object, Fail> {
    object_of(alloc, ObjectClass::Data, &[])
}

/// How many attributes the object has, and the length of its stored form as it is returned and as it is.
fn lengths(alloc: Global, object: &Object) -> Result<(usize, usize, usize), Fail> {
    let stored = encode(alloc, object)?.len();
    Ok((object.entries().len(), size(object), stored))
}

#[test]
fn an_aes_key_has_309_bytes_and_a_data_object_128(rt: HostRuntime) -> Result<(), Fail> {
    let key = lengths(rt.alloc(), &aes_key(rt.alloc())?)?;
    let data = lengths(rt.alloc(), &data_object(rt.alloc())?)?;
    assert_eq!(rt; (key, data), ((26, 309, 309), (10, 128, 128)));
    Ok(())
}

/// The class, the key type, the length of the value as the object returns it, and whether it is sensitive.
fn told(object: &Object) -> (ObjectClass, Option<KeyType>, Option<u64>, Option<bool>) {
    let sensitive = object.get(AttrType::Sensitive).is_some();
    (
        object.class(),
        object.key_type(),
        object.number(AttrType::ValueLen),
        sensitive.then_some(object.flag(AttrType::Sensitive)),
    )
}

#[test]
fn a_key_tells_its_attributes(rt: HostRuntime) -> Result<(), Fail> {
    let key = aes_key(rt.alloc())?;
    let wanted = (
        ObjectClass::SecretKey,
        Some(KeyType::Aes),
        Some(16),
        Some(false),
    );
    assert_eq!(rt; told(&key), wanted);
    assert_eq!(rt; key.value(), [7; 16].as_slice());
    Ok(())
}

#[test]
fn a_data_object_tells_its_attributes(rt: HostRuntime) -> Result<(), Fail> {
    let data = data_object(rt.alloc())?;
    assert_eq!(rt; told(&data), (ObjectClass::Data, None, None, None));
    Ok(())
}

/// Whether the stored form is read as it was, and begins by its format and the number of attributes.
fn is_read_again(alloc: Global, key: &Object, stored: &[u8]) -> Result<bool, Fail> {
    let again = decode(alloc, stored)?;
    Ok(stored.starts_with(&[2, 0, 26]) && again.entries() == key.entries())
}

/// Whether the first bytes of a stored form are none.
fn is_cut(alloc: Global, stored: &[u8], len: usize) -> bool {
    matches!(
        decode(alloc, stored.get(..len).unwrap_or(&[])),
        Err(DecodeFault::Form)
    )
}

#[test]
fn what_is_stored_is_read_again(rt: HostRuntime) -> Result<(), Fail> {
    let entries = key_entries(rt.alloc(), &GENERIC, b"value", &LEN_5)?;
    let key = Object::from_entries(rt.alloc(), entries)?.ok_or("a key")?;
    let stored = encode(rt.alloc(), &key.clone()?)?;
    let is_read = is_read_again(rt.alloc(), &key, &stored)?;
    assert!(rt; is_read);
    expect_cut(&rt, rt.alloc(), &stored);
    Ok(())
}

fn expect_cut(rt: &impl Abort, alloc: Global, stored: &[u8]) {
    for len in 0..stored.len() {
        assert!(rt; is_cut(alloc, stored, len), "{len} bytes");
    }
}

/// A key's type, its value, the length that it returns, and whether there is such a key.
type Case = (&'static [u8], &'static [u8], &'static [u8], bool);

static CASES: [Case; 7] = [
    (&AES, &[1; 16], &LEN_16, true),
    (&AES, &[1; 5], &LEN_5, false),
    (&GENERIC, &[1; 5], &LEN_5, true),
    (&GENERIC, &[1; 5], &LEN_16, false),
    (&GENERIC, &[1; 16], &LEN_5, false),
    (&GENERIC, &[], &[0; 8], false),
    (&[0, 0, 0, 0, 0, 0, 0, 0x11], &[1; 16], &LEN_16, false),
];

#[test]
fn a_key_has_a_listed_type_and_the_length_that_it_says(rt: HostRuntime) -> Result<(), Fail> {
    for (key_type, value, len, is_key) in &CASES {
        let entries = key_entries(rt.alloc(), key_type, value, len)?;
        let made = Object::from_entries(rt.alloc(), entries)?;
        assert_eq!(rt; made.is_some(), *is_key, "{key_type:?} {value:?} {len:?}");
    }
    Ok(())
}
