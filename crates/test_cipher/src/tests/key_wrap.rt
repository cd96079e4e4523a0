use crate::tests::given::{bytes_of, key_of};
use aes_kw::{KwFault, unwrap, wrap};
use aes_vector::Key;
use std::alloc::Global;
use std::test::Fail;
use vectors::{RFC_3394, Vector};

mod vectors;

#[test]
fn wraps_and_unwraps_the_examples_of_rfc_3394(rt: HostRuntime) -> Result<(), Fail> {
    for vector in &RFC_3394 {
        let key = key_of(rt.alloc(), vector.key)?;
        let is_there = is_wrapped(rt.alloc(), &key, vector)?;
        let is_back = is_unwrapped(rt.alloc(), &key, vector)?;
        assert!(rt; is_there && is_back, "{}", vector.source);
    }
    Ok(())
}

fn is_wrapped(alloc: Global, key: &Key, vector: &Vector) -> Result<bool, Fail> {
    let value = bytes_of(alloc, vector.value)?;
    Ok(wrap(alloc, key, &value)? == bytes_of(alloc, vector.wrapped)?)
}

fn is_unwrapped(alloc: Global, key: &Key, vector: &Vector) -> Result<bool, Fail> {
    let wrapped = bytes_of(alloc, vector.wrapped)?;
    Ok(unwrap(alloc, key, &wrapped)? == bytes_of(alloc, vector.value)?)
}

// Whether the wrapping is refused with these bits of the byte at a place changed.
fn refuses_with(
    alloc: Global,
    key: &Key,
    vector: &Vector,
    at: usize,
    bits: u8,
) -> Result<bool, Fail> {
    let mut wrapped = bytes_of(alloc, vector.wrapped)?;
    if let Some(byte) = wrapped.get_mut(at) {
        *byte ^= bits;
    }
    Ok(unwrap(alloc, key, &wrapped) == Err(KwFault::BadCheck))
}

// One bit of the wrapping changed, at its first byte and at its last.
#[test]
fn refuses_a_changed_wrapping(rt: HostRuntime) -> Result<(), Fail> {
    for vector in &RFC_3394 {
        let key = key_of(rt.alloc(), vector.key)?;
        let last = (8 * vector.wrapped.len()).saturating_sub(1);
        let at_first = refuses_with(rt.alloc(), &key, vector, 0, 0x80)?;
        let at_last = refuses_with(rt.alloc(), &key, vector, last, 1)?;
        assert!(rt; at_first && at_last, "{}", vector.source);
    }
    Ok(())
}

#[test]
fn refuses_other_lengths(rt: HostRuntime) -> Result<(), Fail> {
    const VALUES: &[&[u8]] = &[&[0; 8], &[0; 15], &[0; 23]];
    const WRAPPED: &[&[u8]] = &[&[], &[0; 16], &[0; 23]];
    let key = Key::new(&[0; 16]).ok_or("no key of this length")?;
    for value in VALUES {
        let is_refused = is_length_refused(wrap(rt.alloc(), &key, value));
        assert!(rt; is_refused, "a value of {} bytes", value.len());
    }
    for bytes in WRAPPED {
        let is_refused = is_length_refused(unwrap(rt.alloc(), &key, bytes));
        assert!(rt; is_refused, "{} bytes", bytes.len());
    }
    Ok(())
}

fn is_length_refused(out: Result<Vec<u8>, KwFault>) -> bool {
    out == Err(KwFault::LenRange)
}
