//! The text that SP 800-38A and SP 800-38B work on, and bytes and keys as tables write them.
use aes_vector::Key;
use std::alloc::Global;
use std::test::Fail;

/// The text of both standards' examples.
pub(crate) const TEXT: &[u64] = &[
    0x6bc1bee22e409f96,
    0xe93d7e117393172a,
    0xae2d8a571e03ac9c,
    0x9eb76fac45af8e51,
    0x30c81c46a35ce411,
    0xe5fbc1191a0a52ef,
    0xf69f2445df4f9b17,
    0xad2b417be66c3710,
];

/// The bytes of these words.
pub(crate) fn bytes_of(alloc: Global, words: &[u64]) -> Result<Vec<u8>, Fail> {
    let mut bytes = Vec::new(alloc);
    for word in words {
        bytes.extend_from_slice(&word.to_be_bytes())?;
    }
    Ok(bytes)
}

/// The key of these words.
pub(crate) fn key_of(alloc: Global, words: &[u64]) -> Result<Key, Fail> {
    let key = Key::new(&bytes_of(alloc, words)?).ok_or("no key of this length")?;
    Ok(key)
}
