//! The key of an application's last operation.

ghost use Rattle.std.specs.Prelude.{◌≡◌, IfOk, IfSome};
ghost use Rattle.fips_197.specs.KeyExpansion.{IsKey};

use aes_vector::Key;
use ck_types::Bytes;
use lists::same_bytes;
use std::alloc::{AllocError, Global};

/// A key, expanded, beside its bytes: an operation under the same key needn't expand it again.
#[derive(Drop)]
pub struct LastKey {
    value: Bytes,
    key: Key,
    pub ghost same: { key ≡ value },
}

impl LastKey {
    /// The key that is these bytes.
    pub fn new(alloc: Global, key: &Key, value: &[u8]) -> Result<LastKey, AllocError>
        requires { key.now ≡ value.now }
        ensures { IfOk result (λ last. last.key ≡ value.now) }
    {
        Ok(LastKey {
            value: Bytes::from_slice(alloc, value)?,
            key: key.copied(),
        })
    }

    /// The key that is these bytes, where it is the one that is known.
    pub fn key_of(&self, value: &[u8]) -> Option<Key>
        ensures value { IfSome result (λ key. key ≡ value.now) }
        ensures key { IfSome result IsKey }
    {
        if !same_bytes(self.value.as_slice(), value) {
            return None;
        }
        let _size = self.key.size(); // brings its clause
        Some(self.key.copied())
    }
}
