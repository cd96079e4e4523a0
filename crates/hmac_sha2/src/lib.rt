//! HMAC (FIPS 198-1) with SHA-224, SHA-256, SHA-384 and SHA-512, and PBKDF2 (RFC 8018) with
//! HMAC-SHA-256 for a key of 32 bytes.
//!
//! `hmac224`, `hmac256`, `hmac384` and `hmac512` give the tag of a message under a key, each for
//! all keys and messages. `Hmac` does the same for a message that comes in parts. `pbkdf2` makes a
//! key from a password and a salt. Each is proved to be its standard's function, as `specs/` writes
//! it over the digests of the crate `sha2`. None takes memory or fails.
//!
//! A clause speaks of the state of an `Hmac<D>` by `HoldsMessage D.holds D.hash D.BLOCK_SIZE h key message`
//! of `specs/Stepwise.antt`: it has taken this message under this key. `HoldsMessage256` is that of SHA-256.
//! Nothing is said of secrecy, of time, or of what stays in memory.
//!
//! Proved, by the names of contracts: HMAC of FIPS 198-1 and PBKDF2 of RFC 8018. Digests are what the kit's `sha2` says they are.
#![tactic(auto)]

ghost use Rattle.std.specs.Prelude.{◌≡◌};
ghost use Rattle.hmac_sha2.specs.Hmac.{hmac, hmac224, hmac256, hmac384, hmac512};

use sha2::{Sha224, Sha256, Sha384, Sha512};

mod hash_function;
mod key_derivation;
mod stepwise;
mod xor;

pub use hash_function::HashFunction;
pub use key_derivation::pbkdf2;
pub use stepwise::Hmac;

// The tag of a message under any of the hash functions.
fn tag_of<D: HashFunction>(key: &[u8], message: &[u8]) -> D::Output
where
    D::Output: Drop,
    ensures { D.bytes result ≡ hmac D.hash D.BLOCK_SIZE key.now message.now }
{
    let mut hmac = Hmac::<D>::new(key);
    hmac.update(message);
    hmac.finalize()
}

/// HMAC-SHA-224: the tag of `message` under `key`, both of any length (FIPS 198-1, section 4).
pub fn hmac224(key: &[u8], message: &[u8]) -> [u8; 28]
    ensures { result ≡ hmac224 key.now message.now }
{
    tag_of::<Sha224>(key, message)
}

/// HMAC-SHA-256: the tag of `message` under `key`, both of any length (FIPS 198-1, section 4).
pub fn hmac256(key: &[u8], message: &[u8]) -> [u8; 32]
    ensures { result ≡ hmac256 key.now message.now }
{
    tag_of::<Sha256>(key, message)
}

/// HMAC-SHA-384: the tag of `message` under `key`, both of any length (FIPS 198-1, section 4).
pub fn hmac384(key: &[u8], message: &[u8]) -> [u8; 48]
    ensures { result ≡ hmac384 key.now message.now }
{
    tag_of::<Sha384>(key, message)
}

/// HMAC-SHA-512: the tag of `message` under `key`, both of any length (FIPS 198-1, section 4).
pub fn hmac512(key: &[u8], message: &[u8]) -> [u8; 64]
    ensures { result ≡ hmac512 key.now message.now }
{
    tag_of::<Sha512>(key, message)
}
