ghost use Rattle.std.specs.Prelude.{◌≡◌, ℕ, ◌≤◌, ◌++◌, List, [], length, replicate, ⊤};
ghost use Rattle.hmac_sha2.specs.Hmac.{xor_strings, zero_padded, inner_pad, outer_pad, hmac};

use super::hash_function::{HashFunction, LONGEST_BLOCK};
use super::xor::xor_into;
use std::alloc::AllocError;

// The bytes that ipad and opad repeat (FIPS 198-1, section 2.3).
const INNER_PAD: u8 = 0x36;

const OUTER_PAD: u8 = 0x5c;

// A hasher that has taken `key`, with zeros up to a block, under a pad.
fn begun<D: HashFunction>(key: &[u8], pad: u8) -> D
    requires { length key.now ≤ D.BLOCK_SIZE }
    ensures { D.holds result
        (xor_strings (zero_padded D.BLOCK_SIZE key.now) (replicate D.BLOCK_SIZE pad)) }
{
    let mut block = [pad; LONGEST_BLOCK];
    xor_into(&mut block, key);
    D::new_with_prefix(&block[..D::BLOCK_SIZE])
}

/// HMAC (FIPS 198-1) of a message that comes in parts, under any of the hash functions.
///
/// It keeps two hashers, one begun with the key under the inner pad and one with the key under the
/// outer pad. It keeps no part of the message but what a hasher keeps. A clone is the same state once
/// more: it copies a few hundred bytes, takes no memory and never fails.
#[derive(Drop)]
pub struct Hmac<D> {
    inner: D,
    outer: D,
}

impl<D: HashFunction> Hmac<D>
where
    D::Output: Drop,
{
    ghost use Rattle.hmac_sha2.specs.Stepwise.{HoldsMessage};

    // Under a key that is no longer than a block.
    fn under(key: &[u8]) -> Hmac<D>
        requires { length key.now ≤ D.BLOCK_SIZE }
        ensures inner { D.holds result.inner
            (xor_strings (zero_padded D.BLOCK_SIZE key.now) (replicate D.BLOCK_SIZE inner_pad)) }
        ensures outer { D.holds result.outer
            (xor_strings (zero_padded D.BLOCK_SIZE key.now) (replicate D.BLOCK_SIZE outer_pad)) }
    {
        Hmac {
            inner: begun(key, INNER_PAD),
            outer: begun(key, OUTER_PAD),
        }
    }

    /// Begins the empty message under `key`, which has any length: one that is longer than a block
    /// is hashed first (FIPS 198-1, section 4, steps 1 to 4 and 7).
    pub fn new(key: &[u8]) -> Hmac<D>
        ensures { HoldsMessage D.holds D.hash D.BLOCK_SIZE result key.now [] }
    {
        if key.len() <= D::BLOCK_SIZE {
            Hmac::under(key)
        } else {
            Hmac::under(D::as_bytes(&D::digest(key)))
        }
    }

    /// Adds `piece`, one more part, to the message (step 5).
    pub fn update(&mut self, piece: &[u8])
        ensures { (key message : List ℕ)
            → HoldsMessage D.holds D.hash D.BLOCK_SIZE self.old key message
            → HoldsMessage D.holds D.hash D.BLOCK_SIZE self.new key (message ++ piece.now) }
    {
        self.inner.update(piece);
    }

    /// The tag of the message, of the length of a digest (steps 6, 8 and 9).
    pub fn finalize(self) -> D::Output
        ensures { (key message : List ℕ)
            → HoldsMessage D.holds D.hash D.BLOCK_SIZE self key message
            → D.bytes result ≡ hmac D.hash D.BLOCK_SIZE key message }
    {
        let Hmac { inner, mut outer } = self;
        let digest = inner.finalize();
        outer.update(D::as_bytes(&digest));
        outer.finalize()
    }
}

impl<D: HashFunction> Clone for Hmac<D> {
    ghost is_clone = { λ x y. y ≡ x };

    ghost is_infallible = { λ _. ⊤ };

    fn clone(&self) -> Result<Hmac<D>, AllocError> {
        Ok(Hmac {
            inner: self.inner.clone()?,
            outer: self.outer.clone()?,
        })
    }
}
