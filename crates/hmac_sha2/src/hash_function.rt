ghost use Rattle.std.specs.Prelude.{◌≡◌, ℕ, ◌≤◌, List, length};
ghost use Rattle.std.proofs.Common.{lit≤};
ghost use Rattle.sha2.specs.Sha256.{sha224, sha256};
ghost use Rattle.sha2.specs.Sha512.{sha384, sha512};
ghost use Rattle.sha2.proofs.Facts256.{length-sha224, length-sha256};
ghost use Rattle.sha2.proofs.Facts512.{length-sha384, length-sha512};

use sha2::{Digest, Sha224, Sha256, Sha384, Sha512};

// The block size of SHA-384 and SHA-512 in bytes, the greatest of FIPS 180-4.
pub(crate) const LONGEST_BLOCK: usize = 128;

/// A hash function for HMAC: it hashes blocks of a fixed size, and no digest is longer than a block
/// (FIPS 198-1, section 2.3).
pub trait HashFunction: Digest + Clone {
    /// The block size B in bytes (FIPS 180-4, section 1, figure 1), at most 128.
    const BLOCK_SIZE: usize;

    // The same number, for clauses.
    ghost BLOCK_SIZE: { ℕ };

    // The digest of a message, as a function.
    ghost hash: { List ℕ → List ℕ };

    // The bytes of what a hasher returns.
    ghost bytes: { Self.Output → List ℕ };

    /// The bytes of a digest, as many as `output_size` returns.
    fn as_bytes(digest: &Self::Output) -> &[u8]
        ensures { result.now ≡ bytes digest.now };

    // What a hasher returns for a message is the function's value.
    ghost digest_is_hash: { (m : List ℕ) (d : Self.Output) → Self.digest_of m d → bytes d ≡ hash m };

    ghost digest_length: { (m : List ℕ) → length (hash m) ≡ Self.size };

    ghost digest_fits: { Self.size ≤ BLOCK_SIZE };

    ghost block_fits: { BLOCK_SIZE ≤ 128 };

    // A hasher's clone is the same hasher, and there always is one.
    ghost clone_is_same: { (x y : Self) → Self.is_clone x y → y ≡ x };

    ghost clone_is_infallible: { (x : Self) → Self.is_infallible x };
}

impl HashFunction for Sha224 {
    const BLOCK_SIZE: usize = 64;

    ghost BLOCK_SIZE = { 64 };

    ghost hash = { sha224 };

    ghost bytes = { λ d. d };

    fn as_bytes(digest: &[u8; 28]) -> &[u8] {
        digest
    }

    ghost digest_is_hash = { λ m d is. is };

    ghost digest_length = { length-sha224 };

    ghost digest_fits = { lit≤ tt };

    ghost block_fits = { lit≤ tt };

    ghost clone_is_same = { λ x y same. same };

    ghost clone_is_infallible = { λ x. tt };
}

impl HashFunction for Sha256 {
    const BLOCK_SIZE: usize = 64;

    ghost BLOCK_SIZE = { 64 };

    ghost hash = { sha256 };

    ghost bytes = { λ d. d };

    fn as_bytes(digest: &[u8; 32]) -> &[u8] {
        digest
    }

    ghost digest_is_hash = { λ m d is. is };

    ghost digest_length = { length-sha256 };

    ghost digest_fits = { lit≤ tt };

    ghost block_fits = { lit≤ tt };

    ghost clone_is_same = { λ x y same. same };

    ghost clone_is_infallible = { λ x. tt };
}

impl HashFunction for Sha384 {
    const BLOCK_SIZE: usize = 128;

    ghost BLOCK_SIZE = { 128 };

    ghost hash = { sha384 };

    ghost bytes = { λ d. d };

    fn as_bytes(digest: &[u8; 48]) -> &[u8] {
        digest
    }

    ghost digest_is_hash = { λ m d is. is };

    ghost digest_length = { length-sha384 };

    ghost digest_fits = { lit≤ tt };

    ghost block_fits = { lit≤ tt };

    ghost clone_is_same = { λ x y same. same };

    ghost clone_is_infallible = { λ x. tt };
}

impl HashFunction for Sha512 {
    const BLOCK_SIZE: usize = 128;

    ghost BLOCK_SIZE = { 128 };

    ghost hash = { sha512 };

    ghost bytes = { λ d. d };

    fn as_bytes(digest: &[u8; 64]) -> &[u8] {
        digest
    }

    ghost digest_is_hash = { λ m d is. is };

    ghost digest_length = { length-sha512 };

    ghost digest_fits = { lit≤ tt };

    ghost block_fits = { lit≤ tt };

    ghost clone_is_same = { λ x y same. same };

    ghost clone_is_infallible = { λ x. tt };
}
