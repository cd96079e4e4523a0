//! The mechanisms.

use aes_modes::CounterBits;
use aes_vector::Block;

/// A mechanism with its parameter (PKCS #11 v3.1, 6.10 and 6.11).
#[derive(Clone, Copy)]
pub enum Mechanism {
    /// CKM_AES_ECB, which has no parameter.
    Ecb,
    /// CKM_AES_CBC from an initialization vector.
    Cbc { iv: Block },
    /// CKM_AES_CBC_PAD, with the padding of PKCS #7, from an initialization vector.
    CbcPad { iv: Block },
    /// CKM_AES_CTR: so many low bits of the counter block count, and this is the first one.
    Ctr { bits: CounterBits, start: Block },
}
