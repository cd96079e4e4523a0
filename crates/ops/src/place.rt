//! The places of a session's operations, and their kinds.

use aes_modes::Direction;

/// Where an operation of a session stands that encrypts or decrypts (PKCS #11 v3.1, 5.8 and 5.10): one of each kind may be
/// active at a time.
#[derive(Clone, Copy, Debug, PartialEq, Eq)]
pub enum Place {
    /// C_EncryptInit begins it.
    Encrypt,
    /// C_DecryptInit.
    Decrypt,
}

/// Where an operation of a session stands that signs or verifies (PKCS #11 v3.1, 5.13 and 5.15): one of each kind may be
/// active at a time.
#[derive(Clone, Copy, Debug, PartialEq, Eq)]
pub enum MacPlace {
    /// C_SignInit begins it.
    Sign,
    /// C_VerifyInit.
    Verify,
}

/// Which operation of a session an Init call begins: one that encrypts or decrypts, or one that signs or verifies.
#[derive(Clone, Copy)]
pub enum Kind {
    /// C_EncryptInit or C_DecryptInit begins it.
    Cipher(Direction),
    /// C_SignInit or C_VerifyInit.
    Mac(MacPlace),
}
