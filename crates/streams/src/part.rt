//! The parts in which data comes.

/// Which call data comes with (PKCS #11 v3.1, 5.8 and 5.10).
#[derive(Clone, Copy)]
pub enum Part {
    /// A part after which more may come: C_EncryptUpdate, C_DecryptUpdate.
    Update,
    /// The end: all data, of C_Encrypt and C_Decrypt, or none, of C_EncryptFinal and C_DecryptFinal.
    Last,
}
