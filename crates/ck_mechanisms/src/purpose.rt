//! What mechanisms are for.

/// What a mechanism is for.
#[derive(Clone, Copy, Debug, PartialEq, Eq)]
pub enum Purpose {
    /// It encrypts and decrypts: `CKF_ENCRYPT`, `CKF_DECRYPT`.
    Cipher,
    /// It signs and verifies: `CKF_SIGN`, `CKF_VERIFY`.
    Mac,
    /// It generates keys: `CKF_GENERATE`.
    Generation,
    /// It wraps and unwraps keys: `CKF_WRAP`, `CKF_UNWRAP`.
    Wrapping,
}
