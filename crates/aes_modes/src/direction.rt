/// Which way a mode is used (SP 800-38A, 5.3).
#[derive(Clone, Copy, Debug, PartialEq, Eq)]
pub enum Direction {
    /// From a plain text to the cipher text.
    Encrypt,
    /// From a cipher text to the plain text.
    Decrypt,
}
