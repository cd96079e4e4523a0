//! Numbers that are no codes: flags of the standard, lengths, and limits of this token.

/// CKF_RW_SESSION, of a session that may write token objects (PKCS #11 v3.1, 3.3).
pub const RW_SESSION: u64 = 0x2;

/// CKF_SERIAL_SESSION, which each session has (PKCS #11 v3.1, 3.3).
pub const SERIAL_SESSION: u64 = 0x4;

/// CK_UNAVAILABLE_INFORMATION, in place of a number that isn't known (PKCS #11 v3.1, 3.1).
pub const UNAVAILABLE_INFORMATION: u64 = u64::MAX;

/// The random bytes of a CKA_UNIQUE_ID, and of a PIN's salt.
pub const UNIQUE_ID_BYTES: usize = 16;

/// The greatest length of a secret key, in bytes.
pub const MAX_SECRET_LEN: u64 = 512;

/// The most entries of a template, and the most attributes of a query.
pub const MAX_ENTRIES: u32 = 32;

/// The most sessions of an application.
pub const MAX_SESSION_COUNT: u64 = 64;

/// The greatest and the least length of a PIN, in bytes.
pub const MAX_PIN_LEN: u64 = 64;

pub const MIN_PIN_LEN: u64 = 4;

/// The most random bytes of one C_GenerateRandom.
pub const MAX_RANDOM_LEN: u64 = 32_768;

/// The most session objects of an application.
pub const MAX_SESSION_OBJECTS: usize = 256;
