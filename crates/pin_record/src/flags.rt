//! The flags of a token.

ghost use Rattle.std.specs.Prelude.{◌≡◌, if◌then◌else◌};
ghost use Rattle.pin_record.specs.Records.{record_view};
ghost use Rattle.pin_record.specs.Flags.{token_flags};

use crate::pin::TRIES_LIMIT;
use crate::record::Record;
use ck_types::UserType;

const CKF_RNG: u64 = 0x1;

const CKF_LOGIN_REQUIRED: u64 = 0x4;

/// The user's PIN is set (PKCS #11 v3.1, 3.2: `CK_TOKEN_INFO`).
pub const CKF_USER_PIN_INITIALIZED: u64 = 0x8;

/// The token is initialised (PKCS #11 v3.1, 3.2: `CK_TOKEN_INFO`).
pub const CKF_TOKEN_INITIALIZED: u64 = 0x400;

const CKF_USER_PIN_COUNT_LOW: u64 = 0x10000;

const CKF_USER_PIN_FINAL_TRY: u64 = 0x20000;

/// The user's PIN is locked (PKCS #11 v3.1, 3.2: `CK_TOKEN_INFO`).
pub const CKF_USER_PIN_LOCKED: u64 = 0x40000;

const CKF_SO_PIN_COUNT_LOW: u64 = 0x100000;

const CKF_SO_PIN_FINAL_TRY: u64 = 0x200000;

/// The security officer's PIN is locked (PKCS #11 v3.1, 3.2: `CK_TOKEN_INFO`).
pub const CKF_SO_PIN_LOCKED: u64 = 0x400000;

fn flag_if(condition: bool, flag: u64) -> u64
    ensures { result ≡ (if condition then flag else 0) }
{
    if condition { flag } else { 0 }
}

/// The flags of the token (PKCS #11 v3.1, 3.2: `CK_TOKEN_INFO`), by what `record_view` has of its
/// record. A PIN's count is low from one try on; at nine tries one is left, the final one, and at ten
/// the PIN is locked. No memory is taken.
pub fn token_flags(record: &Record) -> u64
    ensures { result ≡ token_flags (record_view «record».now) }
{
    let so_tries = record.tries(UserType::So);
    let user_tries = record.tries(UserType::User);
    CKF_RNG
        | CKF_LOGIN_REQUIRED
        | flag_if(
            record.verifier(UserType::User).is_some(),
            CKF_USER_PIN_INITIALIZED,
        )
        | flag_if(record.is_initialized(), CKF_TOKEN_INITIALIZED)
        | flag_if(user_tries > 0, CKF_USER_PIN_COUNT_LOW)
        | flag_if(user_tries == TRIES_LIMIT - 1, CKF_USER_PIN_FINAL_TRY)
        | flag_if(user_tries == TRIES_LIMIT, CKF_USER_PIN_LOCKED)
        | flag_if(so_tries > 0, CKF_SO_PIN_COUNT_LOW)
        | flag_if(so_tries == TRIES_LIMIT - 1, CKF_SO_PIN_FINAL_TRY)
        | flag_if(so_tries == TRIES_LIMIT, CKF_SO_PIN_LOCKED)
}
