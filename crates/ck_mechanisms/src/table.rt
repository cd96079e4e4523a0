//! The table of mechanisms.

ghost use Rattle.std.specs.Prelude.{◌≡◌};
ghost use Rattle.ck_mechanisms.specs.Table.{flags_of, info_of, mech_key_type, listed, mechanism_at, mechanism_for, purpose_of, sizes_in};

use crate::purpose::Purpose;
use ck_calls::MechanismInfo;
use ck_types::{KeyType, MechType};

/// All mechanisms, by rising number.
pub const LISTED: [MechType; 12] = [
    MechType::Sha256Hmac,
    MechType::Sha224Hmac,
    MechType::Sha384Hmac,
    MechType::Sha512Hmac,
    MechType::GenericSecretKeyGen,
    MechType::AesKeyGen,
    MechType::AesEcb,
    MechType::AesCbc,
    MechType::AesCbcPad,
    MechType::AesCtr,
    MechType::AesCmac,
    MechType::AesKeyWrap,
];

/// What a mechanism is for.
pub fn purpose_of(mechanism: MechType) -> Purpose
    ensures { result ≡ purpose_of mechanism }
{
    match mechanism {
        MechType::AesEcb | MechType::AesCbc | MechType::AesCbcPad | MechType::AesCtr => {
            Purpose::Cipher
        }
        MechType::AesCmac
        | MechType::Sha224Hmac
        | MechType::Sha256Hmac
        | MechType::Sha384Hmac
        | MechType::Sha512Hmac => Purpose::Mac,
        MechType::AesKeyGen | MechType::GenericSecretKeyGen => Purpose::Generation,
        MechType::AesKeyWrap => Purpose::Wrapping,
    }
}

/// The type of a mechanism's keys.
pub fn key_type_of(mechanism: MechType) -> KeyType
    ensures { result ≡ mech_key_type mechanism }
{
    match mechanism {
        MechType::Sha224Hmac
        | MechType::Sha256Hmac
        | MechType::Sha384Hmac
        | MechType::Sha512Hmac
        | MechType::GenericSecretKeyGen => KeyType::GenericSecret,
        MechType::AesKeyGen
        | MechType::AesEcb
        | MechType::AesCbc
        | MechType::AesCbcPad
        | MechType::AesCtr
        | MechType::AesCmac
        | MechType::AesKeyWrap => KeyType::Aes,
    }
}

fn flags(purpose: Purpose) -> u64
    ensures { result ≡ flags_of purpose }
{
    match purpose {
        Purpose::Cipher => 0x100 | 0x200,
        Purpose::Mac => 0x800 | 0x2000,
        Purpose::Generation => 0x8000,
        Purpose::Wrapping => 0x20000 | 0x40000,
    }
}

/// The least and the greatest size.
fn sizes(purpose: Purpose, key_type: KeyType) -> (u64, u64)
    ensures { result ≡ sizes_in purpose key_type }
{
    match (purpose, key_type) {
        (_, KeyType::Aes) => (16, 32),
        (Purpose::Generation, KeyType::GenericSecret) => (8, 4096),
        (_, KeyType::GenericSecret) => (1, 512),
    }
}

/// What C_GetMechanismInfo reports of a mechanism: the sizes of its keys, in bytes, or in bits where it generates secrets, and
/// its flags (PKCS #11 v3.1, 3.5: `CK_MECHANISM_INFO`).
pub fn info_of(mechanism: MechType) -> MechanismInfo
    ensures { result ≡ info_of mechanism }
{
    let purpose = purpose_of(mechanism);
    let (min_key_size, max_key_size) = sizes(purpose, key_type_of(mechanism));
    MechanismInfo {
        min_key_size,
        max_key_size,
        flags: flags(purpose),
    }
}

/// The mechanism of this number.
#[tactic(auto, unfolding(crate::specs::Table::mechanism_at))]
pub fn find(number: u64) -> Option<MechType>
    ensures { result ≡ mechanism_at number }
{
    LISTED
        .iter()
        .copied()
        .find(|mechanism| mechanism.number() == number)
}

/// The mechanism of this number, where it is for this.
#[tactic(auto, unfolding(crate::specs::Table::mechanism_at, crate::specs::Table::mechanism_for))]
pub fn find_for(wanted: Purpose, number: u64) -> Option<MechType>
    ensures { result ≡ mechanism_for wanted number }
{
    find(number).filter(|mechanism| purpose_of(*mechanism) == wanted)
}
