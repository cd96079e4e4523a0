//! Mechanisms that make MACs, and their keys.

ghost use Rattle.std.specs.Prelude.{◌≡◌, true};
ghost use Rattle.ck_types.specs.declared.attr_type.AttrType.TheVariants as attr;
ghost use Rattle.macs.specs.declared.mechanism.Mechanism.TheVariants.{AesCmac};
ghost use Rattle.attrs.specs.Masking.{is_secret_key};
ghost use Rattle.attrs.specs.Objects.{attribute_of, class_of, key_type_of};
ghost use Rattle.model_views.specs.Checked.{is_aes};
ghost use Rattle.ops.specs.Operations.{mac_of, mac_started};
ghost use Rattle.model_answers.specs.MacInit.{mac_mechanism_with};

use attrs::Object;
use ck_types::MechType;
use macs::{Mac, Mechanism};

/// The mechanism of a type (PKCS #11 v3.1, 5.13 and 5.15). `None` where it makes no MAC, or has a parameter, which no MAC takes.
pub(crate) fn with_parameter(mechanism: MechType, parameter: &[u8]) -> Option<Mechanism>
    ensures { result ≡ mac_mechanism_with mechanism parameter.now }
{
    if !parameter.is_empty() {
        return None;
    }
    match mechanism {
        MechType::AesCmac => Some(Mechanism::AesCmac),
        MechType::Sha224Hmac => Some(Mechanism::Sha224Hmac),
        MechType::Sha256Hmac => Some(Mechanism::Sha256Hmac),
        MechType::Sha384Hmac => Some(Mechanism::Sha384Hmac),
        MechType::Sha512Hmac => Some(Mechanism::Sha512Hmac),
        _ => None,
    }
}

/// The empty message under the value of a key, which is an AES key where the mechanism is CKM_AES_CMAC.
pub(crate) fn begun(mechanism: Mechanism, key: &Object) -> Mac
    requires secret { is_secret_key (class_of key.now) ≡ true }
    requires aes { mechanism ≡ AesCmac → is_aes (key_type_of key.now) ≡ true }
    ensures { mac_of result ≡ mac_started mechanism (attribute_of key.now attr.Value) }
{
    let _entries = key.entries(); // brings its clause
    match Mac::new(mechanism, key.value()) {
        Some(mac) => mac,
        None => unreachable!(),
    }
}
