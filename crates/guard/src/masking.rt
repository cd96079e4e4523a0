//! What is revealed of an object.

ghost use Rattle.std.specs.Prelude.{◌≡◌, None, false};
ghost use Rattle.ck_types.specs.Numbers.{attr_type_number};
ghost use Rattle.attrs.specs.Objects.{attribute};
ghost use Rattle.attrs.specs.Masking.{is_masked, mask, reveals as reveals_by_number};

use attrs::Object;
use ck_types::{AttrType, ObjectClass};

/// Whether the object is a key whose value is redacted: a sensitive or unextractable one
/// (PKCS #11 v3.1, 4.10). Data objects never are.
pub fn masked(object: &Object) -> bool
    ensures value { result ≡ is_masked object.now }
    ensures on_mask { result ≡ is_masked (mask object.now) }
{
    object.class() == ObjectClass::SecretKey
        && (object.flag(AttrType::Sensitive) || !object.flag(AttrType::Extractable))
}

/// Whether the attribute may be revealed, where the object has it: all but the value of a masked key.
pub fn reveals(object: &Object, attribute: AttrType) -> bool
    ensures value { result ≡ reveals_by_number object.now (attr_type_number attribute) }
    ensures on_mask { result ≡ reveals_by_number (mask object.now) (attr_type_number attribute) }
{
    reveals_number(object, attribute.number())
}

/// Whether the attribute with this number may be revealed, where the object has it: all but CKA_VALUE of a
/// masked key. The number may be that of no attribute. What may not be revealed is no part of the object as
/// others may see it.
pub fn reveals_number(object: &Object, number: u64) -> bool
    ensures value { result ≡ reveals_by_number object.now number }
    ensures on_mask { result ≡ reveals_by_number (mask object.now) number }
    ensures withheld { result ≡ false → attribute (mask object.now) number ≡ None }
{
    number != AttrType::Value.number() || !masked(object)
}
