//! The attributes of objects.

ghost use Rattle.std.specs.Prelude.{◌≡◌};
ghost use Rattle.attrs.specs.Table.{attribute_table, is_held_by};

use ck_types::{AttrType, ObjectClass};

/// How a value is written (PKCS #11 v3.1, 3.1 and 4.4 to 4.10).
#[derive(Clone, Copy, Debug, PartialEq, Eq)]
pub enum Form {
    /// A truth value: one byte 0 or 1.
    Truth,
    /// A number: eight bytes, big-endian.
    Number,
    /// A byte string of at most 1,024 bytes.
    Bytes,
}

/// Which objects have an attribute.
#[derive(Clone, Copy, Debug, PartialEq, Eq)]
pub enum Holder {
    Both,
    DataObject,
    Key,
}

/// What a template may say of an attribute in one of the calls that make or change an object
/// (PKCS #11 v3.1, 4.1).
#[derive(Clone, Copy, Debug, PartialEq, Eq)]
pub enum Rule {
    /// No object with this attribute is made by the call.
    Unused,
    Required,
    Optional,
    /// Refused with CKR_TEMPLATE_INCONSISTENT.
    Inconsistent,
    /// Refused with CKR_ATTRIBUTE_READ_ONLY.
    ReadOnly,
    /// May become false; true is refused with CKR_ATTRIBUTE_READ_ONLY where it isn't so already.
    FalseOnly,
    /// May become true; false is refused with CKR_ATTRIBUTE_READ_ONLY where it isn't so already.
    TrueOnly,
    /// Only the SO may make it true; CKR_ATTRIBUTE_READ_ONLY where it isn't so already.
    TrueBySo,
}

/// The value of an attribute that the template of a making call doesn't give.
#[derive(Clone, Copy, Debug, PartialEq, Eq)]
pub enum DefaultValue {
    /// None: the token finds the value, or the template must give one.
    ByToken,
    False,
    True,
    /// False for a data object, true for a key.
    TrueForKey,
    /// False, but true for an unwrapped key.
    TrueUnwrapped,
    Empty,
}

/// A row of the table: an attribute of some objects.
#[derive(Clone, Copy, Debug, PartialEq, Eq)]
pub struct AttributeRow {
    pub attribute: AttrType,
    pub holder: Holder,
    pub form: Form,
    /// In C_CreateObject.
    pub create: Rule,
    /// In C_GenerateKey.
    pub generate: Rule,
    /// In C_UnwrapKey.
    pub unwrap: Rule,
    /// In C_CopyObject.
    pub copy: Rule,
    /// In C_SetAttributeValue.
    pub set: Rule,
    pub default: DefaultValue,
}

impl AttributeRow {
    /// Whether the objects of a class have the attribute.
    pub fn is_held_by(&self, class: ObjectClass) -> bool
        ensures { result ≡ is_held_by class self.now }
    {
        match (self.holder, class) {
            (Holder::Both, _) => true,
            (Holder::DataObject, ObjectClass::Data) => true,
            (Holder::DataObject, ObjectClass::SecretKey) => false,
            (Holder::Key, ObjectClass::Data) => false,
            (Holder::Key, ObjectClass::SecretKey) => true,
        }
    }
}

macro_rules! row {
    ($attribute:ident, $holder:ident, $form:ident, $create:ident, $generate:ident, $unwrap:ident, $copy:ident, $set:ident, $default:ident) => {
        AttributeRow {
            attribute: AttrType::$attribute,
            holder: Holder::$holder,
            form: Form::$form,
            create: Rule::$create,
            generate: Rule::$generate,
            unwrap: Rule::$unwrap,
            copy: Rule::$copy,
            set: Rule::$set,
            default: DefaultValue::$default,
        }
    };
}

/// The table of attributes, by rising number.
#[rattlefmt::skip]
#[tactic(auto, unfolding(crate::specs::Table::attribute_table))]
pub fn attributes() -> &'static [AttributeRow]
    ensures { result.now ≡ attribute_table }
{
    &[
        row!(Class, Both, Number, Required, Optional, Optional, ReadOnly, ReadOnly, ByToken),
        row!(Token, Both, Truth, Optional, Optional, Optional, Optional, ReadOnly, False),
        row!(Private, Both, Truth, Optional, Optional, Optional, Optional, ReadOnly, TrueForKey),
        row!(Label, Both, Bytes, Optional, Optional, Optional, Optional, Optional, Empty),
        row!(UniqueId, Both, Bytes, ReadOnly, ReadOnly, ReadOnly, ReadOnly, ReadOnly, ByToken),
        row!(Application, DataObject, Bytes, Optional, Inconsistent, Inconsistent, Optional, Optional, Empty),
        row!(Value, DataObject, Bytes, Optional, Unused, Unused, Optional, Optional, Empty),
        row!(Value, Key, Bytes, Required, Inconsistent, Inconsistent, ReadOnly, ReadOnly, ByToken),
        row!(Trusted, Key, Truth, TrueBySo, TrueBySo, TrueBySo, TrueBySo, TrueBySo, False),
        row!(KeyType, Key, Number, Required, Optional, Required, ReadOnly, ReadOnly, ByToken),
        row!(Id, Key, Bytes, Optional, Optional, Optional, Optional, Optional, Empty),
        row!(Sensitive, Key, Truth, Optional, Optional, Optional, TrueOnly, TrueOnly, True),
        row!(Encrypt, Key, Truth, Optional, Optional, Optional, Optional, Optional, True),
        row!(Decrypt, Key, Truth, Optional, Optional, Optional, Optional, Optional, True),
        row!(Wrap, Key, Truth, Optional, Optional, Optional, Optional, Optional, False),
        row!(Unwrap, Key, Truth, Optional, Optional, Optional, Optional, Optional, False),
        row!(Sign, Key, Truth, Optional, Optional, Optional, Optional, Optional, True),
        row!(Verify, Key, Truth, Optional, Optional, Optional, Optional, Optional, True),
        row!(ValueLen, Key, Number, Inconsistent, Required, Optional, ReadOnly, ReadOnly, ByToken),
        row!(Extractable, Key, Truth, Optional, Optional, Optional, FalseOnly, FalseOnly, TrueUnwrapped),
        row!(Local, Key, Truth, ReadOnly, ReadOnly, ReadOnly, ReadOnly, ReadOnly, ByToken),
        row!(NeverExtractable, Key, Truth, ReadOnly, ReadOnly, ReadOnly, ReadOnly, ReadOnly, ByToken),
        row!(AlwaysSensitive, Key, Truth, ReadOnly, ReadOnly, ReadOnly, ReadOnly, ReadOnly, ByToken),
        row!(KeyGenMechanism, Key, Number, ReadOnly, ReadOnly, ReadOnly, ReadOnly, ReadOnly, ByToken),
        row!(Modifiable, Both, Truth, Optional, Optional, Optional, Optional, ReadOnly, True),
        row!(Copyable, Both, Truth, Optional, Optional, Optional, FalseOnly, FalseOnly, True),
        row!(Destroyable, Both, Truth, Optional, Optional, Optional, Optional, ReadOnly, True),
        row!(WrapWithTrusted, Key, Truth, Optional, Optional, Optional, TrueOnly, TrueOnly, False),
    ]
}
