//! Codes of short values: of truth values, classes and key types.

ghost use Rattle.std.specs.Prelude.{◌≡◌, ◌==◌};
ghost use Rattle.std.specs.Option.{option_copied};
ghost use Rattle.attrs.specs.Objects.{attribute_of};
ghost use Rattle.find.specs.Codes.{are_decided, code_for, code_in, code_of, coded, codes_match, codes_of, is_coded, is_decided};

use attrs::Object;
use ck_types::{AttrType, Entry};

/// How many attributes have codes.
pub(crate) const CODED_LEN: usize = 20;

/// What is made of each attribute that has a code, in their order: of the class, the key type, and those that are truth values.
macro_rules! of_coded {
    ($attribute:ident => $made:expr) => {
        [
            {
                let $attribute = AttrType::Class;
                $made
            },
            {
                let $attribute = AttrType::KeyType;
                $made
            },
            {
                let $attribute = AttrType::Token;
                $made
            },
            {
                let $attribute = AttrType::Private;
                $made
            },
            {
                let $attribute = AttrType::Trusted;
                $made
            },
            {
                let $attribute = AttrType::Sensitive;
                $made
            },
            {
                let $attribute = AttrType::Encrypt;
                $made
            },
            {
                let $attribute = AttrType::Decrypt;
                $made
            },
            {
                let $attribute = AttrType::Wrap;
                $made
            },
            {
                let $attribute = AttrType::Unwrap;
                $made
            },
            {
                let $attribute = AttrType::Sign;
                $made
            },
            {
                let $attribute = AttrType::Verify;
                $made
            },
            {
                let $attribute = AttrType::Extractable;
                $made
            },
            {
                let $attribute = AttrType::Local;
                $made
            },
            {
                let $attribute = AttrType::NeverExtractable;
                $made
            },
            {
                let $attribute = AttrType::AlwaysSensitive;
                $made
            },
            {
                let $attribute = AttrType::Modifiable;
                $made
            },
            {
                let $attribute = AttrType::Copyable;
                $made
            },
            {
                let $attribute = AttrType::Destroyable;
                $made
            },
            {
                let $attribute = AttrType::WrapWithTrusted;
                $made
            },
        ]
    };
}

/// The attributes that have codes.
fn coded() -> [AttrType; CODED_LEN]
    ensures { result ≡ coded }
{
    of_coded!(attribute => attribute)
}

/// The code of a value, which no other value has, or 0 where it has none: of false, true, CKO_DATA, CKO_SECRET_KEY, CKK_GENERIC_SECRET
/// and CKK_AES.
fn code_of(value: &[u8]) -> u8
    ensures { result ≡ code_of value.now }
{
    if value == [0].as_slice() {
        6
    } else if value == [1].as_slice() {
        5
    } else if value == [0, 0, 0, 0, 0, 0, 0, 0].as_slice() {
        4
    } else if value == [0, 0, 0, 0, 0, 0, 0, 4].as_slice() {
        3
    } else if value == [0, 0, 0, 0, 0, 0, 0, 0x10].as_slice() {
        2
    } else if value == [0, 0, 0, 0, 0, 0, 0, 0x1f].as_slice() {
        1
    } else {
        0
    }
}

/// The code of an attribute's value, or 7 where the object doesn't have the attribute.
fn code_at(object: &Object, attribute: AttrType) -> u8
    ensures { result ≡ code_in (attribute_of object.now attribute) }
{
    match object.get(attribute) {
        Some(value) => code_of(value),
        None => 7,
    }
}

/// The codes of an object, in the order of the attributes.
pub(crate) fn codes_of(object: &Object) -> [u8; CODED_LEN]
    ensures { result ≡ codes_of object.now }
{
    of_coded!(attribute => code_at(object, attribute))
}

/// The code of the attribute with a number, or 0 where it has none.
fn code_for(attributes: &[AttrType], codes: &[u8], number: u64) -> u8
    ensures { result ≡ code_for attributes.now codes.now number }
{
    let [attribute, attributes @ ..] = attributes else {
        return 0;
    };
    let [code, codes @ ..] = codes else {
        return 0;
    };
    if attribute.number() == number {
        *code
    } else {
        code_for(attributes, codes, number)
    }
}

/// Whether an attribute has a code, by its number.
fn is_coded(number: u64) -> bool
    ensures { result ≡ is_coded number }
{
    coded().iter().any(|attribute| attribute.number() == number)
}

/// Whether codes decide of each value that a template wants.
pub(crate) fn are_decided(template: &[Entry]) -> bool
    ensures { result ≡ are_decided template.now }
{
    template.iter().all(|entry| is_coded(entry.attr_type) && code_of(entry.value.as_slice()) != 0)
}

/// Whether by its codes an object has each value that a template wants.
pub(crate) fn codes_match(codes: &[u8; CODED_LEN], template: &[Entry]) -> bool
    ensures { result ≡ codes_match codes.now template.now }
{
    let attributes = coded();
    template.iter().all(|entry| {
        code_for(&attributes, codes, entry.attr_type) == code_of(entry.value.as_slice())
    })
}
