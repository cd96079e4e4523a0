//! Marks of objects.

ghost use Rattle.std.specs.Prelude.{◌≡◌, List, true, false};
ghost use Rattle.std.specs.Option.{option_copied, option_map};
ghost use Rattle.ck_types.specs.declared.entry.Entry.{Entry as AnEntry};
ghost use Rattle.attrs.specs.Masking.{mask};
ghost use Rattle.attrs.specs.Objects.{attribute_of};
ghost use Rattle.find.specs.Matching.{template_matches};
ghost use Rattle.find.specs.Codes.{are_decided, codes_match};
ghost use Rattle.find.specs.Marks.{excludes, hash_in, hash_of, is_other_hash, is_other_truth, mark_of, truth_of, wanted_of};

use crate::codes::{CODED_LEN, are_decided, codes_match, codes_of};
use attrs::{Object, find_attribute};
use ck_types::{AttrType, Entry, Template};
use std::marker::Model;

/// The hash of no bytes.
const HASH_START: u16 = 0x9dc5;

/// What a hash is multiplied by after each byte: an odd number, so that no bit of it is lost.
const HASH_FACTOR: u16 = 0x193;

/// What a search knows of an object without reading it (PKCS #11 v3.1, 5.7.7): whether it is private, hashes of some of its attributes,
/// and codes of others, 32 bytes in all. It has nothing of CKA_VALUE.
///
/// Each hash has 16 bits, and that of an attribute which the object doesn't have is 0. It is no secret and no check: two
/// values may have the same hash. A code stands for one value, so codes decide (`codes`).
#[derive(Clone, Copy, Debug, PartialEq, Eq)]
pub struct Mark {
    private: bool,
    class: u16,
    key_type: u16,
    label: u16,
    id: u16,
    application: u16,
    codes: [u8; CODED_LEN],
}

impl Model for Mark {
    ghost use Rattle.find.specs.Marks.{ObjectMark};

    ghost Value = { ObjectMark };

    ghost view = { λ m. record {
      private = m.private;
      class = m.class;
      key_type = m.key_type;
      label = m.label;
      id = m.id;
      application = m.application;
      codes = m.codes;
    } };

    ghost inverse = { λ m. record {
      private = m.private;
      class = m.class;
      key_type = m.key_type;
      label = m.label;
      id = m.id;
      application = m.application;
      codes = m.codes;
    } };
}

impl Mark {
    /// The mark of an object. It is the same for what may be seen of the object. Nothing is allocated.
    pub fn of(object: &Object) -> Mark
        ensures value { result ≡ mark_of object.now }
        ensures on_mask { result ≡ mark_of (mask object.now) }
    {
        Mark {
            private: object.flag(AttrType::Private),
            class: hash_at(object, AttrType::Class),
            key_type: hash_at(object, AttrType::KeyType),
            label: hash_at(object, AttrType::Label),
            id: hash_at(object, AttrType::Id),
            application: hash_at(object, AttrType::Application),
            codes: codes_of(object),
        }
    }

    /// Whether the object is private (PKCS #11 v3.1, 4.4, CKA_PRIVATE).
    pub fn is_private(&self) -> bool
        ensures { result ≡ self.now.private }
    {
        self.private
    }

    /// Whether the template finds the object, where marks decide that (`Wanted::is_decided`).
    pub fn is_found(&self, template: &Template) -> bool
        ensures value { result ≡ codes_match self.now.codes template.now }
        ensures decides { (object : List AnEntry) → self.now ≡ mark_of object → are_decided template.now ≡ true
            → result ≡ template_matches template.now object }
    {
        self.has_codes_of(template)
    }

    /// Whether the object has each value that is wanted, by its codes.
    fn has_codes_of(&self, template: &Template) -> bool
        ensures { result ≡ codes_match self.now.codes template.now }
    {
        codes_match(&self.codes, template.as_slice())
    }
}

/// What a template wants of marks: the hash of its first entry of each type that marks have, and what it says of CKA_PRIVATE
/// (PKCS #11 v3.1, 5.7.7). It is computed once for a search, so that a mark is tested by six comparisons.
#[derive(Clone, Copy)]
pub struct Wanted {
    private: Option<bool>,
    class: Option<u16>,
    key_type: Option<u16>,
    label: Option<u16>,
    id: Option<u16>,
    application: Option<u16>,
    is_decided: bool,
}

impl Model for Wanted {
    ghost use Rattle.find.specs.Marks.{WantedMarks};

    ghost Value = { WantedMarks };

    ghost view = { λ w. record {
      private = w.private;
      class = w.class;
      key_type = w.key_type;
      label = w.label;
      id = w.id;
      application = w.application;
      is_decided = w.is_decided;
    } };

    ghost inverse = { λ w. record {
      private = w.private;
      class = w.class;
      key_type = w.key_type;
      label = w.label;
      id = w.id;
      application = w.application;
      is_decided = w.is_decided;
    } };
}

impl Wanted {
    /// What the template wants of marks. Nothing is allocated.
    pub fn of(template: &Template) -> Wanted
        ensures { result ≡ wanted_of template.now }
    {
        let entries = template.as_slice();
        Wanted {
            private: wanted_truth(entries, AttrType::Private),
            class: wanted_hash(entries, AttrType::Class),
            key_type: wanted_hash(entries, AttrType::KeyType),
            label: wanted_hash(entries, AttrType::Label),
            id: wanted_hash(entries, AttrType::Id),
            application: wanted_hash(entries, AttrType::Application),
            is_decided: are_decided(entries),
        }
    }

    /// Whether a mark decides all of what is wanted, so that no object is read: the template has nothing but truth values, classes and key
    /// types. An empty one is so.
    pub fn is_decided(&self) -> bool
        ensures { result ≡ self.now.is_decided }
    {
        self.is_decided
    }

    /// Whether a search may pass over each object with this mark, since the template finds none of them (PKCS #11 v3.1,
    /// 5.7.7). An object that isn't excluded may still not match.
    pub fn excludes(&self, mark: &Mark) -> bool
        ensures value { result ≡ excludes self.now mark.now }
        ensures passes_over { (template object : List AnEntry) → self.now ≡ wanted_of template → mark.now ≡ mark_of object
            → result ≡ true → template_matches template object ≡ false }
    {
        self.wants_other(mark)
    }

    /// Whether something is wanted that the mark has otherwise.
    fn wants_other(&self, mark: &Mark) -> bool
        ensures { result ≡ excludes self.now mark.now }
    {
        is_other_truth(self.private, mark.private)
            || is_other_hash(self.class, mark.class)
            || is_other_hash(self.key_type, mark.key_type)
            || is_other_hash(self.label, mark.label)
            || is_other_hash(self.id, mark.id)
            || is_other_hash(self.application, mark.application)
    }
}

/// Whether a hash is wanted that isn't this one.
fn is_other_hash(wanted: Option<u16>, hash: u16) -> bool
    ensures { result ≡ is_other_hash wanted hash }
{
    match wanted {
        Some(wanted) => wanted != hash,
        None => false,
    }
}

/// Whether a truth value is wanted that isn't this one.
fn is_other_truth(wanted: Option<bool>, truth: bool) -> bool
    ensures { result ≡ is_other_truth wanted truth }
{
    match wanted {
        Some(wanted) => wanted != truth,
        None => false,
    }
}

/// The hash of the first entry of this type, if there is one.
fn wanted_hash(template: &[Entry], attribute: AttrType) -> Option<u16>
    ensures { result ≡ option_map hash_of (attribute_of template.now attribute) }
{
    match find_attribute(template, attribute.number()) {
        Some(value) => Some(hash_of(value)),
        None => None,
    }
}

/// Whether the first entry of this type is a truth value that is true, if there is one.
fn wanted_truth(template: &[Entry], attribute: AttrType) -> Option<bool>
    ensures { result ≡ option_map truth_of (attribute_of template.now attribute) }
{
    match find_attribute(template, attribute.number()) {
        Some(value) => Some(is_true(value)),
        None => None,
    }
}

/// Whether a value is a truth value that is true.
fn is_true(value: &[u8]) -> bool
    ensures { result ≡ truth_of value.now }
{
    value.len() == 1 && value[0] == 1
}

/// The hash of an attribute's value, or 0 where the object doesn't have the attribute.
fn hash_at(object: &Object, attribute: AttrType) -> u16
    ensures { result ≡ hash_in (attribute_of object.now attribute) }
{
    hash_in(object.get(attribute))
}

/// The hash of a value, or 0 where there is none.
fn hash_in(value: Option<&[u8]>) -> u16
    ensures { result ≡ hash_in (option_copied value.entry) }
{
    match value {
        Some(value) => hash_of(value),
        None => 0,
    }
}

/// The hash of a value.
#[tactic(auto, unfolding(crate::specs::Marks::hash_of))]
fn hash_of(value: &[u8]) -> u16
    ensures { result ≡ hash_of value.now }
{
    value.iter().fold(HASH_START, |hash, byte| {
        (hash ^ u16::from(*byte)).wrapping_mul(HASH_FACTOR)
    })
}
