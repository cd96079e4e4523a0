//! Objects.

ghost use Rattle.std.specs.Prelude.{◌≡◌, IfOk, IfSome, IfNone, Some, true, false};
ghost use Rattle.std.specs.Option.{option_copied};
ghost use Rattle.ck_types.specs.declared.attr_type.AttrType.TheVariants as attr;
ghost use Rattle.attrs.specs.Objects.{IsObject, attribute_of, class_of, flag, is_object, key_type_of, number_of};

use crate::check::{attribute_in, class_in, is_object_in, key_type_in, number_in};
use ck_types::{AttrType, Entry, Items, KeyType, ObjectClass};
use std::alloc::{AllocError, Global};
use std::marker::Model;
use std::sync::Arc;

/// A data object or a secret key: all the attributes of its class, each in its form. They never change, so copies share them.
#[derive(Drop)]
pub struct Object {
    entries: Arc<Items<Entry>, Global>,
}

impl Model for Object {
    ghost use Rattle.std.specs.Prelude.{◌≡◌, List, true};
    ghost use Rattle.ck_types.specs.declared.entry.Entry.{Entry};
    ghost use Rattle.attrs.specs.Objects.{is_object};

    ghost Value = { List Entry };

    ghost view = { λ o. o.entries.value };

    ghost invariant = { λ o. is_object o.entries.value ≡ true };
}

impl Clone for Object {
    ghost is_clone = { λ object copy. object ≡ copy };

    fn clone(&self) -> Result<Object, AllocError> {
        Ok(Object {
            entries: Arc::try_clone(&self.entries)?,
        })
    }
}

impl Object {
    /// The object with these attributes, by rising number. It fails only where an allocation does.
    pub fn new(alloc: Global, entries: Items<Entry>) -> Result<Object, AllocError>
        requires { IsObject entries }
        ensures { IfOk result (λ object. object ≡ entries) }
    {
        Ok(Object {
            entries: Arc::new(alloc, entries)?,
        })
    }

    /// The object with these attributes, or `None` where they are not those of one or not by rising number. It fails only where an
    /// allocation does.
    pub fn from_entries(alloc: Global, entries: Items<Entry>) -> Result<Option<Object>, AllocError>
        ensures some { IfOk result (λ found. IfSome found (λ object. object ≡ entries)) }
        ensures none { IfOk result (λ found. IfNone found (is_object entries ≡ false)) }
    {
        if is_object_in(entries.as_slice()) {
            Ok(Some(Object::new(alloc, entries)?))
        } else {
            Ok(None)
        }
    }

    /// The attributes by rising number.
    pub fn entries(&self) -> &[Entry]
        ensures entries { result.now ≡ self.now }
        ensures object { IsObject self.now }
    {
        self.entries.as_slice()
    }

    /// The value of an attribute, or none where the object doesn't have it.
    pub fn get(&self, attribute: AttrType) -> Option<&[u8]>
        ensures { option_copied result ≡ attribute_of self.now attribute }
    {
        attribute_in(self.entries.as_slice(), attribute)
    }

    /// Whether the object has the attribute, and it is true.
    pub fn flag(&self, attribute: AttrType) -> bool
        ensures { result ≡ flag self.now attribute }
    {
        match self.get(attribute) {
            None => false,
            Some(value) => value.len() == 1 && value[0] == 1,
        }
    }

    /// The number that is the attribute's value, or none where the object doesn't have it or it is no
    /// number of eight bytes.
    pub fn number(&self, attribute: AttrType) -> Option<u64>
        ensures { result ≡ number_of (attribute_of self.now attribute) }
    {
        number_in(self.get(attribute))
    }

    pub fn class(&self) -> ObjectClass
        ensures { class_of self.now ≡ Some result }
    {
        match class_in(self.entries.as_slice()) {
            Some(class) => class,
            None => unreachable!(),
        }
    }

    /// The type of a key, or none for a data object.
    pub fn key_type(&self) -> Option<KeyType>
        ensures { result ≡ key_type_of self.now }
    {
        key_type_in(self.entries.as_slice())
    }

    /// CKA_VALUE, which each object has.
    pub fn value(&self) -> &[u8]
        ensures { attribute_of self.now attr.Value ≡ Some result.now }
    {
        match attribute_in(self.entries(), AttrType::Value) {
            Some(value) => value,
            None => unreachable!(),
        }
    }
}
