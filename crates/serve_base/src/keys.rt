//! What calls require of the object that is to be a key.

ghost use Rattle.std.specs.Prelude.{◌≡◌, true, Some};
ghost use Rattle.ck_types.specs.declared.attr_type.AttrType.TheVariants as attr;
ghost use Rattle.attrs.specs.Masking.{is_secret_key};
ghost use Rattle.attrs.specs.Objects.{attribute_of, class_of, key_type_of};
ghost use Rattle.model_views.specs.Checked.{is_aes, is_of_type};

use aes_vector::Key;
use attrs::Object;
use ck_types::{KeyType, ObjectClass};
use desk::Desk;
use std::alloc::Global;

/// Whether an object is a key.
pub fn is_secret_key(object: &Object) -> bool
    ensures { result ≡ is_secret_key (class_of object.now) }
{
    match object.class() {
        ObjectClass::SecretKey => true,
        ObjectClass::Data => false,
    }
}

/// Whether it is an AES key.
pub fn is_aes(object: &Object) -> bool
    ensures { result ≡ is_aes (key_type_of object.now) }
{
    match object.key_type() {
        Some(KeyType::Aes) => true,
        Some(KeyType::GenericSecret) | None => false,
    }
}

/// Whether it is a key of this type.
pub fn is_of_type(object: &Object, key_type: KeyType) -> bool
    ensures { result ≡ is_of_type key_type (key_type_of object.now) }
{
    match object.key_type() {
        Some(own) => own.number() == key_type.number(),
        None => false,
    }
}

/// The key that is the value of an AES key's object.
pub fn aes_key(object: &Object) -> Key
    requires secret { is_secret_key (class_of object.now) ≡ true }
    requires aes { is_aes (key_type_of object.now) ≡ true }
    ensures { attribute_of object.now attr.Value ≡ Some result }
{
    let _entries = object.entries(); // brings its clause
    match Key::new(object.value()) {
        Some(key) => key,
        None => unreachable!(),
    }
}

/// The same for an application's desk, which keeps the last key that an operation began under. Nothing is seen of it.
pub fn operation_key(alloc: Global, desk: &mut Desk, object: &Object) -> Key
    requires secret { is_secret_key (class_of object.now) ≡ true }
    requires aes { is_aes (key_type_of object.now) ≡ true }
    ensures key { attribute_of object.now attr.Value ≡ Some result }
    ensures same { desk.new ≡ desk.old }
{
    let _entries = object.entries(); // brings its clause
    match desk.key_of(alloc, object.value()) {
        Some(key) => key,
        None => unreachable!(),
    }
}
