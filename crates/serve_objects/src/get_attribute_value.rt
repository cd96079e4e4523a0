//! C_GetAttributeValue (PKCS #11 v3.1, 5.7.5).

ghost use Rattle.std.specs.Prelude.{◌≡◌, ◌≤◌, ◌∷◌, [], IfOk, length};
ghost use Rattle.model_views.specs.Answering.{Replies};
ghost use Rattle.model_answers.specs.GetAttributeValue.{attribute_told, attributes_told, code_of_all, get_attribute_value, has_code, unavailable};
ghost use Rattle.serve_base.specs.Refusing.{EndsNone, IsDoneIf};
ghost use Rattle.serve_base.specs.Short.{IsShort};

use attrs::{Object, find_attribute};
use ck_calls::{AttributeQuery, AttributeValue, Query, Reply};
use ck_types::{Bytes, Items, MAX_ENTRIES, Rv, UNAVAILABLE_INFORMATION};
use desk::Desk;
use guard::reveals_number;
use keep::Keep;
use precede::Condition;
use serve_base::{Refusal, Store, object_by_handle};
use std::alloc::{AllocError, Global};

/// C_GetAttributeValue (PKCS #11 v3.1, 5.7.5).
/// Codes: the checks of C_GetAttributeValue (`precede`), and the code of the whole. Returns the wanted attributes of the object under a
/// handle, each whatever the others give. Changes nothing.
pub fn serve<K: Keep>(
    alloc: Global,
    desk: &Desk,
    store: &mut Store<K>,
    session: u64,
    handle: u64,
    query: &Query,
) -> Result<Reply, Refusal>
    ensures { IsDoneIf (length query.now ≤ MAX_ENTRIES) EndsNone K.terms Replies 0
        (λ c v. get_attribute_value v session handle query.now) store.old store.new desk.now result desk.now }
{
    let _ = desk.state(session).ok_or(Condition::NoSession)?;
    let found = object_by_handle(alloc, desk, store, handle)?.ok_or(Condition::NoObject)?;
    Ok(tell(alloc, &found.object, query.as_slice())?)
}

/// The wanted attributes, and the code of the whole.
fn tell(alloc: Global, object: &Object, query: &[AttributeQuery]) -> Result<Reply, AllocError>
    ensures told { IfOk result (λ reply. reply ≡ attributes_told object.now query.now) }
    ensures short { IfOk result (λ reply. length query.now ≤ MAX_ENTRIES → IsShort reply) }
{
    let _entries = object.entries(); // brings its clause
    let mut code = Rv::Ok;
    let mut values = Items::new(alloc);
    for asked in query {
        let (own_code, value) = tell_one(alloc, object, asked)?;
        code = code_of_both(code, own_code);
        values.push(value)?;
    }
    Ok(Reply::AttributeValues { code, values })
}

/// An attribute's code, its length, and its value where the buffer is long enough for it.
fn tell_one(
    alloc: Global,
    object: &Object,
    asked: &AttributeQuery,
) -> Result<(Rv, AttributeValue), AllocError>
    ensures { IfOk result (λ told. told ≡ attribute_told object.now asked.now) }
{
    if !reveals_number(object, asked.attr_type) {
        return Ok(unavailable(Rv::AttributeSensitive));
    }
    let Some(bytes) = find_attribute(object.entries(), asked.attr_type) else {
        return Ok(unavailable(Rv::AttributeTypeInvalid));
    };
    let len = bytes.len() as u64;
    let value = match asked.buffer_len {
        None => None,
        Some(buffer_len) if buffer_len < len => return Ok(unavailable(Rv::BufferTooSmall)),
        Some(_) => Some(Bytes::from_slice(alloc, bytes)?),
    };
    Ok((Rv::Ok, AttributeValue { len, value }))
}

/// CK_UNAVAILABLE_INFORMATION instead of a length.
fn unavailable(code: Rv) -> (Rv, AttributeValue)
    ensures { result ≡ unavailable code }
{
    let value = AttributeValue {
        len: UNAVAILABLE_INFORMATION,
        value: None,
    };
    (code, value)
}

/// The code of the whole, where these are the codes of its parts.
fn code_of_both(one: Rv, other: Rv) -> Rv
    ensures { result ≡ code_of_all (one ∷ other ∷ []) }
{
    if is_either(Rv::AttributeSensitive, one, other) {
        Rv::AttributeSensitive
    } else if is_either(Rv::AttributeTypeInvalid, one, other) {
        Rv::AttributeTypeInvalid
    } else if is_either(Rv::BufferTooSmall, one, other) {
        Rv::BufferTooSmall
    } else {
        Rv::Ok
    }
}

fn is_either(code: Rv, one: Rv, other: Rv) -> bool
    ensures { result ≡ has_code code (one ∷ other ∷ []) }
{
    one.number() == code.number() || other.number() == code.number()
}
