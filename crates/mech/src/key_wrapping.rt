//! Keys that are wrapped and unwrapped, as work.

ghost use Rattle.std.specs.Prelude.{◌≡◌, ◌≤◌, ◌+◌, ◌%◌, length, IfErr, IfOk, IfSome, IsTrue};
ghost use Rattle.mech.specs.declared.work.Work.TheVariants.{Unwrap, Wrap};
ghost use Rattle.mech.specs.Rooms.{HasRoom};
ghost use Rattle.mech.specs.Runnable.{is_runnable};
ghost use Rattle.mech.specs.Works.{outcome_of};
ghost use Rattle.mech.specs.Wrappings.{value_wrapped_in};

use crate::outcome::Outcome;
use crate::work::Work;
use aes_kw::{KwFault, unwrap, wrap};
use aes_vector::{Key, are_bytes};
use ck_types::{Bytes, SessionState, Template};
use std::alloc::Global;
use templates::unwrapped;

/// Wraps the value of a key, or returns the work if an allocation fails.
pub(crate) fn wrapped(alloc: Global, key: Key, value: Bytes) -> Result<Outcome, Work>
    requires { IsTrue (is_runnable (Wrap key value)) }
    ensures value { IfOk result (λ o. o ≡ outcome_of (Wrap key value)) }
    ensures room { IfOk result (λ o. HasRoom (Wrap key value) o) }
    ensures back { IfErr result (λ back. back ≡ Wrap key value) }
{
    match wrap(alloc, &key, value.as_slice()) {
        Ok(bytes) => Ok(Outcome::Wrapped(Bytes::from_vec(bytes))),
        Err(_) => Err(Work::Wrap { key, value }),
    }
}

/// The value that is wrapped in the bytes, or none where they are the wrapping of no value. It fails only if an allocation fails.
fn value_in(alloc: Global, key: &Key, bytes: &[u8]) -> Result<Option<Bytes>, KwFault>
    requires least { 24 ≤ length bytes.now }
    requires whole { length bytes.now % 8 ≡ 0 }
    ensures value { IfOk result (λ found. found ≡ value_wrapped_in key.now bytes.now) }
    ensures size { IfOk result (λ found. IfSome found (λ value. length value + 8 ≡ length bytes.now)) }
{
    match unwrap(alloc, key, bytes) {
        Ok(value) => {
            are_bytes(&value);
            Ok(Some(Bytes::from_vec(value)))
        }
        Err(KwFault::BadCheck) => Ok(None),
        Err(fault) => Err(fault),
    }
}

/// What is made of the wrapped value, or nothing because an allocation failed.
fn key_in(
    alloc: Global,
    key: &Key,
    bytes: &[u8],
    state: SessionState,
    template: &Template,
    random: &[u8; 16],
) -> Option<Outcome>
    requires { IsTrue (is_runnable (Unwrap key.now bytes.now state template.now random.now)) }
    ensures { IfSome result (λ o. o ≡ outcome_of (Unwrap key.now bytes.now state template.now random.now)) }
{
    let Some(value) = value_in(alloc, key, bytes).ok()? else {
        return Some(Outcome::BadWrapping);
    };
    let object = unwrapped(alloc, state, template, value.as_slice(), random).ok()?;
    Some(Outcome::Unwrapped(object))
}

/// Unwraps the value of a key, and makes the key of it; or returns the work if an allocation fails.
pub(crate) fn key_unwrapped(
    alloc: Global,
    key: Key,
    bytes: Bytes,
    state: SessionState,
    template: Template,
    random: [u8; 16],
) -> Result<Outcome, Work>
    requires { IsTrue (is_runnable (Unwrap key bytes state template random)) }
    ensures value { IfOk result (λ o. o ≡ outcome_of (Unwrap key bytes state template random)) }
    ensures back { IfErr result (λ back. back ≡ Unwrap key bytes state template random) }
{
    match key_in(alloc, &key, bytes.as_slice(), state, &template, &random) {
        Some(outcome) => Ok(outcome),
        None => Err(Work::Unwrap {
            key,
            wrapped: bytes,
            state,
            template,
            random,
        }),
    }
}
