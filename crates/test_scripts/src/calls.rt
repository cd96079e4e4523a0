//! The calls of steps.

use crate::steps::{Asked, Given, GivenMechanism, Step};
use ck_calls::{AttributeQuery, Call, Mechanism, Query};
use ck_types::{Bytes, Entry, Template};
use std::alloc::Global;
use std::test::Fail;

/// The call of a step.
pub fn call_of(alloc: Global, step: Step) -> Result<Call, Fail> {
    match step {
        Step::GetTokenInfo(_)
        | Step::InitToken(..)
        | Step::InitPin(..)
        | Step::SetPin(..)
        | Step::Login(..)
        | Step::Logout(_) => token_call_of(alloc, step),
        Step::OpenSession(slot, flags) => Ok(Call::OpenSession { slot, flags }),
        Step::CloseSession(session) => Ok(Call::CloseSession { session }),
        Step::CloseAllSessions(slot) => Ok(Call::CloseAllSessions { slot }),
        Step::GetSessionInfo(session) => Ok(Call::GetSessionInfo { session }),
        Step::EncryptInit(..)
        | Step::Encrypt(..)
        | Step::EncryptUpdate(..)
        | Step::EncryptFinal(..) => encrypting_call_of(alloc, step),
        Step::DecryptInit(..)
        | Step::Decrypt(..)
        | Step::DecryptUpdate(..)
        | Step::DecryptFinal(..) => decrypting_call_of(alloc, step),
        Step::GetMechanismList(slot) => Ok(Call::GetMechanismList { slot }),
        Step::GetMechanismInfo(slot, mechanism) => Ok(Call::GetMechanismInfo { slot, mechanism }),
        Step::SignInit(..) | Step::Sign(..) | Step::SignUpdate(..) | Step::SignFinal(..) => {
            signing_call_of(alloc, step)
        }
        Step::VerifyInit(..) | Step::Verify(..) | Step::VerifyUpdate(..) | Step::VerifyFinal(..) =>
            verifying_call_of(alloc, step),
        Step::GenerateKey(..) | Step::WrapKey(..) | Step::UnwrapKey(..) => {
            key_call_of(alloc, step)
        }
        Step::GenerateRandom(session, len) => Ok(Call::GenerateRandom { session, len }),
        Step::FindObjectsInit(..)
        | Step::FindByNumber(..)
        | Step::FindObjects(..)
        | Step::FindObjectsFinal(_) => searching_call_of(alloc, step),
        _ => object_call_of(alloc, step),
    }
}

/// The call of a step on the token and its PINs.
fn token_call_of(alloc: Global, step: Step) -> Result<Call, Fail> {
    match step {
        Step::GetTokenInfo(slot) => Ok(Call::GetTokenInfo { slot }),
        Step::InitToken(slot, pin, label) => {
            let pin = Bytes::from_slice(alloc, pin)?;
            let label = Bytes::from_slice(alloc, label)?;
            Ok(Call::InitToken { slot, pin, label })
        }
        Step::InitPin(session, pin) => {
            let pin = Bytes::from_slice(alloc, pin)?;
            Ok(Call::InitPin { session, pin })
        }
        Step::SetPin(session, old_pin, new_pin) => {
            let old_pin = Bytes::from_slice(alloc, old_pin)?;
            let new_pin = Bytes::from_slice(alloc, new_pin)?;
            Ok(Call::SetPin {
                session,
                old_pin,
                new_pin,
            })
        }
        Step::Login(session, user_type, pin) => {
            let pin = Bytes::from_slice(alloc, pin)?;
            Ok(Call::Login {
                session,
                user_type,
                pin,
            })
        }
        Step::Logout(session) => Ok(Call::Logout { session }),
        _ => Err("this is no call of a PIN".into()),
    }
}

/// The call of a step that encrypts.
fn encrypting_call_of(alloc: Global, step: Step) -> Result<Call, Fail> {
    match step {
        Step::EncryptInit(session, given, key) => {
            let mechanism = mechanism_of(alloc, given)?;
            Ok(Call::EncryptInit {
                session,
                mechanism,
                key,
            })
        }
        Step::Encrypt(session, text, buffer_len) => {
            let data = Bytes::from_slice(alloc, text)?;
            Ok(Call::Encrypt {
                session,
                data,
                buffer_len,
            })
        }
        Step::EncryptUpdate(session, text, buffer_len) => {
            let part = Bytes::from_slice(alloc, text)?;
            Ok(Call::EncryptUpdate {
                session,
                part,
                buffer_len,
            })
        }
        Step::EncryptFinal(session, buffer_len) => Ok(Call::EncryptFinal {
            session,
            buffer_len,
        }),
        _ => Err("this encrypts nothing".into()),
    }
}

/// The call of a step that decrypts.
fn decrypting_call_of(alloc: Global, step: Step) -> Result<Call, Fail> {
    match step {
        Step::DecryptInit(session, given, key) => {
            let mechanism = mechanism_of(alloc, given)?;
            Ok(Call::DecryptInit {
                session,
                mechanism,
                key,
            })
        }
        Step::Decrypt(session, text, buffer_len) => {
            let encrypted_data = Bytes::from_slice(alloc, text)?;
            Ok(Call::Decrypt {
                session,
                encrypted_data,
                buffer_len,
            })
        }
        Step::DecryptUpdate(session, text, buffer_len) => {
            let encrypted_part = Bytes::from_slice(alloc, text)?;
            Ok(Call::DecryptUpdate {
                session,
                encrypted_part,
                buffer_len,
            })
        }
        Step::DecryptFinal(session, buffer_len) => Ok(Call::DecryptFinal {
            session,
            buffer_len,
        }),
        _ => Err("this decrypts nothing".into()),
    }
}

/// The call of a step that signs.
fn signing_call_of(alloc: Global, step: Step) -> Result<Call, Fail> {
    match step {
        Step::SignInit(session, given, key) => {
            let mechanism = mechanism_of(alloc, given)?;
            Ok(Call::SignInit {
                session,
                mechanism,
                key,
            })
        }
        Step::Sign(session, text, buffer_len) => {
            let data = Bytes::from_slice(alloc, text)?;
            Ok(Call::Sign {
                session,
                data,
                buffer_len,
            })
        }
        Step::SignUpdate(session, text) => {
            let part = Bytes::from_slice(alloc, text)?;
            Ok(Call::SignUpdate { session, part })
        }
        Step::SignFinal(session, buffer_len) => Ok(Call::SignFinal {
            session,
            buffer_len,
        }),
        _ => Err("this signs nothing".into()),
    }
}

/// The call of a step that verifies.
fn verifying_call_of(alloc: Global, step: Step) -> Result<Call, Fail> {
    match step {
        Step::VerifyInit(session, given, key) => {
            let mechanism = mechanism_of(alloc, given)?;
            Ok(Call::VerifyInit {
                session,
                mechanism,
                key,
            })
        }
        Step::Verify(session, text, signature) => {
            let data = Bytes::from_slice(alloc, text)?;
            let signature = Bytes::from_slice(alloc, signature)?;
            Ok(Call::Verify {
                session,
                data,
                signature,
            })
        }
        Step::VerifyUpdate(session, text) => {
            let part = Bytes::from_slice(alloc, text)?;
            Ok(Call::VerifyUpdate { session, part })
        }
        Step::VerifyFinal(session, signature) => {
            let signature = Bytes::from_slice(alloc, signature)?;
            Ok(Call::VerifyFinal { session, signature })
        }
        _ => Err("this verifies nothing".into()),
    }
}

/// The call of a step that makes, wraps or unwraps a key.
fn key_call_of(alloc: Global, step: Step) -> Result<Call, Fail> {
    match step {
        Step::GenerateKey(session, given, template) => {
            let mechanism = given_mechanism(alloc, given)?;
            let template = template_of(alloc, template)?;
            Ok(Call::GenerateKey {
                session,
                mechanism,
                template,
            })
        }
        Step::WrapKey(session, given, wrapping_key, key, buffer_len) => {
            let mechanism = given_mechanism(alloc, given)?;
            Ok(Call::WrapKey {
                session,
                mechanism,
                wrapping_key,
                key,
                buffer_len,
            })
        }
        Step::UnwrapKey(session, given, unwrapping_key, wrapped, template) => {
            let mechanism = given_mechanism(alloc, given)?;
            let wrapped_key = Bytes::from_slice(alloc, wrapped)?;
            let template = template_of(alloc, template)?;
            Ok(Call::UnwrapKey {
                session,
                mechanism,
                unwrapping_key,
                wrapped_key,
                template,
            })
        }
        _ => Err("this is no call of a key".into()),
    }
}

fn mechanism_of(alloc: Global, given: Option<GivenMechanism>) -> Result<Option<Mechanism>, Fail> {
    match given {
        Some(given) => Ok(Some(given_mechanism(alloc, given)?)),
        None => Ok(None),
    }
}

fn given_mechanism(alloc: Global, given: GivenMechanism) -> Result<Mechanism, Fail> {
    let (number, parameter) = given;
    Ok(Mechanism {
        mech_type: number,
        parameter: Bytes::from_slice(alloc, parameter)?,
    })
}

/// The call of a step on an object.
fn object_call_of(alloc: Global, step: Step) -> Result<Call, Fail> {
    match step {
        Step::CreateObject(session, given) => {
            let template = template_of(alloc, given)?;
            Ok(Call::CreateObject { session, template })
        }
        Step::CopyObject(session, object, given) => {
            let template = template_of(alloc, given)?;
            Ok(Call::CopyObject {
                session,
                object,
                template,
            })
        }
        Step::SetAttributeValue(session, object, given) => {
            let template = template_of(alloc, given)?;
            Ok(Call::SetAttributeValue {
                session,
                object,
                template,
            })
        }
        _ => plain_object_call_of(alloc, step),
    }
}

/// The call of a step on an object without a template.
fn plain_object_call_of(alloc: Global, step: Step) -> Result<Call, Fail> {
    match step {
        Step::DestroyObject(session, object) => Ok(Call::DestroyObject { session, object }),
        Step::GetObjectSize(session, object) => Ok(Call::GetObjectSize { session, object }),
        Step::GetAttributeValue(session, object, asked) => {
            let query = query_of(alloc, asked)?;
            Ok(Call::GetAttributeValue {
                session,
                object,
                query,
            })
        }
        _ => Err("this is no call".into()),
    }
}

/// The call of a step that searches.
fn searching_call_of(alloc: Global, step: Step) -> Result<Call, Fail> {
    match step {
        Step::FindObjectsInit(session, given) => {
            let template = template_of(alloc, given)?;
            Ok(Call::FindObjectsInit { session, template })
        }
        Step::FindByNumber(session, number, value) => {
            let mut template = Template::new(alloc);
            template.push(Entry {
                attr_type: number,
                value: Bytes::from_slice(alloc, value)?,
            })?;
            Ok(Call::FindObjectsInit { session, template })
        }
        Step::FindObjects(session, max_count) => Ok(Call::FindObjects { session, max_count }),
        Step::FindObjectsFinal(session) => Ok(Call::FindObjectsFinal { session }),
        _ => Err("this searches nothing".into()),
    }
}

fn template_of(alloc: Global, given: Given) -> Result<Template, Fail> {
    let mut template = Template::new(alloc);
    for (attribute, value) in given {
        template.push(Entry {
            attr_type: attribute.number(),
            value: Bytes::from_slice(alloc, value)?,
        })?;
    }
    Ok(template)
}

fn query_of(alloc: Global, asked: Asked) -> Result<Query, Fail> {
    let mut query = Query::new(alloc);
    for (number, buffer_len) in asked {
        query.push(AttributeQuery {
            attr_type: *number,
            buffer_len: *buffer_len,
        })?;
    }
    Ok(query)
}
