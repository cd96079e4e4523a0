//! The replies that applications get.

use crate::steps::{Told, Values};
use ck_calls::{AttributeValue, MechanismInfo, Output, Reply, TokenInfo};
use ck_types::{Bytes, Items, Label};
use std::alloc::Global;
use std::test::Fail;

/// The reply that an application gets, if it gets any.
pub fn reply_of(alloc: Global, told: Told) -> Result<Option<Reply>, Fail> {
    match told {
        Told::Nothing => Ok(None),
        Told::Code(code) => Ok(Some(Reply::Code(code))),
        Told::TokenInfo(label, flags, session_count, rw_session_count) => {
            let label = Label::from_slice(label).ok_or("a label has 32 bytes")?;
            Ok(Some(Reply::TokenInfo(TokenInfo {
                label,
                flags,
                session_count,
                rw_session_count,
            })))
        }
        Told::MechanismList(numbers) => {
            let numbers = Items::from_slice(alloc, numbers)?;
            Ok(Some(Reply::MechanismList(numbers)))
        }
        Told::MechanismInfo(min_key_size, max_key_size, flags) => {
            Ok(Some(Reply::MechanismInfo(MechanismInfo {
                min_key_size,
                max_key_size,
                flags,
            })))
        }
        Told::Session(session) => Ok(Some(Reply::Session(session))),
        Told::SessionInfo(info) => Ok(Some(Reply::SessionInfo(info))),
        Told::Object(object) => Ok(Some(Reply::Object(object))),
        Told::ObjectSize(size) => Ok(Some(Reply::ObjectSize(size))),
        Told::Objects(handles) => {
            let handles = Items::from_slice(alloc, handles)?;
            Ok(Some(Reply::Objects(handles)))
        }
        Told::AttributeValues(code, told) => {
            let values = values_of(alloc, told)?;
            Ok(Some(Reply::AttributeValues { code, values }))
        }
        Told::Length(len) => Ok(Some(Reply::Output(Output::Length(len)))),
        Told::Data(bytes) => {
            let data = Bytes::from_slice(alloc, bytes)?;
            Ok(Some(Reply::Output(Output::Data(data))))
        }
        Told::BufferTooSmall(len) => Ok(Some(Reply::BufferTooSmall(len))),
        Told::Random(bytes) => {
            let bytes = Bytes::from_slice(alloc, bytes)?;
            Ok(Some(Reply::Random(bytes)))
        }
    }
}

fn values_of(alloc: Global, told: Values) -> Result<Items<AttributeValue>, Fail> {
    let mut values = Items::new(alloc);
    for (len, bytes) in told {
        let value = match bytes {
            Some(bytes) => Some(Bytes::from_slice(alloc, bytes)?),
            None => None,
        };
        values.push(AttributeValue { len: *len, value })?;
    }
    Ok(values)
}
