use ck_calls::{
    AttributeQuery, AttributeValue, Call, Function, Mechanism, MechanismInfo, Output, Query, Reply,
    SessionInfo, TokenInfo,
};
use ck_types::{Bytes, Entry, Items, Label, Rv, SessionState, Template};
use std::alloc::Global;
use std::test::*;
use wire::{WireFault, read_call, read_reply, write_call, write_reply};

fn bytes(alloc: Global, text: &[u8]) -> Result<Bytes, Fail> {
    Ok(Bytes::from_slice(alloc, text)?)
}

fn template(alloc: Global, count: u64) -> Result<Template, Fail> {
    let mut entries = Template::new(alloc);
    for number in 0..count {
        let value = bytes(alloc, b"value")?;
        entries.push(Entry {
            attr_type: number,
            value,
        })?;
    }
    Ok(entries)
}

fn query(alloc: Global) -> Result<Query, Fail> {
    let mut query = Query::new(alloc);
    query.push(AttributeQuery {
        attr_type: 3,
        buffer_len: Some(64),
    })?;
    query.push(AttributeQuery {
        attr_type: 17,
        buffer_len: None,
    })?;
    Ok(query)
}

fn mechanism(alloc: Global, number: u64, parameter: &[u8]) -> Result<Mechanism, Fail> {
    let parameter = bytes(alloc, parameter)?;
    Ok(Mechanism {
        mech_type: number,
        parameter,
    })
}

/// How many calls there are below.
const CALL_COUNT: usize = 9;

/// Calls that have each kind of field, and the length of their frames.
fn call_of(alloc: Global, place: usize) -> Result<(Call, usize), Fail> {
    let session = 1;
    let key = 2;
    Ok(match place {
        0 => (Call::GetTokenInfo { slot: 0 }, 14),
        1 => {
            let pin = bytes(alloc, b"1234")?;
            (
                Call::Login {
                    session,
                    user_type: 1,
                    pin,
                },
                30,
            )
        }
        2 => {
            let template = template(alloc, 32)?;
            (Call::CreateObject { session, template }, 562)
        }
        3 => {
            let query = query(alloc)?;
            (
                Call::GetAttributeValue {
                    session,
                    object: 2,
                    query,
                },
                52,
            )
        }
        4 => {
            let mechanism = Some(mechanism(alloc, 0x1082, &[7; 16])?);
            (
                Call::EncryptInit {
                    session,
                    mechanism,
                    key,
                },
                51,
            )
        }
        5 => (
            Call::EncryptInit {
                session,
                mechanism: None,
                key,
            },
            23,
        ),
        6 => (verify(alloc)?, 26),
        7 => {
            let mechanism = mechanism(alloc, 0x2109, &[])?;
            let buffer_len = None;
            (
                Call::WrapKey {
                    session,
                    mechanism,
                    wrapping_key: 2,
                    key: 3,
                    buffer_len,
                },
                43,
            )
        }
        _ => (Call::GenerateRandom { session, len: 16 }, 22),
    })
}

fn verify(alloc: Global) -> Result<Call, Fail> {
    Ok(Call::Verify {
        session: 1,
        data: bytes(alloc, b"data")?,
        signature: bytes(alloc, &[])?,
    })
}

/// Whether the call that is read from the frame has this frame: no other call has it.
fn is_frame_read(alloc: Global, frame: &[u8]) -> Result<bool, Fail> {
    let again = read_call(alloc, frame.get(4..).unwrap_or(&[]))?;
    let written = write_call(alloc, &again);
    drop(again);
    Ok(written?.as_slice() == frame)
}

/// Whether the call has a frame of so many bytes, and is read from it.
fn is_call_read_again(alloc: Global, call: &Call, len: usize) -> Result<bool, Fail> {
    let frame = write_call(alloc, call)?;
    Ok(frame.len() == len && is_frame_read(alloc, &frame)?)
}

fn is_call_at_read_again(alloc: Global, place: usize) -> Result<bool, Fail> {
    let (call, len) = call_of(alloc, place)?;
    is_call_read_again(alloc, &call, len)
}

#[test]
fn a_call_that_is_written_is_read(rt: HostRuntime) -> Result<(), Fail> {
    for place in 0..CALL_COUNT {
        let is_read = is_call_at_read_again(rt.alloc(), place)?;
        assert!(rt; is_read, "call {place}");
    }
    Ok(())
}

fn values(alloc: Global) -> Result<Items<AttributeValue>, Fail> {
    let mut values = Items::new(alloc);
    values.push(AttributeValue {
        len: 2,
        value: Some(bytes(alloc, b"k1")?),
    })?;
    values.push(AttributeValue {
        len: u64::MAX,
        value: None,
    })?;
    Ok(values)
}

fn handles(alloc: Global) -> Result<Items<u64>, Fail> {
    let mut handles = Items::new(alloc);
    handles.push(7)?;
    Ok(handles)
}

const TOKEN: TokenInfo = TokenInfo {
    label: Label::BLANK,
    flags: 5,
    session_count: 1,
    rw_session_count: 1,
};

const MECHANISM: MechanismInfo = MechanismInfo {
    min_key_size: 16,
    max_key_size: 32,
    flags: 0x300,
};

const SESSION: SessionInfo = SessionInfo {
    slot: 0,
    state: SessionState::RwUser,
    read_write: true,
};

/// How many replies there are below.
const REPLY_COUNT: usize = 15;

/// Replies of each shape, with a function that has it and the length of their frames.
fn reply_of(alloc: Global, place: usize) -> Result<(Reply, Function, usize), Fail> {
    Ok(match place {
        0 => (Reply::Code(Rv::Ok), Function::CloseSession, 12),
        1 => (Reply::Code(Rv::PinLocked), Function::GetTokenInfo, 12),
        2 => (Reply::TokenInfo(TOKEN), Function::GetTokenInfo, 100),
        3 => (
            Reply::MechanismList(Items::new(alloc)),
            Function::GetMechanismList,
            16,
        ),
        4 => (
            Reply::MechanismInfo(MECHANISM),
            Function::GetMechanismInfo,
            36,
        ),
        5 => (Reply::Session(1), Function::OpenSession, 20),
        6 => (Reply::SessionInfo(SESSION), Function::GetSessionInfo, 44),
        7 => (Reply::Object(2), Function::UnwrapKey, 20),
        8 => (Reply::ObjectSize(309), Function::GetObjectSize, 20),
        9 => {
            let values = values(alloc)?;
            let code = Rv::AttributeSensitive;
            (
                Reply::AttributeValues { code, values },
                Function::GetAttributeValue,
                36,
            )
        }
        10 => (Reply::Objects(handles(alloc)?), Function::FindObjects, 24),
        11 => (Reply::Output(Output::Length(16)), Function::Encrypt, 21),
        12 => (
            Reply::Output(Output::Data(bytes(alloc, &[9; 16])?)),
            Function::WrapKey,
            33,
        ),
        13 => (Reply::BufferTooSmall(16), Function::SignFinal, 21),
        _ => (
            Reply::Random(bytes(alloc, &[1; 5])?),
            Function::GenerateRandom,
            21,
        ),
    })
}

/// Whether this is the frame of the reply to a call of the function.
fn is_frame_to(
    alloc: Global,
    frame: &[u8],
    function: Function,
    reply: &Reply,
) -> Result<bool, Fail> {
    let again = read_reply(alloc, function.number(), frame.get(4..).unwrap_or(&[]))?;
    let is_same = again == *reply;
    drop(again);
    Ok(is_same)
}

/// Whether the reply has a frame of so many bytes, and is read from it.
fn is_reply_read_again(
    alloc: Global,
    reply: &Reply,
    function: Function,
    len: usize,
) -> Result<bool, Fail> {
    let frame = write_reply(alloc, reply)?;
    Ok(frame.len() == len && is_frame_to(alloc, &frame, function, reply)?)
}

fn is_reply_at_read_again(alloc: Global, place: usize) -> Result<bool, Fail> {
    let (reply, function, len) = reply_of(alloc, place)?;
    is_reply_read_again(alloc, &reply, function, len)
}

#[test]
fn a_reply_that_is_written_is_read(rt: HostRuntime) -> Result<(), Fail> {
    for place in 0..REPLY_COUNT {
        let is_read = is_reply_at_read_again(rt.alloc(), place)?;
        assert!(rt; is_read, "reply {place}");
    }
    Ok(())
}

/// Why a reply has no frame.
fn refusal_of(alloc: Global, reply: &Reply) -> Option<WireFault> {
    write_reply(alloc, reply).err()
}

/// Why a C_GenerateRandom of so many bytes has no reply.
fn refusal_of_random(alloc: Global, len: usize) -> Result<Option<WireFault>, Fail> {
    let random = vec![in alloc; 0u8; len]?;
    let reply = Reply::Random(Bytes::from_vec(random));
    let refusal = refusal_of(alloc, &reply);
    drop(reply);
    Ok(refusal)
}

/// Why a C_CreateObject with so many attributes, each of so many bytes, has no frame.
fn refusal_of_template(alloc: Global, count: u64, len: usize) -> Result<Option<WireFault>, Fail> {
    let mut template = Template::new(alloc);
    for number in 0..count {
        let value = Bytes::from_vec(vec![in alloc; 0u8; len]?);
        template.push(Entry {
            attr_type: number,
            value,
        })?;
    }
    let call = Call::CreateObject {
        session: 1,
        template,
    };
    let refusal = write_call(alloc, &call).err();
    drop(call);
    Ok(refusal)
}

#[test]
fn a_list_that_is_too_long_is_malformed(rt: HostRuntime) -> Result<(), Fail> {
    let refused = refusal_of_template(rt.alloc(), 33, 5)?;
    assert_eq!(rt; refused, Some(WireFault::Malformed));
    Ok(())
}

// 33 attributes in a payload of 1,048,556 bytes, and with a byte more in each.
#[test]
fn a_malformed_payload_above_its_limit_is_too_long(rt: HostRuntime) -> Result<(), Fail> {
    let refused = refusal_of_template(rt.alloc(), 33, 31_762)?;
    assert_eq!(rt; refused, Some(WireFault::Malformed));
    let refused = refusal_of_template(rt.alloc(), 33, 31_763)?;
    assert_eq!(rt; refused, Some(WireFault::TooLong));
    Ok(())
}

#[test]
fn a_code_that_no_function_answers_with_values_is_malformed(rt: HostRuntime) {
    let reply = Reply::AttributeValues {
        code: Rv::PinIncorrect,
        values: Items::new(rt.alloc()),
    };
    assert_eq!(rt; refusal_of(rt.alloc(), &reply), Some(WireFault::Malformed));
}

// The greatest C_GenerateRandom that a payload could carry, and a byte more.
#[test]
fn a_payload_above_its_limit_is_too_long(rt: HostRuntime) -> Result<(), Fail> {
    let refused = refusal_of_random(rt.alloc(), 1_048_576 - 12)?;
    assert_eq!(rt; refused, None);
    let refused = refusal_of_random(rt.alloc(), 1_048_576 - 11)?;
    assert_eq!(rt; refused, Some(WireFault::TooLong));
    Ok(())
}
