//! The frames that a client of the daemon sends.

use crate::calls::failed;
use aes_modes::Direction;
use ck_calls::{Call, Mechanism};
use ck_types::{AttrType, Bytes, Entry, KeyType, MechType, ObjectClass, Template};
use std::alloc::Global;
use std::io;
use wire::write_call;

/// The session, and the handle of its key.
const SESSION: u64 = 1;

pub(crate) const KEY: u64 = 1;

/// The value of each key.
pub(crate) const VALUE: [u8; 16] = [7; 16];

/// The number of the token's key that alone has its label.
pub(crate) const SOLE_KEY: u64 = 0;

/// The label of that key, of one key in a hundred, and of the others.
const SOLE: &[u8] = b"single";

const WANTED: &[u8] = b"wanted";

const OTHER: &[u8] = b"others";

/// The greatest number of handles that a call of C_FindObjects returns.
const MAX_COUNT: u64 = 1024;

/// The buffer of C_Encrypt and C_Decrypt.
const BUFFER_LEN: u64 = 1_048_576;

/// An attribute and its value.
type Attribute<'a> = (AttrType, &'a [u8]);

fn frame(alloc: Global, call: Call) -> io::Result<Vec<u8>> {
    let frame = write_call(alloc, &call).map_err(|_| failed());
    drop(call);
    frame
}

fn template(alloc: Global, attributes: &[Attribute<'_>]) -> io::Result<Template> {
    let mut template = Template::new(alloc);
    for (attribute, value) in attributes {
        template.push(Entry {
            attr_type: attribute.number(),
            value: Bytes::from_slice(alloc, value)?,
        })?;
    }
    Ok(template)
}

fn create(alloc: Global, attributes: &[Attribute<'_>]) -> io::Result<Vec<u8>> {
    let call = Call::CreateObject {
        session: SESSION,
        template: template(alloc, attributes)?,
    };
    frame(alloc, call)
}

/// C_OpenSession.
pub(crate) fn open_session(alloc: Global) -> io::Result<Vec<u8>> {
    frame(alloc, Call::OpenSession { slot: 0, flags: 6 })
}

/// C_GetSessionInfo.
pub(crate) fn session_info(alloc: Global) -> io::Result<Vec<u8>> {
    frame(alloc, Call::GetSessionInfo { session: SESSION })
}

/// C_CreateObject of an AES key of the session.
pub(crate) fn new_key(alloc: Global) -> io::Result<Vec<u8>> {
    let class = ObjectClass::SecretKey.number().to_be_bytes();
    let key_type = KeyType::Aes.number().to_be_bytes();
    create(
        alloc,
        &[
            (AttrType::Class, &class[..]),
            (AttrType::KeyType, &key_type[..]),
            (AttrType::Value, &VALUE[..]),
            (AttrType::Private, &[0][..]),
            (AttrType::Token, &[0][..]),
        ],
    )
}

/// The label of the token's key that has this number.
fn label_of(number: u64) -> &'static [u8] {
    if number == SOLE_KEY {
        SOLE
    } else if number % 100 == 99 {
        WANTED
    } else {
        OTHER
    }
}

/// C_CreateObject of the AES key of the token that has this number, which is its CKA_ID.
pub(crate) fn new_token_key(alloc: Global, number: u64) -> io::Result<Vec<u8>> {
    let class = ObjectClass::SecretKey.number().to_be_bytes();
    let key_type = KeyType::Aes.number().to_be_bytes();
    let id = number.to_be_bytes();
    create(
        alloc,
        &[
            (AttrType::Class, &class[..]),
            (AttrType::KeyType, &key_type[..]),
            (AttrType::Value, &VALUE[..]),
            (AttrType::Private, &[0][..]),
            (AttrType::Token, &[1][..]),
            (AttrType::Label, label_of(number)),
            (AttrType::Id, &id[..]),
        ],
    )
}

/// C_GetObjectSize.
pub(crate) fn object_size(alloc: Global, object: u64) -> io::Result<Vec<u8>> {
    let call = Call::GetObjectSize {
        session: SESSION,
        object,
    };
    frame(alloc, call)
}

/// C_DestroyObject.
pub(crate) fn destroy(alloc: Global, object: u64) -> io::Result<Vec<u8>> {
    let call = Call::DestroyObject {
        session: SESSION,
        object,
    };
    frame(alloc, call)
}

/// What a search asks for.
#[derive(Clone, Copy)]
pub(crate) enum Sought {
    /// The label of one key.
    SoleLabel,
    /// The label of one key in a hundred.
    Label,
    /// The CKA_ID of the key that has this number.
    Id(u64),
    Class,
    /// CKA_EXTRACTABLE, which no key has set, and which no mark has.
    Extractable,
}

fn find_init(alloc: Global, sought: Sought) -> io::Result<Vec<u8>> {
    let class = ObjectClass::SecretKey.number().to_be_bytes();
    let id = match sought {
        Sought::Id(number) => number,
        _ => 0,
    };
    let id = id.to_be_bytes();
    let attribute = match sought {
        Sought::SoleLabel => (AttrType::Label, SOLE),
        Sought::Label => (AttrType::Label, WANTED),
        Sought::Id(_) => (AttrType::Id, &id[..]),
        Sought::Class => (AttrType::Class, &class[..]),
        Sought::Extractable => (AttrType::Extractable, &[1][..]),
    };
    let call = Call::FindObjectsInit {
        session: SESSION,
        template: template(alloc, &[attribute])?,
    };
    frame(alloc, call)
}

fn find(alloc: Global) -> io::Result<Vec<u8>> {
    let call = Call::FindObjects {
        session: SESSION,
        max_count: MAX_COUNT,
    };
    frame(alloc, call)
}

fn find_final(alloc: Global) -> io::Result<Vec<u8>> {
    frame(alloc, Call::FindObjectsFinal { session: SESSION })
}

/// C_FindObjectsInit, C_FindObjects and C_FindObjectsFinal.
pub(crate) fn search(alloc: Global, sought: Sought) -> io::Result<Vec<Vec<u8>>> {
    let mut frames = Vec::new(alloc);
    frames.push(find_init(alloc, sought)?)?;
    frames.push(find(alloc)?)?;
    frames.push(find_final(alloc)?)?;
    Ok(frames)
}

fn init(
    alloc: Global,
    mechanism: MechType,
    parameter: &[u8],
    direction: Direction,
) -> io::Result<Vec<u8>> {
    let mechanism = Some(Mechanism {
        mech_type: mechanism.number(),
        parameter: Bytes::from_slice(alloc, parameter)?,
    });
    let call = match direction {
        Direction::Encrypt => Call::EncryptInit {
            session: SESSION,
            mechanism,
            key: KEY,
        },
        Direction::Decrypt => Call::DecryptInit {
            session: SESSION,
            mechanism,
            key: KEY,
        },
    };
    frame(alloc, call)
}

fn single(alloc: Global, direction: Direction, text: &[u8]) -> io::Result<Vec<u8>> {
    let data = Bytes::from_slice(alloc, text)?;
    let call = match direction {
        Direction::Encrypt => Call::Encrypt {
            session: SESSION,
            data,
            buffer_len: Some(BUFFER_LEN),
        },
        Direction::Decrypt => Call::Decrypt {
            session: SESSION,
            encrypted_data: data,
            buffer_len: Some(BUFFER_LEN),
        },
    };
    frame(alloc, call)
}

/// C_EncryptInit and C_Encrypt of a text, or C_DecryptInit and C_Decrypt, by a mechanism with a parameter.
pub(crate) fn operation(
    alloc: Global,
    mechanism: MechType,
    parameter: &[u8],
    direction: Direction,
    text: &[u8],
) -> io::Result<Vec<Vec<u8>>> {
    let mut frames = Vec::new(alloc);
    frames.push(init(alloc, mechanism, parameter, direction)?)?;
    frames.push(single(alloc, direction, text)?)?;
    Ok(frames)
}
