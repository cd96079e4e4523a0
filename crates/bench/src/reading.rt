// C_GetAttributeValue among many token objects.

use crate::calls::{SESSION, new_token, open, succeeds};
use crate::run::{Run, Unit};
use ck_calls::{AttributeQuery, Call, Query};
use ck_types::{AttrType, Bytes, Entry, Template};
use keep::ListKeep;
use std::alloc::{AllocError, Global};
use std::io;
use std::time::CpuClock;
use token::Token;

/// A public data object of the token.
const DATA: [(AttrType, &[u8]); 3] = [
    (AttrType::Class, &[0; 8]),
    (AttrType::Token, &[1]),
    (AttrType::Private, &[0]),
];

fn add(
    alloc: Global,
    template: &mut Template,
    attribute: AttrType,
    value: &[u8],
) -> Result<(), AllocError> {
    template.push(Entry {
        attr_type: attribute.number(),
        value: Bytes::from_slice(alloc, value)?,
    })?;
    Ok(())
}

/// The call that makes a public data object of the token with this label.
pub(crate) fn new_object(alloc: Global, label: &[u8]) -> Result<Call, AllocError> {
    let mut template = Template::new(alloc);
    for (attribute, value) in DATA {
        add(alloc, &mut template, attribute, value)?;
    }
    add(alloc, &mut template, AttrType::Label, label)?;
    Ok(Call::CreateObject {
        session: SESSION,
        template,
    })
}

fn label_of(alloc: Global, object: u64) -> Result<Call, AllocError> {
    let mut query = Query::new(alloc);
    query.push(AttributeQuery {
        attr_type: AttrType::Label.number(),
        buffer_len: Some(64),
    })?;
    Ok(Call::GetAttributeValue {
        session: SESSION,
        object,
        query,
    })
}

// Opens a session and makes so many token objects, whose handles are the numbers from 1 on.
fn fill(alloc: Global, token: &mut Token<ListKeep>, objects: u32) -> io::Result<()> {
    open(alloc, token)?;
    for _ in 0..objects {
        succeeds(alloc, token, new_object(alloc, b"")?)?;
    }
    Ok(())
}

// So many calls, each for the label of one of `asked` objects, which lie so far apart: the sum of their handles.
fn read(
    alloc: Global,
    token: &mut Token<ListKeep>,
    (asked, apart): (u32, u32),
    count: u32,
) -> io::Result<u128> {
    let mut told = 0u128;
    for number in 0..count {
        let object = 1 + u64::from((number.wrapping_mul(7919) % asked.max(1)).wrapping_mul(apart));
        succeeds(alloc, token, label_of(alloc, object)?)?;
        told = told.wrapping_add(u128::from(object));
    }
    Ok(told)
}

fn reading_in(
    rt: &impl CpuClock,
    alloc: Global,
    token: &mut Token<ListKeep>,
    what: &'static str,
    (objects, asked, count): (u32, u32, u32),
) -> io::Result<Run> {
    fill(alloc, token, objects)?;
    let start = rt.thread_cpu_time()?;
    let told = read(alloc, token, (asked, objects / asked.max(1)), count)?;
    Ok(Run {
        what,
        unit: Unit::Call,
        count,
        sum: told.to_be_bytes(),
        time: rt.thread_cpu_time()?.saturating_sub(start),
    })
}

/// So many calls, each for the label of one of `asked` of so many token objects. These lie as far from one another as they can.
pub(crate) fn reading(
    rt: &impl CpuClock,
    alloc: Global,
    what: &'static str,
    objects: u32,
    asked: u32,
    count: u32,
) -> io::Result<Run> {
    let mut token = new_token(alloc)?;
    let run = reading_in(rt, alloc, &mut token, what, (objects, asked, count));
    drop(token);
    run
}
