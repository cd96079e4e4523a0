// Searches among many token objects.

use crate::calls::{SESSION, failed, new_token, open, reply_to, succeeds};
use crate::reading::new_object;
use crate::run::{Run, Unit};
use ck_calls::{Call, Reply};
use ck_types::{AttrType, Bytes, Entry, Template};
use keep::ListKeep;
use std::alloc::{AllocError, Global};
use std::io;
use std::time::CpuClock;
use token::Token;

/// The label of one object in a hundred, and of the others.
const WANTED: &[u8] = b"wanted";

const OTHER: &[u8] = b"other";

fn by_label(alloc: Global) -> Result<Template, AllocError> {
    let mut template = Template::new(alloc);
    template.push(Entry {
        attr_type: AttrType::Label.number(),
        value: Bytes::from_slice(alloc, WANTED)?,
    })?;
    Ok(template)
}

// Opens a session and makes so many token objects, all of which the application sees.
fn fill(alloc: Global, token: &mut Token<ListKeep>, objects: u32) -> io::Result<()> {
    open(alloc, token)?;
    for number in 0..objects {
        let label = if number % 100 == 0 { WANTED } else { OTHER };
        succeeds(alloc, token, new_object(alloc, label)?)?;
    }
    Ok(())
}

fn begin(alloc: Global, token: &mut Token<ListKeep>) -> io::Result<()> {
    let call = Call::FindObjectsInit {
        session: SESSION,
        template: by_label(alloc)?,
    };
    succeeds(alloc, token, call)
}

fn count_of(reply: &Reply) -> io::Result<usize> {
    match reply {
        Reply::Objects(handles) => Ok(handles.len()),
        _ => Err(failed()),
    }
}

// How many objects the search finds, at most 1,024.
fn found(alloc: Global, token: &mut Token<ListKeep>) -> io::Result<usize> {
    let call = Call::FindObjects {
        session: SESSION,
        max_count: 1024,
    };
    let reply = reply_to(alloc, token, call)?;
    let count = count_of(&reply);
    drop(reply);
    count
}

// One search: how many objects it finds.
fn search(alloc: Global, token: &mut Token<ListKeep>) -> io::Result<usize> {
    begin(alloc, token)?;
    let count = found(alloc, token)?;
    succeeds(alloc, token, Call::FindObjectsFinal { session: SESSION })?;
    Ok(count)
}

fn searching_in(
    rt: &impl CpuClock,
    alloc: Global,
    token: &mut Token<ListKeep>,
    what: &'static str,
    (objects, count): (u32, u32),
) -> io::Result<Run> {
    fill(alloc, token, objects)?;
    let mut found = 0u128;
    let start = rt.thread_cpu_time()?;
    for _ in 0..count {
        found = found.wrapping_add(search(alloc, token)? as u128);
    }
    Ok(Run {
        what,
        unit: Unit::Exchange,
        count,
        sum: found.to_be_bytes(),
        time: rt.thread_cpu_time()?.saturating_sub(start),
    })
}

/// So many searches by label, each begun, read and ended, over so many token objects, of which one in a hundred is found.
pub(crate) fn searching(
    rt: &impl CpuClock,
    alloc: Global,
    what: &'static str,
    objects: u32,
    count: u32,
) -> io::Result<Run> {
    let mut token = new_token(alloc)?;
    let run = searching_in(rt, alloc, &mut token, what, (objects, count));
    drop(token);
    run
}
