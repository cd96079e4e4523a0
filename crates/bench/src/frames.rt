// Frames of C_Encrypt through a line, in parts, beside the cipher alone.

ghost use Rattle.std.specs.Prelude.{None, Some};

use crate::calls::{SESSION, failed};
use crate::run::{KEY, Run, Unit, key_of};
use aes_modes::{Direction, ecb};
use ck_calls::{Call, Mechanism};
use ck_types::{AttrType, Bytes, Entry, KeyType, MechType, ObjectClass, Template};
use door::{Free, Sink, Source};
use keep::ListKeep;
use line::Words;
use pin_record::Record;
use std::alloc::Global;
use std::io::{self, Read, Write};
use std::time::CpuClock;
use stdio_line::serve_one;
use token::Token;
use watched::Watched;
use wire::write_call;

/// The handle of the key.
const OBJECT: u64 = 1;

// A reader of bytes that gives no more than so many at once, or one where `most` is 0.
#[derive(Drop)]
struct Pieces<'a> {
    rest: &'a [u8],
    most: usize,
}

impl Read for Pieces<'_> {
    ghost remaining = { λ reader. Some reader.rest.now };

    fn read(&mut self, bytes: &mut [u8]) -> io::Result<usize> {
        let count = self.rest.len().min(self.most.max(1)).min(bytes.len());
        let (front, rest) = self.rest.split_at(count);
        bytes[..count].copy_from_slice(front);
        self.rest = rest;
        Ok(count)
    }
}

// A writer that keeps the length of what it was given, and the exclusive or of its last bytes.
#[derive(Drop)]
struct Tally {
    written: u64,
    last: u8,
}

impl Write for Tally {
    ghost contents = { λ writer. None };

    fn write(&mut self, bytes: &[u8]) -> io::Result<usize> {
        self.written = self.written.wrapping_add(bytes.len() as u64);
        if let Some(last) = bytes.last() {
            self.last ^= *last;
        }
        Ok(bytes.len())
    }

    fn flush(&mut self) -> io::Result<()> {
        Ok(())
    }
}

fn add(alloc: Global, stream: &mut Vec<u8>, call: Call) -> io::Result<()> {
    let frame = write_call(alloc, &call).map_err(|_| failed());
    drop(call);
    stream.extend_from_slice(&frame?)?;
    Ok(())
}

// The template of an AES key of 16 bytes.
pub(crate) fn template(alloc: Global) -> io::Result<Template> {
    let mut template = Template::new(alloc);
    let class = ObjectClass::SecretKey.number().to_be_bytes();
    let key_type = KeyType::Aes.number().to_be_bytes();
    let (key, _) = KEY.split_at(16);
    for (attribute, value) in [
        (AttrType::Class, &class[..]),
        (AttrType::KeyType, &key_type[..]),
        (AttrType::Value, key),
        (AttrType::Private, &[0][..]),
    ] {
        template.push(Entry {
            attr_type: attribute.number(),
            value: Bytes::from_slice(alloc, value)?,
        })?;
    }
    Ok(template)
}

fn add_key(alloc: Global, stream: &mut Vec<u8>) -> io::Result<()> {
    let create = Call::CreateObject {
        session: SESSION,
        template: template(alloc)?,
    };
    add(alloc, stream, create)
}

fn add_init(alloc: Global, stream: &mut Vec<u8>) -> io::Result<()> {
    let init = Call::EncryptInit {
        session: SESSION,
        mechanism: Some(Mechanism {
            mech_type: MechType::AesEcb.number(),
            parameter: Bytes::new(alloc),
        }),
        key: OBJECT,
    };
    add(alloc, stream, init)
}

fn add_encrypt(alloc: Global, stream: &mut Vec<u8>, text: &[u8]) -> io::Result<()> {
    let encrypt = Call::Encrypt {
        session: SESSION,
        data: Bytes::from_slice(alloc, text)?,
        buffer_len: Some(text.len() as u64),
    };
    add(alloc, stream, encrypt)
}

// A session with an AES key, and so many texts, each by C_EncryptInit and C_Encrypt.
fn stream_of(alloc: Global, text_len: u32, count: u32) -> io::Result<Vec<u8>> {
    let text = vec![in alloc; 0x5a_u8; text_len as usize]?;
    let mut stream = Vec::new(alloc);
    add(alloc, &mut stream, Call::OpenSession { slot: 0, flags: 6 })?;
    add_key(alloc, &mut stream)?;
    for _ in 0..count {
        add_init(alloc, &mut stream)?;
        add_encrypt(alloc, &mut stream, &text)?;
    }
    Ok(stream)
}

// How many calls a new token is given by a line.
fn serve_new<R: Source, W: Sink<Free>>(
    alloc: Global,
    reader: &mut Watched<R>,
    writer: &mut Watched<W>,
) -> io::Result<u64> {
    match Token::new(alloc, ListKeep::new(alloc, Record::new())) {
        Ok(mut token) => {
            let mut words = Words::for_app([0; 32], 0);
            let served = serve_one(alloc, reader, writer, &mut token, &mut words);
            drop(token);
            served.map_err(|_| failed())
        }
        Err(refused) => {
            drop(refused);
            Err(failed())
        }
    }
}

/// So many texts, each by C_EncryptInit and C_Encrypt, read in parts of no more than `most` bytes.
pub(crate) fn frames(
    rt: &impl CpuClock,
    alloc: Global,
    what: &'static str,
    text_len: u32,
    most: usize,
    count: u32,
) -> io::Result<Run> {
    let stream = stream_of(alloc, text_len, count)?;
    let mut reader = Watched::of_std(Pieces {
        rest: &stream,
        most,
    });
    let mut writer = Watched::of_std(Tally {
        written: 0,
        last: 0,
    });
    let start = rt.thread_cpu_time()?;
    let replies = serve_new(alloc, &mut reader, &mut writer)?;
    let time = rt.thread_cpu_time()?.saturating_sub(start);
    let tally = writer.into_std();
    let sum = u128::from(tally.written) << 64 | u128::from(replies) << 8 | u128::from(tally.last);
    Ok(Run {
        what,
        unit: Unit::Bytes(text_len),
        count,
        sum: sum.to_be_bytes(),
        time,
    })
}

/// The cipher alone over as many such texts.
pub(crate) fn cipher(
    rt: &impl CpuClock,
    alloc: Global,
    what: &'static str,
    text_len: u32,
    count: u32,
) -> io::Result<Run> {
    let key = key_of(&KEY, 16)?;
    let text = vec![in alloc; 0x5a_u8; text_len as usize]?;
    let mut last = 0;
    let start = rt.thread_cpu_time()?;
    for _ in 0..count {
        let Ok(out) = ecb(alloc, &key, Direction::Encrypt, &text) else {
            return Err(failed());
        };
        last = out.last().copied().unwrap_or(0);
    }
    Ok(Run {
        what,
        unit: Unit::Bytes(text_len),
        count,
        sum: u128::from(last).to_be_bytes(),
        time: rt.thread_cpu_time()?.saturating_sub(start),
    })
}
