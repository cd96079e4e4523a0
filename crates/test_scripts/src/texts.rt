//! Long texts: in parts as at once, there and back.

use crate::calls::call_of;
use crate::given::{A, CBC, CBC_PAD, CTR_NUMBER, ECB, OPEN, TOKEN_KEY};
use crate::runs::replies_to;
use crate::steps::{GivenMechanism, Step};
use ck_calls::{Call, Output, Reply};
use ck_types::{Bytes, Rv};
use keep::ListKeep;
use pin_record::Record;
use std::alloc::Global;
use std::fmt::Debug;
use std::test::Fail;
use token::Event;

/// Whatever answers the calls of an application, from its first one on.
pub trait Server {
    /// The output that it returns for the calls, one after the other.
    fn output(&self, alloc: Global, calls: Vec<Call>) -> Result<Vec<u8>, Fail>;
}

/// A new token over a list, which takes the calls, each with the result of its job, as one list of events.
#[derive(Clone, Copy)]
pub struct NewToken;

impl Server for NewToken {
    fn output(&self, alloc: Global, calls: Vec<Call>) -> Result<Vec<u8>, Fail> {
        let events = with_ends(alloc, calls)?;
        let mut bytes = Vec::new(alloc);
        for (_, reply) in &replies_to(alloc, ListKeep::new(alloc, Record::new()), events)? {
            add_output(&mut bytes, reply)?;
        }
        Ok(bytes)
    }
}

/// The calls, each with the result of its job.
fn with_ends(alloc: Global, calls: Vec<Call>) -> Result<Vec<Event>, Fail> {
    let mut events = Vec::new(alloc);
    for call in calls {
        let words = Vec::new(alloc);
        events.push(Event::Call {
            app: A,
            call,
            words,
        })?;
        events.push(Event::Finish { app: A })?;
    }
    Ok(events)
}

/// Adds the output of a reply. One that refuses the call is a failure.
pub fn add_output(bytes: &mut Vec<u8>, reply: &Reply) -> Result<(), Fail> {
    match reply {
        Reply::Output(Output::Data(piece)) => {
            bytes.extend_from_slice(piece.as_slice())?;
            Ok(())
        }
        Reply::Code(Rv::Ok) | Reply::Session(_) | Reply::Object(_) => Ok(()),
        _ => Err("a call was refused".into()),
    }
}

/// The lengths of the parts of a text in turn, and the length of such a turn.
type Cut = (&'static [usize], usize);

const BLOCKS: Cut = (&[16], 16);

const ODD: Cut = (&[1, 15, 17, 31], 64);

/// The direction of a text.
#[derive(Clone, Copy, Debug)]
enum Way {
    Encrypts,
    Decrypts,
}

fn single_call(alloc: Global, way: Way, text: &[u8]) -> Result<Call, Fail> {
    let bytes = Bytes::from_slice(alloc, text)?;
    let buffer_len = Some(100_000);
    Ok(match way {
        Way::Encrypts => Call::Encrypt {
            session: 1,
            data: bytes,
            buffer_len,
        },
        Way::Decrypts => Call::Decrypt {
            session: 1,
            encrypted_data: bytes,
            buffer_len,
        },
    })
}

fn update_call(alloc: Global, way: Way, piece: &[u8]) -> Result<Call, Fail> {
    let bytes = Bytes::from_slice(alloc, piece)?;
    let buffer_len = Some(48);
    Ok(match way {
        Way::Encrypts => Call::EncryptUpdate {
            session: 1,
            part: bytes,
            buffer_len,
        },
        Way::Decrypts => Call::DecryptUpdate {
            session: 1,
            encrypted_part: bytes,
            buffer_len,
        },
    })
}

fn final_call(way: Way) -> Call {
    let buffer_len = Some(16);
    match way {
        Way::Encrypts => Call::EncryptFinal {
            session: 1,
            buffer_len,
        },
        Way::Decrypts => Call::DecryptFinal {
            session: 1,
            buffer_len,
        },
    }
}

/// The calls that open a session, make a key and begin an operation.
fn beginning(
    alloc: Global,
    way: Way,
    mechanism: Option<GivenMechanism>,
) -> Result<Vec<Call>, Fail> {
    let init = match way {
        Way::Encrypts => Step::EncryptInit(1, mechanism, 1),
        Way::Decrypts => Step::DecryptInit(1, mechanism, 1),
    };
    let mut calls = Vec::new(alloc);
    for step in [OPEN, Step::CreateObject(1, TOKEN_KEY), init] {
        calls.push(call_of(alloc, step)?)?;
    }
    Ok(calls)
}

/// Adds the updates of one turn of parts.
fn add_turn(
    alloc: Global,
    calls: &mut Vec<Call>,
    way: Way,
    text: &[u8],
    lengths: &[usize],
) -> Result<(), Fail> {
    let mut rest = text;
    for length in lengths {
        let (piece, after) = rest.split_at(rest.len().min(*length));
        calls.push(update_call(alloc, way, piece)?)?;
        rest = after;
    }
    Ok(())
}

/// The calls by which the text is encrypted or decrypted at once.
fn at_once(
    alloc: Global,
    way: Way,
    mechanism: Option<GivenMechanism>,
    text: &[u8],
) -> Result<Vec<Call>, Fail> {
    let mut calls = beginning(alloc, way, mechanism)?;
    calls.push(single_call(alloc, way, text)?)?;
    Ok(calls)
}

/// The calls by which it is encrypted or decrypted in parts.
fn in_pieces(
    alloc: Global,
    way: Way,
    mechanism: Option<GivenMechanism>,
    text: &[u8],
    cut: Cut,
) -> Result<Vec<Call>, Fail> {
    let (lengths, turn_len) = cut;
    let mut calls = beginning(alloc, way, mechanism)?;
    for turn in text.chunks(turn_len.max(1)) {
        add_turn(alloc, &mut calls, way, turn, lengths)?;
    }
    calls.push(final_call(way))?;
    Ok(calls)
}

/// A text of eight bytes for each number below the count.
fn text_of(alloc: Global, count: u64) -> Result<Vec<u8>, Fail> {
    let mut text = Vec::new(alloc);
    for number in 0..count {
        let word = number.wrapping_mul(0x9e37_79b9_7f4a_7c15);
        text.extend_from_slice(&word.to_be_bytes())?;
    }
    Ok(text)
}

/// With 64 counter bits, of which the lower 56 are all ones.
const LOW_CTR: Option<GivenMechanism> = Some((
    CTR_NUMBER,
    b"\x00\x00\x00\x00\x00\x00\x00\x40\x01\x02\x03\x04\x05\x06\x07\x08\x00\xff\xff\xff\xff\xff\xff\xff",
));

/// The mechanisms, each with the length of its text.
const MECHANISMS: &[(Option<GivenMechanism>, usize)] = &[
    (ECB, 9_600),
    (CBC_PAD, 9_590),
    (LOW_CTR, 9_590),
];

/// Sees that a text of 64,000 bytes in 4,000 parts is chained as at once, there and back.
pub fn expect_long_chain(server: &impl Server, alloc: Global) -> Result<(), Fail> {
    let text = text_of(alloc, 8_000)?;
    expect_pieces_as_at_once(server, alloc, CBC, &text)
}

/// Sees that a text in parts is by each other mechanism as at once, there and back.
pub fn expect_each_mechanism(server: &impl Server, alloc: Global) -> Result<(), Fail> {
    let text = text_of(alloc, 1_200)?;
    for (mechanism, len) in MECHANISMS {
        let front = text.get(..*len).ok_or("the text is shorter")?;
        expect_pieces_as_at_once(server, alloc, *mechanism, front)?;
    }
    Ok(())
}

/// Sees that the server gives for the text in parts what it gives at once, there and back.
fn expect_pieces_as_at_once(
    server: &impl Server,
    alloc: Global,
    mechanism: Option<GivenMechanism>,
    text: &[u8],
) -> Result<(), Fail> {
    let encrypted = server.output(alloc, at_once(alloc, Way::Encrypts, mechanism, text)?)?;
    let back = server.output(alloc, at_once(alloc, Way::Decrypts, mechanism, &encrypted)?)?;
    expect_text(mechanism, Way::Decrypts, &back, text)?;
    for cut in [BLOCKS, ODD] {
        let there = server.output(
            alloc,
            in_pieces(alloc, Way::Encrypts, mechanism, text, cut)?,
        )?;
        expect_text((mechanism, cut), Way::Encrypts, &there, &encrypted)?;
        let calls = in_pieces(alloc, Way::Decrypts, mechanism, &encrypted, cut)?;
        let back = server.output(alloc, calls)?;
        expect_text((mechanism, cut), Way::Decrypts, &back, text)?;
    }
    Ok(())
}

fn expect_text(place: impl Debug + Drop, way: Way, got: &[u8], wanted: &[u8]) -> Result<(), Fail> {
    if got == wanted {
        return Ok(());
    }
    Err(Fail::new(format_args!("{place:?} {way:?} another text")))
}
