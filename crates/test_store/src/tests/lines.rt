//! Lines byte for byte: the first run, payloads that are no call, frames that are too long or cut, and random bytes.

use super::keepers::{Script, see_over_each};
use super::served::{Served, expect_served, frames_of, serve};
use ck_calls::Call;
use ck_types::{AttrType, Rv};
use keep::Keep;
use pin_record::Record;
use std::alloc::Global;
use std::test::*;
use stdio_line::LineFault;
use test_scripts::Step::{
    CreateObject, FindObjects, FindObjectsInit, GenerateRandom, GetAttributeValue, GetObjectSize,
};
use test_scripts::given::*;
use test_scripts::{
    FIRST_REPLIES, FIRST_RUN, Given, Row, Told, opened_session, play_over, told_code,
};
use token::Token;

/// What a line takes, how it ends, and what it writes.
#[derive(Clone, Copy)]
pub(super) struct Bytes<'a> {
    pub(super) input: &'a [u8],
    pub(super) ended: Result<u64, LineFault>,
    pub(super) written: &'a [u8],
}

impl Script for Bytes<'_> {
    fn see<K: Keep>(&self, alloc: Global, keep: K) -> Result<(), Fail> {
        let Served {
            ended,
            written,
            mut token,
        } = serve(alloc, keep, self.input)?;
        let gone = expect_gone(alloc, &mut token);
        drop(token);
        gone?;
        if ended != self.ended || written.as_slice() != self.written {
            return Err(Fail::new(format_args!("{ended:?}, {written:?}")));
        }
        Ok(())
    }
}

/// Sees that the line's application has no session.
fn expect_gone<K: Keep>(alloc: Global, token: &mut Token<K>) -> Result<(), Fail> {
    match told_code(alloc, token, 0, Call::GetSessionInfo { session: 1 })? {
        Some(Rv::SessionHandleInvalid) => Ok(()),
        _ => Err("the application has not gone".into()),
    }
}

const ARGUMENTS_BAD: &[u8] = b"\x00\x00\x00\x08\x00\x00\x00\x00\x00\x00\x00\x07";

const NOT_SUPPORTED: &[u8] = b"\x00\x00\x00\x08\x00\x00\x00\x00\x00\x00\x00\x54";

/// The first run; payloads of no byte, of one, and of function 99; and lengths above the limit.
const LINES: &[(&[u8], Result<u64, LineFault>, &[u8])] = &[
    (FIRST_RUN, Ok(4), FIRST_REPLIES),
    (b"\x00\x00\x00\x00", Ok(1), ARGUMENTS_BAD),
    (b"\x00\x00\x00\x01\x07", Ok(1), ARGUMENTS_BAD),
    (b"\x00\x00\x00\x02\x00\x63", Ok(1), NOT_SUPPORTED),
    (b"\x00\x10\x00\x01", Err(LineFault::TooLong), b""),
    (b"\xff\xff\xff\xff", Err(LineFault::TooLong), b""),
];

#[test]
fn a_line_is_answered_byte_for_byte(rt: HostRuntime) -> Result<(), Fail> {
    for (input, ended, written) in LINES {
        let bytes = Bytes {
            input: *input,
            ended: *ended,
            written: *written,
        };
        see_over_each(rt.alloc(), Record::new(), &bytes)?;
    }
    Ok(())
}

/// The front of a frame that names function 1, and the length of its payload, of which nothing but zeros follows.
const LONGEST: &[(&[u8], usize)] = &[
    (b"\x00\x01\x00\x00\x00\x01", 65_536),
    (b"\x00\x10\x00\x00\x00\x01", 1_048_576),
];

#[test]
fn a_long_payload_is_answered(rt: HostRuntime) -> Result<(), Fail> {
    for (front, len) in LONGEST {
        let mut input = Vec::from_slice(rt.alloc(), front)?;
        input.resize(4 + len, 0)?;
        let bytes = Bytes {
            input: &input,
            ended: Ok(1),
            written: ARGUMENTS_BAD,
        };
        see_over_each(rt.alloc(), Record::new(), &bytes)?;
    }
    Ok(())
}

/// A session, and an object of it and one of the token, whose frame is cut.
const BEFORE_CUT: &[Row] = &[
    (A, OPEN, Told::Session(1)),
    (A, CreateObject(1, SESSION_DATA), Told::Object(1)),
];

const CUT: &[Row] = &[(A, CreateObject(1, TOKEN_DATA), Told::Object(2))];

/// The two replies before the cut frame.
const BEFORE_REPLIES: &[u8] =
    b"\x00\x00\x00\x10\x00\x00\x00\x00\x00\x00\x00\x00\x00\x00\x00\x00\x00\x00\x00\x01\
\x00\x00\x00\x10\x00\x00\x00\x00\x00\x00\x00\x00\x00\x00\x00\x00\x00\x00\x00\x01";

/// What another application finds of an object of the token.
const NONE_FOUND: &[Row] = &[
    (B, OPEN, Told::Session(1)),
    (B, FindObjectsInit(1, NOTHING), OK),
    (B, FindObjects(1, 9), Told::Objects(&[])),
];

const ONE_FOUND: &[Row] = &[
    (B, OPEN, Told::Session(1)),
    (B, FindObjectsInit(1, NOTHING), OK),
    (B, FindObjects(1, 9), Told::Objects(&[1])),
];

/// A line over the first bytes of a frame after those before it, and what is found then.
#[derive(Clone, Copy)]
struct After<'a> {
    input: &'a [u8],
    ended: Result<u64, LineFault>,
    found: &'a [Row],
}

impl Script for After<'_> {
    fn see<K: Keep>(&self, alloc: Global, keep: K) -> Result<(), Fail> {
        let Served {
            ended,
            written,
            mut token,
        } = serve(alloc, keep, self.input)?;
        let left = expect_left(alloc, &mut token);
        let keep = token.into_keep();
        left?;
        if ended != self.ended || !written.starts_with(BEFORE_REPLIES) {
            return Err(Fail::new(format_args!("{ended:?}, {written:?}")));
        }
        drop(play_over(alloc, keep, self.found)?);
        Ok(())
    }
}

/// Sees that the line's application is disconnected, and its objects destroyed.
fn expect_left<K: Keep>(alloc: Global, token: &mut Token<K>) -> Result<(), Fail> {
    expect_gone(alloc, token)?;
    expect_no_object(alloc, token)
}

#[test]
fn a_cut_frame_changes_nothing(rt: HostRuntime) -> Result<(), Fail> {
    let alloc = rt.alloc();
    let mut input = frames_of(alloc, BEFORE_CUT)?;
    let frame = frames_of(alloc, CUT)?;
    let whole = frame.len();
    for (cut, byte) in frame.iter().enumerate() {
        let after = After {
            input: &input,
            ended: if cut == 0 { Ok(2) } else { Err(LineFault::Cut) },
            found: NONE_FOUND,
        };
        see_over_each(alloc, Record::new(), &after)?;
        input.push(*byte)?;
    }
    let after = After {
        input: &input,
        ended: Ok(3),
        found: ONE_FOUND,
    };
    assert!(rt; whole > 4);
    see_over_each(alloc, Record::new(), &after)
}

/// Sees that a new session of the line's application has none of its objects.
fn expect_no_object<K: Keep>(alloc: Global, token: &mut Token<K>) -> Result<(), Fail> {
    let session = opened_session(alloc, token, 0)?;
    match told_code(alloc, token, 0, Call::GetObjectSize { session, object: 1 })? {
        Some(Rv::ObjectHandleInvalid) => Ok(()),
        _ => Err("an object is left".into()),
    }
}

/// The rows of a line, each with its reply.
#[derive(Clone, Copy)]
struct Line<'a>(&'a [Row]);

impl Script for Line<'_> {
    fn see<K: Keep>(&self, alloc: Global, keep: K) -> Result<(), Fail> {
        let _ = expect_served(alloc, keep, self.0)?;
        Ok(())
    }
}

#[test]
fn random_bytes_are_those_of_chacha20(rt: HostRuntime) -> Result<(), Fail> {
    const ROWS: &[Row] = &[
        (A, OPEN, Told::Session(1)),
        (
            A,
            GenerateRandom(1, 16),
            Told::Random(b"\x76\xb8\xe0\xad\xa0\xf1\x3d\x90\x40\x5d\x6a\xe5\x53\x86\xbd\x28"),
        ),
        (
            A,
            GenerateRandom(1, 5),
            Told::Random(b"\xbd\xd2\x19\xb8\xa0"),
        ),
        (A, GenerateRandom(1, 4), Told::Random(b"\xa8\x36\xef\xcc")),
        (A, GenerateRandom(1, 32_769), Told::Code(Rv::ArgumentsBad)),
    ];
    see_over_each(rt.alloc(), Record::new(), &Line(ROWS))
}

/// The key of the first run.
const SESSION_KEY: Given = &[
    (AttrType::Class, SECRET_KEY),
    (AttrType::KeyType, AES),
    (AttrType::Private, NO),
    (AttrType::Value, KEY_BYTES),
];

#[test]
fn the_key_of_the_first_run_has_its_size_and_identifier(rt: HostRuntime) -> Result<(), Fail> {
    const ROWS: &[Row] = &[
        (A, OPEN, Told::Session(1)),
        (A, CreateObject(1, SESSION_KEY), Told::Object(1)),
        (A, GetObjectSize(1, 1), Told::ObjectSize(309)),
        (
            A,
            GetAttributeValue(1, 1, &[(UNIQUE_ID, Some(32))]),
            Told::AttributeValues(Rv::Ok, &[(32, Some(b"76b8e0ada0f13d90405d6ae55386bd28"))]),
        ),
    ];
    see_over_each(rt.alloc(), Record::new(), &Line(ROWS))
}
