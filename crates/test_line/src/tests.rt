//! The first run: open a session, make an AES key, begin ECB, and encrypt the block of FIPS 197, C.1.

ghost use Rattle.std.specs.Prelude.{Some};

use ck_calls::{Call, Reply};
use ck_types::Rv;
use keep::{Keep, ListKeep};
use line::Words;
use pin_record::Record;
use std::alloc::Global;
use std::io::{self, ErrorKind, Read, Write};
use std::process::Abort;
use std::test::*;
use stdio_line::{LineFault, serve_one};
use test_scripts::token_over;
use token::{Out, Token};
use watched::Watched;
use wire::{FrameReader, WireFault, read_reply, write_call};

const OPEN_SESSION: &[u8] =
    b"\x00\x00\x00\x12\x00\x07\x00\x00\x00\x00\x00\x00\x00\x00\x00\x00\x00\x00\x00\x00\x00\x06";

const CREATE_OBJECT: &[u8] =
    b"\x00\x00\x00\x5f\x00\x0d\x00\x00\x00\x00\x00\x00\x00\x01\x00\x00\x00\x04\
\x00\x00\x00\x00\x00\x00\x00\x00\x00\x00\x00\x08\x00\x00\x00\x00\x00\x00\x00\x04\
\x00\x00\x00\x00\x00\x00\x01\x00\x00\x00\x00\x08\x00\x00\x00\x00\x00\x00\x00\x1f\
\x00\x00\x00\x00\x00\x00\x00\x02\x00\x00\x00\x01\x00\
\x00\x00\x00\x00\x00\x00\x00\x11\x00\x00\x00\x10\x00\x01\x02\x03\x04\x05\x06\x07\x08\x09\x0a\x0b\x0c\x0d\x0e\x0f";

const ENCRYPT_INIT: &[u8] =
    b"\x00\x00\x00\x1f\x00\x16\x00\x00\x00\x00\x00\x00\x00\x01\x01\x00\x00\x00\x00\x00\x00\x10\x81\x00\x00\x00\x00\x00\x00\x00\x00\x00\x00\x00\x01";

const ENCRYPT: &[u8] = b"\x00\x00\x00\x27\x00\x17\x00\x00\x00\x00\x00\x00\x00\x01\x00\x00\x00\x10\
\x00\x11\x22\x33\x44\x55\x66\x77\x88\x99\xaa\xbb\xcc\xdd\xee\xff\x01\x00\x00\x00\x00\x00\x00\x00\x10";

const NUMBER_ONE: &[u8] =
    b"\x00\x00\x00\x10\x00\x00\x00\x00\x00\x00\x00\x00\x00\x00\x00\x00\x00\x00\x00\x01";

const OK: &[u8] = b"\x00\x00\x00\x08\x00\x00\x00\x00\x00\x00\x00\x00";

const ENCRYPTED: &[u8] = b"\x00\x00\x00\x1d\x00\x00\x00\x00\x00\x00\x00\x00\x01\x00\x00\x00\x10\
\x69\xc4\xe0\xd8\x6a\x7b\x04\x30\xd8\xcd\xb7\x80\x70\xb4\xc5\x5a";

/// A writer that takes at most three bytes at once, and so many in all. Every other call is
/// interrupted.
#[derive(Drop)]
pub(crate) struct Narrow {
    pub(crate) bytes: Vec<u8>,
    pub(crate) room: usize,
    pub(crate) interrupts: bool,
}

impl Write for Narrow {
    ghost contents = { λ writer. Some writer.bytes.items };

    fn write(&mut self, bytes: &[u8]) -> io::Result<usize> {
        self.interrupts = !self.interrupts;
        if self.interrupts {
            return Err(ErrorKind::Interrupted.into());
        }
        let count = bytes.len().min(3).min(self.room);
        if count == 0 {
            return Err(ErrorKind::BrokenPipe.into());
        }
        let (front, _) = bytes.split_at(count);
        self.bytes.extend_from_slice(front)?;
        self.room -= count;
        Ok(count)
    }

    fn flush(&mut self) -> io::Result<()> {
        self.interrupts = !self.interrupts;
        if self.interrupts {
            return Err(ErrorKind::Interrupted.into());
        }
        Ok(())
    }
}

/// A reader that gives at most two bytes at once, and may fail at the end. Every other call is
/// interrupted.
#[derive(Drop)]
pub(crate) struct Drip<'a> {
    pub(crate) rest: &'a [u8],
    pub(crate) fails: bool,
    pub(crate) interrupts: bool,
}

impl Read for Drip<'_> {
    ghost remaining = { λ reader. Some reader.rest.now };

    fn read(&mut self, bytes: &mut [u8]) -> io::Result<usize> {
        self.interrupts = !self.interrupts;
        if self.interrupts {
            return Err(ErrorKind::Interrupted.into());
        }
        if self.fails && self.rest.is_empty() {
            return Err(ErrorKind::BrokenPipe.into());
        }
        let count = self.rest.len().min(2).min(bytes.len());
        let (front, rest) = self.rest.split_at(count);
        bytes[..count].copy_from_slice(front);
        self.rest = rest;
        Ok(count)
    }
}

fn joined(alloc: Global, parts: &[&[u8]]) -> Result<Vec<u8>, Fail> {
    let mut whole = Vec::new(alloc);
    for part in parts {
        whole.extend_from_slice(part)?;
    }
    Ok(whole)
}

/// How a line over the input ends for a new token, and what it wrote.
fn run(
    alloc: Global,
    input: &[u8],
    fails: bool,
    room: usize,
) -> Result<(Result<u64, LineFault>, Vec<u8>), Fail> {
    let mut reader = Watched::of_std(Drip {
        rest: input,
        fails,
        interrupts: false,
    });
    let mut writer = Watched::of_std(Narrow {
        bytes: Vec::new(alloc),
        room,
        interrupts: false,
    });
    let mut token = token_over(alloc, ListKeep::new(alloc, Record::new()))?;
    let mut words = Words::for_app([0; 32], 0);
    let ended = serve_one(alloc, &mut reader, &mut writer, &mut token, &mut words);
    let Narrow { bytes, .. } = writer.into_std();
    Ok((ended, bytes))
}

/// Whether a line over the input ends so for a new token, and writes just this, where the writer takes at most so many bytes.
fn goes(
    alloc: Global,
    input: &[u8],
    room: usize,
    wanted: Result<u64, LineFault>,
    replies: &[u8],
) -> Result<bool, Fail> {
    let (ended, written) = run(alloc, input, false, room)?;
    Ok(ended == wanted && written.as_slice() == replies)
}

/// The frames of the first run, and the replies to them.
pub(crate) fn first_run(alloc: Global) -> Result<(Vec<u8>, Vec<u8>), Fail> {
    let input = joined(alloc, &[OPEN_SESSION, CREATE_OBJECT, ENCRYPT_INIT, ENCRYPT])?;
    let replies = joined(alloc, &[NUMBER_ONE, NUMBER_ONE, OK, ENCRYPTED])?;
    Ok((input, replies))
}

#[test]
fn the_first_run_gives_the_ciphertext_of_fips_197_c_1(rt: HostRuntime) -> Result<(), Fail> {
    let (input, replies) = first_run(rt.alloc())?;
    assert!(rt; goes(rt.alloc(), &input, usize::MAX, Ok(4), &replies)?);
    Ok(())
}

/// How a line over so many bytes of the first run ends, and how many bytes it writes.
pub(crate) fn after_cut(cut: usize) -> (Result<u64, LineFault>, usize) {
    match cut {
        0 => (Ok(0), 0),
        22 => (Ok(1), 20),
        121 => (Ok(2), 40),
        156 => (Ok(3), 52),
        199 => (Ok(4), 85),
        1..22 => (Err(LineFault::Cut), 0),
        23..121 => (Err(LineFault::Cut), 20),
        122..156 => (Err(LineFault::Cut), 40),
        _ => (Err(LineFault::Cut), 52),
    }
}

#[test]
fn a_cut_stream_gives_the_replies_of_its_whole_frames(rt: HostRuntime) -> Result<(), Fail> {
    let (input, replies) = first_run(rt.alloc())?;
    assert_eq!(rt; (input.len(), replies.len()), (199, 85));
    for cut in 0..=input.len() {
        let (wanted, len) = after_cut(cut);
        let (front, written) = (input.get(..cut), replies.get(..len));
        let is_so = goes(
            rt.alloc(),
            front.unwrap_or(&[]),
            usize::MAX,
            wanted,
            written.unwrap_or(&[]),
        )?;
        assert!(rt; is_so, "cut after {cut} bytes");
    }
    Ok(())
}

#[test]
fn a_writer_that_fails_has_the_first_bytes_of_the_replies(rt: HostRuntime) -> Result<(), Fail> {
    let (input, replies) = first_run(rt.alloc())?;
    for room in 0..replies.len() {
        let written = replies.get(..room).unwrap_or(&[]);
        let is_so = goes(rt.alloc(), &input, room, Err(LineFault::Write), written)?;
        assert!(rt; is_so, "room for {room} bytes");
    }
    Ok(())
}

#[test]
fn a_reader_that_fails_ends_the_line(rt: HostRuntime) -> Result<(), Fail> {
    let (ended, written) = run(rt.alloc(), OPEN_SESSION, true, usize::MAX)?;
    assert_eq!(rt; ended, Err(LineFault::Read));
    assert!(rt; written.as_slice() == NUMBER_ONE);
    Ok(())
}

const ARGUMENTS_BAD: &[u8] = b"\x00\x00\x00\x08\x00\x00\x00\x00\x00\x00\x00\x07";

const NOT_SUPPORTED: &[u8] = b"\x00\x00\x00\x08\x00\x00\x00\x00\x00\x00\x00\x54";

/// Frames whose payloads are no call, and the replies to them.
const NO_CALLS: &[(&[u8], &[u8])] = &[
    // No byte, and one.
    (b"\x00\x00\x00\x00", ARGUMENTS_BAD),
    (b"\x00\x00\x00\x01\x07", ARGUMENTS_BAD),
    // Function 99.
    (b"\x00\x00\x00\x02\x00\x63", NOT_SUPPORTED),
    // OpenSession with a byte too few and a byte too many.
    (
        b"\x00\x00\x00\x11\x00\x07\x00\x00\x00\x00\x00\x00\x00\x00\x00\x00\x00\x00\x00\x00\x00",
        ARGUMENTS_BAD,
    ),
    (
        b"\x00\x00\x00\x13\x00\x07\x00\x00\x00\x00\x00\x00\x00\x00\x00\x00\x00\x00\x00\x00\x00\x06\x00",
        ARGUMENTS_BAD,
    ),
    // SignUpdate with a byte too few.
    (
        b"\x00\x00\x00\x0d\x00\x20\x00\x00\x00\x00\x00\x00\x00\x01\x00\x00\x00",
        ARGUMENTS_BAD,
    ),
];

#[test]
fn a_payload_that_is_no_call_is_answered_by_its_code(rt: HostRuntime) -> Result<(), Fail> {
    for (frame, reply) in NO_CALLS {
        let is_so = goes(rt.alloc(), frame, usize::MAX, Ok(1), reply)?;
        assert!(rt; is_so, "{frame:?}");
    }
    Ok(())
}

const LONG: &[&[u8]] = &[
    b"\x00\x10\x00\x01",
    b"\x7f\xff\xff\xff",
    b"\xff\xff\xff\xff",
];

#[test]
fn a_length_above_the_limit_ends_the_line_without_a_reply(rt: HostRuntime) -> Result<(), Fail> {
    for length in LONG {
        let input = joined(rt.alloc(), &[OPEN_SESSION, length])?;
        let ended = Err(LineFault::TooLong);
        assert!(rt; goes(rt.alloc(), &input, usize::MAX, ended, NUMBER_ONE)?);
    }
    Ok(())
}

/// Sees that a reader of frames that has read this length gives and takes nothing more, however often it is asked.
fn expect_too_long(rt: &impl Abort, alloc: Global, length: &[u8]) -> Result<(), Fail> {
    let mut frames = FrameReader::new(alloc);
    frames.feed(length)?;
    for _ in 0..3 {
        let next = frames.next(alloc);
        assert!(rt; matches!(next, Err(WireFault::TooLong)), "{length:?}");
        assert!(rt; matches!(frames.feed(OPEN_SESSION), Err(WireFault::TooLong)));
    }
    Ok(())
}

#[test]
fn a_reader_of_frames_answers_too_long_for_ever(rt: HostRuntime) -> Result<(), Fail> {
    assert_eq!(rt; LONG.len(), 3);
    for length in LONG {
        expect_too_long(&rt, rt.alloc(), length)?;
    }
    Ok(())
}

/// A line over all of the input at once, for a new token: how it ends, what it wrote, and the token after it.
pub(crate) fn served(
    alloc: Global,
    input: &[u8],
) -> Result<(Result<u64, LineFault>, Vec<u8>, Token<ListKeep>), Fail> {
    let mut reader = Watched::of_std(input);
    let mut writer = Watched::of_std(Vec::<u8>::new(alloc));
    let mut token = token_over(alloc, ListKeep::new(alloc, Record::new()))?;
    let mut words = Words::for_app([0; 32], 0);
    let ended = serve_one(alloc, &mut reader, &mut writer, &mut token, &mut words);
    Ok((ended, writer.into_std(), token))
}

/// The front of a frame, and the length of its payload.
const LONGEST: &[(&[u8], usize)] = &[
    (b"\x00\x01\x00\x00\x00\x01", 65_536),
    (b"\x00\x10\x00\x00\x00\x01", 1_048_576),
];

#[test]
fn a_payload_may_be_as_long_as_the_limit(rt: HostRuntime) -> Result<(), Fail> {
    for (front, len) in LONGEST {
        let mut input = Vec::from_slice(rt.alloc(), front)?;
        input.resize(4 + len, 0)?;
        let (ended, written, _) = served(rt.alloc(), &input)?;
        assert!(rt;
            ended == Ok(1) && written.as_slice() == ARGUMENTS_BAD,
            "{len} bytes"
        );
    }
    Ok(())
}

/// What comes after a frame, and how the line ends.
const ENDINGS: &[(&[u8], Result<u64, LineFault>)] = &[
    (b"", Ok(1)),
    (b"\x00\x00\x00\x12\x00", Err(LineFault::Cut)),
    (b"\xff\xff\xff\xff", Err(LineFault::TooLong)),
];

/// What the application gets that asks after its first session.
fn session_info(alloc: Global, token: &mut Token<ListKeep>) -> Result<Reply, Fail> {
    match token.call(alloc, 0, Call::GetSessionInfo { session: 1 }, &[]) {
        Out::Reply(reply) => Ok(reply),
        Out::Ask(_) => Err("a question".into()),
    }
}

#[test]
fn an_application_is_gone_after_its_line(rt: HostRuntime) -> Result<(), Fail> {
    for (ending, wanted) in ENDINGS {
        let input = joined(rt.alloc(), &[OPEN_SESSION, ending])?;
        let (ended, written, mut token) = served(rt.alloc(), &input)?;
        assert!(rt; ended == *wanted && written.as_slice() == NUMBER_ONE);
        let told = session_info(rt.alloc(), &mut token)?;
        assert_eq!(rt; told, Reply::Code(Rv::SessionHandleInvalid));
    }
    Ok(())
}

#[test]
fn an_application_has_at_most_64_sessions(rt: HostRuntime) -> Result<(), Fail> {
    let mut input = Vec::new(rt.alloc());
    for _ in 0..65 {
        input.extend_from_slice(OPEN_SESSION)?;
    }
    let (ended, written) = run(rt.alloc(), &input, false, usize::MAX)?;
    assert_eq!(rt; ended, Ok(65));
    let last: &[u8] = b"\x00\x00\x00\x08\x00\x00\x00\x00\x00\x00\x00\xb1";
    assert!(rt; written.get(64 * 20..) == Some(last));
    Ok(())
}

#[test]
fn a_call_that_is_written_is_answered_by_a_reply_that_is_read(rt: HostRuntime) -> Result<(), Fail> {
    let frame = write_call(rt.alloc(), &Call::OpenSession { slot: 0, flags: 2 })?;
    let (ended, written) = run(rt.alloc(), &frame, false, usize::MAX)?;
    assert_eq!(rt; ended, Ok(1));
    let reply = read_reply(rt.alloc(), 7, written.get(4..).unwrap_or(&[]))?;
    assert_eq!(rt; reply, Reply::Code(Rv::SessionParallelNotSupported));
    Ok(())
}

/// The bytes that are taken one after the other.
const TAKEN: &[&[u8]] = &[
    b"\x76\xb8\xe0\xad\xa0\xf1\x3d\x90\x40\x5d\x6a\xe5\x53\x86\xbd\x28",
    b"\xbd\xd2\x19\xb8\xa0",
    b"\xa8\x36\xef\xcc",
];

#[test]
fn the_words_of_seed_zero_are_those_of_chacha20(rt: HostRuntime) -> Result<(), Fail> {
    let mut words = Words::for_app([0; 32], 0);
    for bytes in TAKEN {
        let taken = words.take(rt.alloc(), bytes.len())?;
        assert!(rt; taken.as_slice() == *bytes, "{bytes:?}");
    }
    Ok(())
}
