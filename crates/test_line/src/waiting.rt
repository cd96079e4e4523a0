//! A connection over a reader and a writer that would block: each reply is written once and in order, however little is taken.

ghost use Rattle.std.specs.Prelude.{Some};

use ck_calls::Reply;
use door::Free;
use line::{Connection, Ending, Next, Words};
use std::alloc::Global;
use std::io::{self, ErrorKind, Read, Write};
use std::test::*;
use watched::Watched;

/// Gives at most five bytes a read. Every other read would block.
#[derive(Drop)]
struct Patient<'a> {
    rest: &'a [u8],
    is_ready: bool,
}

impl Read for Patient<'_> {
    ghost remaining = { λ reader. Some reader.rest.now };

    fn read(&mut self, bytes: &mut [u8]) -> io::Result<usize> {
        self.is_ready = !self.is_ready;
        if self.is_ready {
            return Err(ErrorKind::WouldBlock.into());
        }
        let count = self.rest.len().min(5).min(bytes.len());
        let (front, rest) = self.rest.split_at(count);
        bytes[..count].copy_from_slice(front);
        self.rest = rest;
        Ok(count)
    }
}

/// Takes at most three bytes a write. Every other write would block.
#[derive(Drop)]
struct Full {
    bytes: Vec<u8>,
    is_ready: bool,
}

impl Write for Full {
    ghost contents = { λ writer. Some writer.bytes.items };

    fn write(&mut self, bytes: &[u8]) -> io::Result<usize> {
        self.is_ready = !self.is_ready;
        if self.is_ready {
            return Err(ErrorKind::WouldBlock.into());
        }
        let count = bytes.len().min(3);
        let (front, _) = bytes.split_at(count);
        self.bytes.extend_from_slice(front)?;
        Ok(count)
    }

    fn flush(&mut self) -> io::Result<()> {
        Ok(())
    }
}

/// C_OpenSession, a payload of one byte, and one of no function.
const INPUT: &[u8] =
    b"\x00\x00\x00\x12\x00\x07\x00\x00\x00\x00\x00\x00\x00\x00\x00\x00\x00\x00\x00\x00\x00\x06\
\x00\x00\x00\x01\x00\x00\x00\x00\x02\xff\xff";

/// Session 9, CKR_ARGUMENTS_BAD and CKR_FUNCTION_NOT_SUPPORTED.
const OUTPUT: &[u8] =
    b"\x00\x00\x00\x10\x00\x00\x00\x00\x00\x00\x00\x00\x00\x00\x00\x00\x00\x00\x00\x09\
\x00\x00\x00\x08\x00\x00\x00\x00\x00\x00\x00\x07\x00\x00\x00\x08\x00\x00\x00\x00\x00\x00\x00\x54";

/// The turns of a connection over such a reader and writer, and what it wrote.
fn talk(alloc: Global, input: &[u8], turns: u64) -> (Connection, Vec<u8>) {
    let mut reader = Watched::of_std(Patient {
        rest: input,
        is_ready: false,
    });
    let mut writer = Watched::of_std(Full {
        bytes: Vec::new(alloc),
        is_ready: false,
    });
    let mut connection = Connection::new(alloc, Words::for_app([0; 32], 3));
    let mut piece = [0u8; 7];
    for _ in 0..turns {
        match connection.next_call(alloc, &mut reader, &mut writer, &Free, &mut piece) {
            Next::Call(_) => connection.reply(alloc, &mut writer, &Free, &Reply::Session(9)),
            Next::Nothing => {}
            Next::Ended(_) => break,
        }
    }
    let Full { bytes, .. } = writer.into_std();
    (connection, bytes)
}

#[test]
fn what_would_block_is_read_and_written_later(rt: HostRuntime) -> Result<(), Fail> {
    let (connection, written) = talk(rt.alloc(), INPUT, 1000);
    assert!(rt; matches!(connection.ended(), Some(Ending::Closed)));
    assert!(rt; connection.answered() == 3 && !connection.is_pending());
    assert!(rt; written.as_slice() == OUTPUT);
    Ok(())
}

#[test]
fn a_connection_cut_at_any_turn_wrote_a_beginning(rt: HostRuntime) -> Result<(), Fail> {
    for turns in 0..40 {
        let (_, written) = talk(rt.alloc(), INPUT, turns);
        assert!(rt; OUTPUT.starts_with(&written), "after {turns} turns");
    }
    Ok(())
}

#[test]
fn a_frame_that_is_cut_or_too_long_ends_the_connection(rt: HostRuntime) -> Result<(), Fail> {
    let (connection, written) = talk(rt.alloc(), b"\x00\x00\x00\x12\x00\x07", 1000);
    assert!(rt; matches!(connection.ended(), Some(Ending::Cut)) && written.is_empty());
    let (connection, written) = talk(rt.alloc(), b"\x00\x10\x00\x01", 1000);
    assert!(rt; matches!(connection.ended(), Some(Ending::TooLong)) && written.is_empty());
    Ok(())
}
