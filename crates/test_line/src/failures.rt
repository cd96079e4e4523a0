//! Readers and writers that fail at one of their calls: how the line ends, and what they note.

ghost use Rattle.std.specs.Prelude.{Some};

use crate::tests::{Drip, Narrow, after_cut, first_run};
use door::{Free, Sink, Source};
use keep::ListKeep;
use line::Words;
use pin_record::Record;
use std::alloc::Global;
use std::io::{self, ErrorKind, Read, Write};
use std::test::*;
use stdio_line::{LineFault, serve_one};
use test_scripts::token_over;
use watched::Watched;

/// Gives two bytes a read, and fails after so many of them.
#[derive(Drop)]
struct FailingReader<'a> {
    rest: &'a [u8],
    reads: usize,
}

impl Read for FailingReader<'_> {
    ghost remaining = { λ reader. Some reader.rest.now };

    fn read(&mut self, bytes: &mut [u8]) -> io::Result<usize> {
        if self.reads == 0 {
            return Err(ErrorKind::BrokenPipe.into());
        }
        self.reads -= 1;
        let count = self.rest.len().min(2).min(bytes.len());
        let (front, rest) = self.rest.split_at(count);
        bytes[..count].copy_from_slice(front);
        self.rest = rest;
        Ok(count)
    }
}

/// Takes three bytes a write, and fails after so many writes and flushes.
#[derive(Drop)]
struct FailingWriter {
    bytes: Vec<u8>,
    calls: usize,
}

impl Write for FailingWriter {
    ghost contents = { λ writer. Some writer.bytes.items };

    fn write(&mut self, bytes: &[u8]) -> io::Result<usize> {
        if self.calls == 0 {
            return Err(ErrorKind::BrokenPipe.into());
        }
        self.calls -= 1;
        let count = bytes.len().min(3);
        let (front, _) = bytes.split_at(count);
        self.bytes.extend_from_slice(front)?;
        Ok(count)
    }

    fn flush(&mut self) -> io::Result<()> {
        if self.calls == 0 {
            return Err(ErrorKind::BrokenPipe.into());
        }
        self.calls -= 1;
        Ok(())
    }
}

/// How a line ended, and how many failures its reader and its writer counted.
#[derive(Drop, PartialEq)]
struct Ended {
    ended: Result<u64, LineFault>,
    reads_failed: u64,
    writes_failed: u64,
}

/// A line over a reader and a writer, for a new token.
fn serve<R: Source, W: Sink<Free>>(
    alloc: Global,
    reader: &mut Watched<R>,
    writer: &mut Watched<W>,
) -> Result<Ended, Fail> {
    let mut token = token_over(alloc, ListKeep::new(alloc, Record::new()))?;
    let mut words = Words::for_app([0; 32], 0);
    let ended = serve_one(alloc, reader, writer, &mut token, &mut words);
    Ok(Ended {
        ended,
        reads_failed: reader.failures(),
        writes_failed: writer.failures(),
    })
}

/// How the first run ends over a reader that fails after so many reads, and what it writes.
fn after_reads(alloc: Global, input: &[u8], reads: usize) -> Result<(Ended, Vec<u8>), Fail> {
    let mut reader = Watched::of_std(FailingReader { rest: input, reads });
    let mut writer = Watched::of_std(Vec::<u8>::new(alloc));
    let ended = serve(alloc, &mut reader, &mut writer)?;
    Ok((ended, writer.into_std()))
}

/// How the first run ends over a writer that fails after so many calls, and what it writes.
fn after_calls(alloc: Global, input: &[u8], calls: usize) -> Result<(Ended, Vec<u8>), Fail> {
    let mut reader = Watched::of_std(input);
    let mut writer = Watched::of_std(FailingWriter {
        bytes: Vec::new(alloc),
        calls,
    });
    let ended = serve(alloc, &mut reader, &mut writer)?;
    let FailingWriter { bytes, .. } = writer.into_std();
    Ok((ended, bytes))
}

/// A line that ended well.
fn well(count: u64) -> Ended {
    Ended {
        ended: Ok(count),
        reads_failed: 0,
        writes_failed: 0,
    }
}

/// The reads of the first run's 199 bytes, and the one that finds their end.
const READS: usize = 101;

#[test]
fn a_read_that_fails_is_noted_and_ends_the_line(rt: HostRuntime) -> Result<(), Fail> {
    let (input, replies) = first_run(rt.alloc())?;
    let failed = Ended {
        ended: Err(LineFault::Read),
        reads_failed: 1,
        writes_failed: 0,
    };
    for reads in 0..READS {
        let (ended, written) = after_reads(rt.alloc(), &input, reads)?;
        let (_, len) = after_cut(input.len().min(2 * reads));
        let is_so = ended == failed && Some(written.as_slice()) == replies.get(..len);
        assert!(rt; is_so, "after {reads} reads");
    }
    let (ended, written) = after_reads(rt.alloc(), &input, READS)?;
    assert!(rt; ended == well(4) && written == replies);
    Ok(())
}

/// How many bytes of the replies so many calls write: three a write, and a flush after each reply.
fn written_by(calls: usize) -> usize {
    let mut left = calls;
    let mut written = 0_usize;
    for (len, writes) in [(20_usize, 7), (20, 7), (12, 4), (33, 11)] {
        if left <= writes {
            return written.saturating_add(len.min(left.saturating_mul(3)));
        }
        left = left.saturating_sub(writes).saturating_sub(1);
        written = written.saturating_add(len);
    }
    written
}

/// The writes and flushes of the first run's replies.
const CALLS: usize = 33;

#[test]
fn a_write_or_flush_that_fails_is_noted_and_ends_the_line(rt: HostRuntime) -> Result<(), Fail> {
    let (input, replies) = first_run(rt.alloc())?;
    let failed = Ended {
        ended: Err(LineFault::Write),
        reads_failed: 0,
        writes_failed: 1,
    };
    for calls in 0..CALLS {
        let (ended, written) = after_calls(rt.alloc(), &input, calls)?;
        let is_so = ended == failed && Some(written.as_slice()) == replies.get(..written_by(calls));
        assert!(rt; is_so, "after {calls} calls");
    }
    let (ended, written) = after_calls(rt.alloc(), &input, CALLS)?;
    assert!(rt; ended == well(4) && written == replies);
    Ok(())
}

#[test]
fn a_writer_that_takes_nothing_has_failed(rt: HostRuntime) -> Result<(), Fail> {
    let (input, replies) = first_run(rt.alloc())?;
    let mut room = [0; 25];
    let mut reader = Watched::of_std(input.as_slice());
    let mut writer = Watched::of_std(room.as_mut_slice());
    let ended = serve(rt.alloc(), &mut reader, &mut writer)?;
    let failed = Ended {
        ended: Err(LineFault::Write),
        reads_failed: 0,
        writes_failed: 1,
    };
    assert!(rt; ended == failed);
    assert!(rt; replies.get(..25) == Some(room.as_slice()));
    Ok(())
}

#[test]
fn an_interruption_is_no_failure(rt: HostRuntime) -> Result<(), Fail> {
    let (input, replies) = first_run(rt.alloc())?;
    let mut reader = Watched::of_std(Drip {
        rest: &input,
        fails: false,
        interrupts: false,
    });
    let mut writer = Watched::of_std(Narrow {
        bytes: Vec::new(rt.alloc()),
        room: usize::MAX,
        interrupts: false,
    });
    let ended = serve(rt.alloc(), &mut reader, &mut writer)?;
    assert!(rt; ended == well(4));
    let Narrow { bytes, .. } = writer.into_std();
    assert!(rt; bytes == replies);
    Ok(())
}

#[test]
fn failures_are_counted_one_by_one(rt: HostRuntime) -> Result<(), Fail> {
    let mut reader = Watched::of_std(FailingReader {
        rest: b"abc",
        reads: 1,
    });
    let mut bytes = [0; 3];
    assert!(rt; matches!(reader.read(&mut bytes), Ok(2)));
    assert_eq!(rt; reader.failures(), 0);
    for count in 1..4 {
        assert!(rt; reader.read(&mut bytes).is_err());
        assert_eq!(rt; reader.failures(), count);
    }
    Ok(())
}
