//! `tokend p11call`: calls in hexadecimal, one a line, and their replies.

ghost use Rattle.commands.specs.Statuses.{IsStatus};

use crate::cause::Cause;
use crate::failure::{Failure, Fault};
use clap::ArgMatches;
use std::alloc::Global;
use std::io::{BufRead, BufReader, Read, Write};
use std::os::unix::net::UnixStream;
use wire::{FrameReader, MAX_PAYLOAD_LEN};

/// Makes the calls of the input's lines to the daemon whose socket the command line names.
pub(crate) fn p11call<I: Read, O: Write>(
    rt: &HostRuntime,
    matches: &ArgMatches<'_>,
    input: &mut I,
    output: &mut O,
) -> Result<(), Fault> {
    let path = matches.get_str("socket").ok_or(Failure::Socket)?;
    match UnixStream::connect(rt, path) {
        Ok(mut stream) => ask_all(rt.alloc(), input, output, &mut stream),
        Err(error) => Err(Failure::Socket.because(Cause::Socket(error))),
    }
}

/// Sends each line of the input, which is the payload of a call in hexadecimal, to the stream as a frame. Writes the payload of
/// its reply to the output as a line of lower-case hexadecimal. Returns the exit status:
/// - 0 at the end of the input;
/// - 4 where the stream fails or ends;
/// - 5 at a line that is not hexadecimal or spells more than a payload's limit;
/// - 6 where an allocation failed;
/// - 7 where the input or the output fails.
///
/// Replies before that stay written.
pub fn ask<I: Read, O: Write, S: Read + Write>(
    alloc: Global,
    input: &mut I,
    output: &mut O,
    stream: &mut S,
) -> u8
    ensures { IsStatus result }
{
    match ask_all(alloc, input, output, stream) {
        Ok(()) => 0,
        Err(fault) => fault.status(),
    }
}

fn ask_all<I: Read, O: Write, S: Read + Write>(
    alloc: Global,
    input: &mut I,
    output: &mut O,
    stream: &mut S,
) -> Result<(), Fault> {
    let Ok(mut input) = BufReader::new(alloc, input) else {
        return Err(Failure::Memory.into());
    };
    let mut frames = FrameReader::new(alloc);
    let mut line = Vec::new(alloc);
    for number in 1..u64::MAX {
        line.clear();
        match input.read_until(b'\n', &mut line) {
            Ok(0) => return Ok(()),
            Ok(_) => ask_line(alloc, number, &line, output, stream, &mut frames)?,
            Err(error) => return Err(Failure::Line.because(Cause::Input(error))),
        }
    }
    Err(Failure::Line.into())
}

/// Makes the call of a line, and writes its reply.
fn ask_line<O: Write, S: Read + Write>(
    alloc: Global,
    number: u64,
    line: &[u8],
    output: &mut O,
    stream: &mut S,
    frames: &mut FrameReader,
) -> Result<(), Fault> {
    let payload = payload_in(alloc, number, line)?;
    send(stream, &payload)?;
    let reply = reply_from(alloc, stream, frames)?;
    tell(alloc, output, &reply)
}

/// The payload that a line spells.
fn payload_in(alloc: Global, number: u64, line: &[u8]) -> Result<Vec<u8>, Fault> {
    match hex::decode(alloc, line.trim_ascii()) {
        Ok(payload) if payload.len() <= MAX_PAYLOAD_LEN => Ok(payload),
        Err(hex::FromHexError::OutOfMemory) => Err(Failure::Memory.into()),
        _ => Err(Failure::BadInput.because(Cause::InputLine(number))),
    }
}

fn send<S: Write>(stream: &mut S, payload: &[u8]) -> Result<(), Fault> {
    let Ok(len) = u32::try_from(payload.len()) else {
        return Err(Failure::BadInput.into());
    };
    let sent = stream
        .write_all(&len.to_be_bytes())
        .and_then(|()| stream.write_all(payload))
        .and_then(|()| stream.flush());
    match sent {
        Ok(()) => Ok(()),
        Err(error) => Err(Failure::Socket.because(Cause::Socket(error))),
    }
}

/// The payload of the next frame.
fn reply_from<S: Read>(
    alloc: Global,
    stream: &mut S,
    frames: &mut FrameReader,
) -> Result<Vec<u8>, Fault> {
    let mut piece = [0u8; 4096];
    for _ in 0..u64::MAX {
        match frames.next(alloc) {
            Ok(Some(payload)) => return Ok(payload),
            Ok(None) => {}
            Err(fault) => return Err(Failure::from(fault).into()),
        }
        match stream.read(&mut piece) {
            Ok(0) => return Err(Failure::Socket.because(Cause::Ended)),
            Ok(len) => match frames.feed(piece.get(..len).unwrap_or(&[])) {
                Ok(()) => {}
                Err(fault) => return Err(Failure::from(fault).into()),
            },
            Err(error) => return Err(Failure::Socket.because(Cause::Socket(error))),
        }
    }
    Err(Failure::Socket.into())
}

fn tell<O: Write>(alloc: Global, output: &mut O, reply: &[u8]) -> Result<(), Fault> {
    let Ok(text) = hex::encode(alloc, reply) else {
        return Err(Failure::Memory.into());
    };
    match writeln!(output, "{text}").and_then(|()| output.flush()) {
        Ok(()) => Ok(()),
        Err(error) => Err(Failure::Line.because(Cause::Output(error))),
    }
}
