//! A client of the daemon.

use crate::calls::failed;
use crate::requests::{new_key, open_session};
use std::alloc::Global;
use std::io;
use std::io::{ErrorKind, Read, Write};
use std::os::unix::net::UnixStream;

/// A frame begins with the length of its payload, and the payload of a reply with its code (`wire`).
pub(crate) const LENGTH_LEN: usize = 4;

const CODE_LEN: usize = 8;

/// A connection, and the last reply.
#[derive(Drop)]
pub(crate) struct Client {
    stream: UnixStream,
    reply: Vec<u8>,
    reply_len: usize,
}

impl Client {
    /// Connects, for replies whose frames have at most so many bytes.
    pub(crate) fn dial(rt: &HostRuntime, path: &str, longest: usize) -> io::Result<Client> {
        let stream = UnixStream::connect(rt, path)?;
        let reply = vec![in rt.alloc(); 0u8; longest]?;
        Ok(Client {
            stream,
            reply,
            reply_len: 0,
        })
    }

    /// Connects, opens a session and makes a key.
    pub(crate) fn connect(rt: &HostRuntime, path: &str, longest: usize) -> io::Result<Client> {
        let mut client = Client::dial(rt, path, longest)?;
        client.begin(rt.alloc())?;
        Ok(client)
    }

    fn begin(&mut self, alloc: Global) -> io::Result<()> {
        self.ask(&open_session(alloc)?)?;
        self.ask(&new_key(alloc)?)
    }

    /// Sends frames, each after the reply to the one before.
    pub(crate) fn ask_all(&mut self, frames: &[Vec<u8>]) -> io::Result<()> {
        for frame in frames {
            self.ask(frame)?;
        }
        Ok(())
    }

    /// Sends a frame, and reads its reply, which is to be CKR_OK.
    pub(crate) fn ask(&mut self, frame: &[u8]) -> io::Result<()> {
        self.stream.write_all(frame)?;
        let mut len: usize = 0;
        for _ in 0..u64::MAX {
            let place = len.min(self.reply.len());
            let (_, rest) = self.reply.split_at_mut(place);
            let got = self.stream.read(rest)?;
            if got == 0 {
                return Err(ErrorKind::UnexpectedEof.into());
            }
            len = place.saturating_add(got);
            if is_whole(self.reply.get(..len).unwrap_or(&[])) {
                break;
            }
        }
        self.reply_len = len;
        if is_ok(self.reply()) {
            Ok(())
        } else {
            Err(failed())
        }
    }

    /// The frame of the last reply.
    pub(crate) fn reply(&self) -> &[u8] {
        self.reply.get(..self.reply_len).unwrap_or(&[])
    }
}

fn is_whole(bytes: &[u8]) -> bool {
    match bytes.first_chunk::<LENGTH_LEN>() {
        Some(length) => {
            let len = u32::from_be_bytes(*length) as usize;
            bytes.len() >= len.saturating_add(LENGTH_LEN)
        }
        None => false,
    }
}

/// Whether the code of a reply's frame is CKR_OK.
fn is_ok(reply: &[u8]) -> bool {
    let payload = reply.get(LENGTH_LEN..).unwrap_or(&[]);
    payload.first_chunk::<CODE_LEN>() == Some(&[0; CODE_LEN])
}
