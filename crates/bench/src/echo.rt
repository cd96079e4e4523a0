//! An echo over a Unix socket: a thread that reads frames and writes replies, of the same lengths as a daemon's.

use crate::client::{Client, LENGTH_LEN};
use std::alloc::Global;
use std::io::{Read, Write};
use std::os::unix::net::{UnixListener, UnixStream};
use std::thread::{JoinHandle, Threads};
use std::{fs, io, thread};

/// A frame that comes in, and the frame that is its reply.
#[derive(Drop)]
pub(crate) struct Exchange {
    request_len: usize,
    reply: Vec<u8>,
}

impl Exchange {
    /// A frame of so many bytes, and a reply of so many that is CKR_OK.
    pub(crate) fn new(alloc: Global, request_len: usize, reply_len: usize) -> io::Result<Exchange> {
        let payload_len = reply_len.saturating_sub(LENGTH_LEN);
        let length = u32::try_from(payload_len).unwrap_or(u32::MAX).to_be_bytes();
        let zeros = vec![in alloc; 0u8; payload_len]?;
        let mut reply = Vec::new(alloc);
        reply.extend_from_slice(&length)?;
        reply.extend_from_slice(&zeros)?;
        Ok(Exchange { request_len, reply })
    }
}

/// Reads a frame of each exchange and writes its reply. Whether the connection goes on.
fn answer_all(
    stream: &mut UnixStream,
    request: &mut [u8],
    exchanges: &[Exchange],
) -> io::Result<bool> {
    for exchange in exchanges {
        let len = exchange.request_len.min(request.len());
        let (front, _) = request.split_at_mut(len);
        if stream.read_exact(front).is_err() {
            return Ok(false);
        }
        stream.write_all(&exchange.reply)?;
    }
    Ok(true)
}

/// Does what a connection's frames ask for, all exchanges over and over, until it ends.
fn serve(alloc: Global, mut stream: UnixStream, exchanges: Vec<Exchange>) -> io::Result<()> {
    let longest = exchanges
        .iter()
        .fold(0, |most, exchange| exchange.request_len.max(most));
    let mut request = vec![in alloc; 0u8; longest]?;
    for _ in 0..u64::MAX {
        if !answer_all(&mut stream, &mut request, &exchanges)? {
            break;
        }
    }
    Ok(())
}

/// A thread that echoes until its client is dropped.
pub(crate) type EchoThread = JoinHandle<io::Result<()>>;

/// A client over the socket `SOCKET.echo`, and the thread that echoes its frames.
pub(crate) fn start_echo<T: Threads>(
    rt: &HostRuntime,
    threads: &T,
    socket: &str,
    exchanges: Vec<Exchange>,
    longest: usize,
) -> io::Result<(Client, EchoThread)> {
    let path = format!(in rt.alloc(); "{socket}.echo")?;
    let listener = UnixListener::bind(rt, path.as_str())?;
    let client = Client::dial(rt, path.as_str(), longest);
    fs::remove_file(rt, path.as_str())?;
    let client = client?;
    let (stream, _) = listener.accept()?;
    let alloc = rt.alloc();
    let thread = thread::spawn(threads, move || serve(alloc, stream, exchanges))?;
    Ok((client, thread))
}
