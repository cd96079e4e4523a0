//! What led to a failure, as the line after the failure's own reports it. It names options and ids, and no value, PIN, label or
//! handle.

use std::io;
use stdio_line::LineFault;
use store_files::StoreCause;
use thiserror::Error;

/// What led to a failure.
#[derive(Clone, Copy, Debug, Error)]
pub enum Cause {
    #[error("--socket-mode is not a number of up to 777 in octal digits")]
    SocketMode,
    #[error("--max-objects goes with a store in a file")]
    MaxObjects,
    #[error("--seed is not 64 hexadecimal digits")]
    SeedDigits,
    #[error("--seed-file cannot be read: {0}")]
    SeedFile(io::Error),
    #[error("--seed-file has fewer than 32 bytes")]
    ShortSeedFile,
    #[error("the system gives no random bytes: {0}")]
    RandomBytes(io::Error),
    #[error("{0}")]
    Store(StoreCause),
    #[error("its disk failed and sqlite has shut it: what was acknowledged is in it, start again")]
    StoreShut,
    #[error("--socket cannot be used: {0}")]
    Socket(io::Error),
    #[error("another program listens on --socket, or its file is no socket")]
    SocketTaken,
    #[error("LISTEN_FDS hands over {0} sockets, more than 64")]
    HandedOver(u64),
    #[error("what LISTEN_FDS hands over is no Unix socket: {0}")]
    HandedOverSocket(io::Error),
    #[error("connections cannot be waited for: {0}")]
    Waiting(io::Error),
    #[error("no connection can be accepted any more")]
    Accept,
    #[error("a thread cannot be started")]
    Thread,
    #[error("line {0} of the input is no payload in hexadecimal")]
    InputLine(u64),
    #[error("{0}")]
    Line(LineFault),
    #[error("standard input cannot be read: {0}")]
    Input(io::Error),
    #[error("standard output cannot be written: {0}")]
    Output(io::Error),
    #[error("the daemon ended the connection")]
    Ended,
}
