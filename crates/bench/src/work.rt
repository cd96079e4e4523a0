//! What threads do over and over, and how long it takes.

use crate::calls::failed;
use crate::client::Client;
use crate::requests::VALUE;
use aes_modes::{CounterBits, Direction, cbc_pad, ctr};
use aes_vector::{Block, Key};
use ck_types::MechType;
use std::alloc::Global;
use std::fs::File;
use std::io::{Seek, Write};
use std::thread::Threads;
use std::time::{Clock, Instant};
use std::{fs, io, mem, thread};

/// The initialization vector, and the first counter.
pub(crate) const START: Block = [3; 16];

/// A cipher over a text.
#[derive(Drop)]
pub(crate) struct Cipher {
    pub(crate) alloc: Global,
    pub(crate) mechanism: MechType,
    pub(crate) direction: Direction,
    pub(crate) text: Vec<u8>,
}

impl Cipher {
    /// The text under CTR or under CBC with padding, by the key that all clients have.
    pub(crate) fn output(&self) -> io::Result<Vec<u8>> {
        let Some(key) = Key::new(&VALUE) else {
            return Err(failed());
        };
        let output = match self.mechanism {
            MechType::AesCtr => {
                let Some(bits) = CounterBits::new(128) else {
                    return Err(failed());
                };
                ctr(self.alloc, &key, self.direction, bits, START, &self.text)
            }
            _ => cbc_pad(self.alloc, &key, self.direction, START, &self.text),
        };
        output.map_err(|_| failed())
    }
}

/// A file that is written and synced, always in the same place.
#[derive(Drop)]
pub(crate) struct SyncedFile {
    file: File,
    bytes: Vec<u8>,
}

impl SyncedFile {
    /// A new file, for so many bytes at once.
    pub(crate) fn create(rt: &HostRuntime, path: &str, len: usize) -> io::Result<SyncedFile> {
        let bytes = vec![in rt.alloc(); 0x5a_u8; len]?;
        let file = fs::create(rt, path)?;
        Ok(SyncedFile { file, bytes })
    }

    /// Writes all bytes over those that were there, and syncs the file.
    pub(crate) fn write(&mut self) -> io::Result<()> {
        self.file.rewind()?;
        self.file.write_all(&self.bytes)?;
        self.file.sync_data()
    }
}

/// What one thread does over and over.
#[derive(Drop)]
pub(crate) enum Work {
    /// Frames that a server answers.
    Calls(Client, Vec<Vec<u8>>),
    Cipher(Cipher),
    Sync(SyncedFile),
}

impl Work {
    /// Does it once.
    pub(crate) fn once(&mut self) -> io::Result<()> {
        match self {
            Work::Calls(client, frames) => client.ask_all(frames),
            Work::Cipher(cipher) => {
                drop(cipher.output()?);
                Ok(())
            }
            Work::Sync(file) => file.write(),
        }
    }

    /// Does it so often, and returns it.
    fn repeat(mut self, count: u64) -> io::Result<Work> {
        for _ in 0..count {
            self.once()?;
        }
        Ok(self)
    }
}

/// Nanoseconds for each of so many, since a moment.
pub(crate) fn nanos_each(rt: &impl Clock, count: u64, since: Instant) -> io::Result<u64> {
    let nanos = u64::try_from(since.elapsed(rt)?.as_nanos()).unwrap_or(u64::MAX);
    Ok(nanos / count.max(1))
}

/// Does all works so often, each in a thread of its own. Returns the nanoseconds that pass for each time of each, 0 for none.
pub(crate) fn time_together<T: Threads>(
    rt: &HostRuntime,
    threads: &T,
    works: &mut Vec<Work>,
    count: u64,
) -> io::Result<u64> {
    if works.is_empty() {
        return Ok(0);
    }
    let all = count.saturating_mul(works.len() as u64);
    let waiting = mem::replace(works, Vec::new(rt.alloc()));
    let mut running = Vec::new(rt.alloc());
    let start = Instant::now(rt)?;
    for work in waiting {
        running.push(thread::spawn(threads, move || work.repeat(count))?)?;
    }
    for thread in running {
        works.push(thread.join(threads)?)?;
    }
    nanos_each(rt, all, start)
}
