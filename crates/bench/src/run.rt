// The runs that are measured, and a line for each.

use aes_vector::{Block, Key, xor_blocks};
use std::alloc::Global;
use std::io;
use std::time::{CpuClock, Duration};

/// The key of FIPS 197, C.3; its first 16 and 24 bytes are those of C.1 and C.2.
pub(crate) const KEY: [u8; 32] = [
    0, 1, 2, 3, 4, 5, 6, 7, 8, 9, 10, 11, 12, 13, 14, 15, 16, 17, 18, 19, 20, 21, 22, 23, 24, 25,
    26, 27, 28, 29, 30, 31,
];

/// The plain text of FIPS 197, C.1 to C.3.
const PLAIN: Block = [
    0x00, 0x11, 0x22, 0x33, 0x44, 0x55, 0x66, 0x77, 0x88, 0x99, 0xaa, 0xbb, 0xcc, 0xdd, 0xee, 0xff,
];

/// The blocks of a text of 64 KiB; keys are counted by as many.
const BATCH: u32 = 4096;

/// The keys that are kept at once: few enough for the nearest cache.
const KEPT: usize = 32;

/// What a run makes.
#[derive(Clone, Copy)]
pub(crate) enum Unit {
    Block,
    Key,
    /// A text of 64,000 bytes.
    Text,
    /// A round of PBKDF2.
    Round,
    /// An event of the token.
    Event,
    /// A call of the token.
    Call,
    /// Calls of the token that belong together, and their jobs.
    Exchange,
    /// A text of so many bytes.
    Bytes(u32),
}

/// What a line prints of a run.
#[derive(Clone, Copy)]
pub(crate) enum Report {
    Times,
    Sums,
}

/// A run: how many blocks or keys it made, the exclusive or of its last blocks, and its time.
#[derive(Drop)]
pub(crate) struct Run {
    pub(crate) what: &'static str,
    pub(crate) unit: Unit,
    pub(crate) count: u32,
    pub(crate) sum: Block,
    pub(crate) time: Duration,
}

// The key of the first so many bytes.
pub(crate) fn key_of(bytes: &[u8; 32], size: usize) -> io::Result<Key> {
    bytes
        .get(..size)
        .and_then(|part| Key::new(part))
        .ok_or(io::Error::from(io::ErrorKind::InvalidInput))
}

/// Blocks that do not depend on one another.
pub(crate) fn blocks_apart(
    rt: &impl CpuClock,
    alloc: Global,
    size: usize,
    batches: u32,
) -> io::Result<Run> {
    let key = key_of(&KEY, size)?;
    let mut text = Vec::new(alloc);
    for i in 0..BATCH {
        text.push(u128::from(i).to_be_bytes())?;
    }
    let start = rt.thread_cpu_time()?;
    for _ in 0..batches {
        for block in text.iter_mut() {
            let encrypted = key.encipher(*block);
            *block = encrypted;
        }
    }
    let time = rt.thread_cpu_time()?.saturating_sub(start);
    let sum = text
        .iter()
        .fold([0; 16], |sum, block| xor_blocks(sum, *block));
    Ok(Run {
        what: "encrypt blocks apart",
        unit: Unit::Block,
        count: batches.saturating_mul(BATCH),
        sum,
        time,
    })
}

/// Blocks each of which is what the one before was encrypted to.
pub(crate) fn chain(rt: &impl CpuClock, size: usize, batches: u32) -> io::Result<Run> {
    let key = key_of(&KEY, size)?;
    let count = batches.saturating_mul(BATCH);
    let mut block = PLAIN;
    let start = rt.thread_cpu_time()?;
    for _ in 0..count {
        block = key.encipher(block);
    }
    Ok(Run {
        what: "encrypt a chain",
        unit: Unit::Block,
        count,
        sum: block,
        time: rt.thread_cpu_time()?.saturating_sub(start),
    })
}

/// Blocks each of which is what the one before was decrypted to.
pub(crate) fn chain_back(rt: &impl CpuClock, size: usize, batches: u32) -> io::Result<Run> {
    let key = key_of(&KEY, size)?;
    let count = batches.saturating_mul(BATCH);
    let mut block = PLAIN;
    let start = rt.thread_cpu_time()?;
    for _ in 0..count {
        block = key.decipher(block);
    }
    Ok(Run {
        what: "decrypt a chain",
        unit: Unit::Block,
        count,
        sum: block,
        time: rt.thread_cpu_time()?.saturating_sub(start),
    })
}

/// Keys that are kept, a few at once.
pub(crate) fn keys_kept(
    rt: &impl CpuClock,
    alloc: Global,
    size: usize,
    batches: u32,
) -> io::Result<Run> {
    let mut kept = Vec::with_capacity(alloc, KEPT)?;
    let count = batches.saturating_mul(BATCH);
    let mut bytes = KEY;
    let start = rt.thread_cpu_time()?;
    for i in 0..count {
        if kept.len() == KEPT {
            kept.clear();
        }
        bytes[..4].copy_from_slice(&i.to_be_bytes());
        kept.push(key_of(&bytes, size)?)?;
    }
    let time = rt.thread_cpu_time()?.saturating_sub(start);
    let sum = kept
        .iter()
        .fold([0; 16], |sum, key| xor_blocks(sum, key.encipher(PLAIN)));
    Ok(Run {
        what: "Key::new",
        unit: Unit::Key,
        count,
        sum,
        time,
    })
}

/// Keys that encrypt one block each, which the next key is made of.
pub(crate) fn keys_for_a_block(rt: &impl CpuClock, size: usize, batches: u32) -> io::Result<Run> {
    let count = batches.saturating_mul(BATCH);
    let mut bytes = KEY;
    let mut block = PLAIN;
    let start = rt.thread_cpu_time()?;
    for _ in 0..count {
        bytes[..16].copy_from_slice(&block);
        block = key_of(&bytes, size)?.encipher(block);
    }
    Ok(Run {
        what: "Key::new and one encrypt",
        unit: Unit::Key,
        count,
        sum: block,
        time: rt.thread_cpu_time()?.saturating_sub(start),
    })
}

impl Run {
    /// Prints the line of a run under a key of `size` bytes.
    pub(crate) fn print(&self, rt: &impl Print, size: usize, report: Report) -> io::Result<()> {
        let bits = size.saturating_mul(8);
        let what = self.what;
        let count = self.count;
        match report {
            Report::Sums => {
                let sum = u128::from_be_bytes(self.sum);
                println!(rt; "{bits:>4}  {what:<38}{count:>9}  {sum:032x}")
            }
            Report::Times => {
                let seconds = self.time.as_secs_f64();
                let each = seconds * 1e9 / f64::from(count);
                let (rate, unit) = match self.unit {
                    Unit::Block => (f64::from(count) * 16.0 / 1e6 / seconds, "MB/s"),
                    Unit::Text => (f64::from(count) * 0.064 / seconds, "MB/s"),
                    Unit::Key => (f64::from(count) / 1e6 / seconds, "million keys/s"),
                    Unit::Bytes(len) => (f64::from(count) * f64::from(len) / 1e6 / seconds, "MB/s"),
                    Unit::Round | Unit::Event | Unit::Call => (seconds * 1e3, "ms in all"),
                    Unit::Exchange => (f64::from(count) / seconds, "a second"),
                };
                println!(rt; "{bits:>4}  {what:<38}{count:>9}{each:>10.1}{rate:>10.2}  {unit}")
            }
        }
    }
}
