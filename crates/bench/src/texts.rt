// The runs over texts of 64,000 bytes, and of PBKDF2.

use crate::run::{KEY, Run, Unit, key_of};
use aes_cmac::cmac;
use aes_modes::{CounterBits, Direction, ModeFault, cbc, ctr, ecb};
use aes_vector::{Block, Key};
use hmac_sha2::{hmac256, pbkdf2};
use std::alloc::Global;
use std::io;
use std::time::CpuClock;

/// The length of a text in bytes.
const TEXT_SIZE: usize = 64_000;

/// The initialization vector, and the first counter.
const START: Block = [0xf0; 16];

/// What is done to a text.
#[derive(Clone, Copy)]
pub(crate) enum Work {
    Ecb(Direction),
    Cbc(Direction),
    Ctr,
    Cmac,
    Hmac,
}

impl Work {
    fn name(self) -> &'static str {
        match self {
            Work::Ecb(Direction::Encrypt) => "ECB encrypt",
            Work::Ecb(Direction::Decrypt) => "ECB decrypt",
            Work::Cbc(Direction::Encrypt) => "CBC encrypt",
            Work::Cbc(Direction::Decrypt) => "CBC decrypt",
            Work::Ctr => "CTR",
            Work::Cmac => "CMAC",
            Work::Hmac => "HMAC-SHA-256",
        }
    }
}

fn error_of(fault: ModeFault) -> io::Error {
    match fault {
        ModeFault::Memory => io::Error::from(io::ErrorKind::OutOfMemory),
        ModeFault::LenRange | ModeFault::BadPad | ModeFault::CounterEnd => {
            io::Error::from(io::ErrorKind::InvalidInput)
        }
    }
}

// The last block of some bytes, with zeros behind it where they are fewer.
fn last_block(bytes: &[u8]) -> Block {
    let start = bytes.len().saturating_sub(16);
    let mut block = [0; 16];
    for (byte, last) in block.iter_mut().zip(bytes[start..].iter()) {
        *byte = *last;
    }
    block
}

// The last block of what a text becomes.
fn done(alloc: Global, work: Work, key: &Key, bits: CounterBits, text: &[u8]) -> io::Result<Block> {
    match work {
        Work::Ecb(direction) => {
            let out = ecb(alloc, key, direction, text).map_err(error_of)?;
            Ok(last_block(&out))
        }
        Work::Cbc(direction) => {
            let out = cbc(alloc, key, direction, START, text).map_err(error_of)?;
            Ok(last_block(&out))
        }
        Work::Ctr => {
            let out = ctr(alloc, key, Direction::Encrypt, bits, START, text).map_err(error_of)?;
            Ok(last_block(&out))
        }
        Work::Cmac => Ok(cmac(key, text)),
        Work::Hmac => Ok(last_block(&hmac256(&KEY, text))),
    }
}

/// One kind of work, done to as many texts.
pub(crate) fn over_texts(
    rt: &impl CpuClock,
    alloc: Global,
    work: Work,
    size: usize,
    count: u32,
) -> io::Result<Run> {
    let key = key_of(&KEY, size)?;
    let bits = CounterBits::new(128).ok_or(io::Error::from(io::ErrorKind::InvalidInput))?;
    let mut text = vec![in alloc; 0x5a_u8; TEXT_SIZE]?;
    let mut sum = [0; 16];
    let start = rt.thread_cpu_time()?;
    for _ in 0..count {
        sum = done(alloc, work, &key, bits, &text)?;
        // (no text is the one before, so that none is done once for all)
        if let Some(first) = text.first_mut() {
            *first = sum[0];
        }
    }
    Ok(Run {
        what: work.name(),
        unit: Unit::Text,
        count,
        sum,
        time: rt.thread_cpu_time()?.saturating_sub(start),
    })
}

/// A key derived in so many rounds, of which there is at least one.
pub(crate) fn derivation(rt: &impl CpuClock, rounds: u32) -> io::Result<Run> {
    let rounds = rounds.max(1);
    let start = rt.thread_cpu_time()?;
    let key = pbkdf2(b"password", b"salt", rounds);
    Ok(Run {
        what: "PBKDF2-HMAC-SHA-256",
        unit: Unit::Round,
        count: rounds,
        sum: last_block(&key),
        time: rt.thread_cpu_time()?.saturating_sub(start),
    })
}
