//! The speed of `aes_vector`, `aes_modes`, `aes_cmac`, `hmac_sha2`, `token` and `line`, printed as a table. It is measured, and
//! nothing of it is proved but that the program is safe and ends.
//!
//! With no argument it works, for each key length, on 64 MiB or a million keys a row. It prints nanoseconds of processor time for
//! a block or a key, and millions of bytes or keys a second:
//!
//! - blocks that don't depend on one another: a text of 64 KiB, encrypted over and over;
//! - a chain: each block is what the one before was encrypted to, so that none begins before that is done;
//! - keys that are made and kept, and keys that are made for one block each;
//! - a text of 64,000 bytes, a thousand times, under each mode and MAC.
//!
//! After them stand:
//! - HMAC-SHA-256 over such texts;
//! - 10,000 rounds of PBKDF2;
//! - logins and logouts of a user beside as many derivations alone;
//! - C_GetAttributeValue among 100, 10,000 and 100,000 token objects, of a hundred of them and of each;
//! - searches by label over 1,000 and 10,000 token objects;
//! - frames of C_Encrypt through a line in parts of 4,096 and of 16 bytes beside the cipher alone;
//! - 100,000 events of two applications in one run of the token.
//!
//! With the argument `small` it works on 64 KiB, 4,096 keys, one text or 100 rounds a row. Instead of times it prints the
//! exclusive or of the blocks that were made, or the last block. They are the same on each machine, so that CI can run it. Last it
//! echoes a few times over a socket `bench.sock` in the folder that it is run in, and prints how often.
//!
//! With the argument `pieces` it gives 64 MiB a row to a token, by CBC and by CTR, both ways. It gives them in parts of 65,536
//! bytes of one operation (C_EncryptUpdate, C_DecryptUpdate), beside operations of one call each (C_Encrypt, C_Decrypt). With
//! `small` there are two calls a row.
//!
//! With the argument `memory` it gives a token 1 GiB by C_EncryptUpdate. It prints how much memory the system reports as resident
//! before, amid and after.
//!
//! With the arguments `calls SOCKET` it calls a daemon (`tokend serve`) that listens there. The daemon's token may be new, and it
//! should serve nobody else meanwhile. Each line has what is measured and its floor, as medians of eleven rounds by turns:
//!
//! - C_GetSessionInfo, whose floor is an echo of frames of the same lengths, by a thread of this program on a socket `SOCKET.echo`;
//! - C_EncryptInit and C_Encrypt, counted as one, of 16 bytes under ECB, whose floor is two echoes;
//! - the same of 16,384, 64,000 and 1,048,528 bytes under CBC_PAD, whose floor also has the cipher alone over the same text;
//! - C_DecryptInit and C_Decrypt of 64,000 bytes under CBC_PAD and CTR, with such a floor;
//! - C_GetSessionInfo and CBC_PAD of 16,384 bytes by four clients, each in a thread of its own. Their floor is as many echoes and
//!   ciphers in as many threads.
//!
//! With a number behind it, as in `calls SOCKET 64`, C_GetSessionInfo is measured by so many clients, too. The daemon has to have
//! as many places (`--clients`). The columns are microseconds: what each takes, its echo, what else its floor has, and the floor.
//! Behind them stand how many floors each takes, how many are done a second, and how many times as many as by one client.
//!
//! With the arguments `objects SOCKET` it makes 10,000 keys of the daemon's token, or as many as a number behind it says, at least
//! 100. They stay, but for some that are destroyed at the end. Its lines are as those of `calls`:
//!
//! - C_CreateObject, whose floor is an echo, and a write and a sync of as many bytes to a file `SOCKET.file`;
//! - C_GetObjectSize of a hundred keys, which the cache holds, and of each in turn, which the store reads;
//! - searches by label, which finds one key, or one in a hundred, by CKA_ID, by class, and by an attribute that has no mark. Each
//!   is C_FindObjectsInit, C_FindObjects and C_FindObjectsFinal, whose floor is three echoes. The first of each stands apart;
//! - C_DestroyObject of keys from the beginning, the middle and the end, with a floor as C_CreateObject has.
//!
//! With the arguments `searches SOCKET` it does those searches alone, as after a new start of the daemon, which notes all marks
//! before it serves.
//!
//! With the arguments `opens STORE` it opens a store that no daemon has open, as a daemon does when it starts. The floor is reading
//! the file.
//!
//! OpenSSL measures the same ciphers, in processor time too. It doesn't use the AES instructions of the processor where the bits
//! that announce these and the carry-less product are masked. Its ECB is blocks that don't depend on one another, its CBC a
//! chain:
//!
//! ```sh
//! OPENSSL_ia32cap='~0x200000200000000' openssl speed -evp aes-128-ecb
//! OPENSSL_ia32cap='~0x200000200000000' openssl speed -evp aes-128-cbc
//! ```
#![tactic(auto)]

mod calls;
mod client;
mod echo;
mod events;
mod frames;
mod logins;
mod measures;
mod objects;
mod opening;
mod pieces;
mod reading;
mod requests;
mod rounds;
mod run;
mod searching;
mod texts;
mod work;

use aes_modes::Direction;
use events::events;
use frames::{cipher, frames};
use logins::{derivations, logins};
use measures::{FOUR, print_calls, print_echo};
use objects::{KEYS, print_key_searches, print_objects};
use opening::print_openings;
use pieces::{print_memory, print_pieces};
use reading::reading;
use run::{Report, blocks_apart, chain, chain_back, keys_for_a_block, keys_kept};
use searching::searching;
use std::alloc::Global;
use std::thread::Threads;
use std::time::CpuClock;
use std::{env, io};
use texts::{Work, derivation, over_texts};

/// How much is done for each row, and what a row prints.
#[derive(Clone, Copy)]
struct Scale {
    /// Batches of 64 KiB, and of 4,096 keys.
    block_batches: u32,
    key_batches: u32,
    texts: u32,
    rounds: u32,
    logins: u32,
    events: u32,
    report: Report,
}

/// 64 MiB, and a million keys.
const FULL: Scale = Scale {
    block_batches: 1024,
    key_batches: 256,
    texts: 1000,
    rounds: 10_000,
    logins: 100,
    events: 100_000,
    report: Report::Times,
};

const SMALL: Scale = Scale {
    block_batches: 1,
    key_batches: 1,
    texts: 1,
    rounds: 100,
    logins: 1,
    events: 100,
    report: Report::Sums,
};

/// What is done to texts under each key length.
const WORKS: &[Work] = &[
    Work::Ecb(Direction::Encrypt),
    Work::Ecb(Direction::Decrypt),
    Work::Cbc(Direction::Encrypt),
    Work::Cbc(Direction::Decrypt),
    Work::Ctr,
    Work::Cmac,
];

/// The calls of a row, and for each row how many token objects there are and how many of them are read: a hundred, so that what
/// the caches of the processor hold is the same, or all.
const READINGS: u32 = 100_000;

const AMONG: &[(&str, u32, u32)] = &[
    ("GetAttributeValue among 100", 100, 100),
    ("GetAttributeValue among 10,000", 10_000, 100),
    ("GetAttributeValue among 100,000", 100_000, 100),
    ("GetAttributeValue of each of 10,000", 10_000, 10_000),
    ("GetAttributeValue of each of 100,000", 100_000, 100_000),
];

/// The searches of a row, and over how many token objects.
const OVER: &[(&str, u32, u32)] = &[
    ("a search by label over 1,000", 1000, 1000),
    ("a search by label over 10,000", 10_000, 100),
];

/// The texts that go through a line: their length, their number, and the length of the parts that they come in, 0 for the cipher
/// alone. The longest text that a frame of C_Encrypt can have is among them.
const THROUGH: &[(&str, u32, u32, usize)] = &[
    ("ECB of 64,000 alone", 64_000, 200, 0),
    ("a line, 64,000 by 4,096", 64_000, 200, 4096),
    ("a line, 64,000 by 16", 64_000, 200, 16),
    ("ECB of 1,048,528 alone", 1_048_528, 20, 0),
    ("a line, 1,048,528 by 4,096", 1_048_528, 20, 4096),
    ("a line, 1,048,528 by 16", 1_048_528, 20, 16),
];

/// The lengths of keys in bytes.
const KEY_SIZES: &[usize] = &[16, 24, 32];

// The rows of a key length.
fn print_ciphers(
    rt: &(impl CpuClock + Print),
    alloc: Global,
    size: usize,
    scale: Scale,
) -> io::Result<()> {
    let report = scale.report;
    blocks_apart(rt, alloc, size, scale.block_batches)?.print(rt, size, report)?;
    chain(rt, size, scale.block_batches)?.print(rt, size, report)?;
    chain_back(rt, size, scale.block_batches)?.print(rt, size, report)?;
    keys_kept(rt, alloc, size, scale.key_batches)?.print(rt, size, report)?;
    keys_for_a_block(rt, size, scale.key_batches)?.print(rt, size, report)?;
    for work in WORKS {
        over_texts(rt, alloc, *work, size, scale.texts)?.print(rt, size, report)?;
    }
    Ok(())
}

fn print_readings(rt: &(impl CpuClock + Print), alloc: Global, scale: Scale) -> io::Result<()> {
    for (what, objects, asked) in AMONG {
        let (objects, asked, count) = match scale.report {
            Report::Sums => ((*objects).min(100), (*asked).min(100), 100),
            Report::Times => (*objects, *asked, READINGS),
        };
        reading(rt, alloc, what, objects, asked, count)?.print(rt, 0, scale.report)?;
    }
    Ok(())
}

fn print_logins(rt: &(impl CpuClock + Print), alloc: Global, scale: Scale) -> io::Result<()> {
    logins(rt, alloc, scale.logins)?.print(rt, 0, scale.report)?;
    derivations(rt, scale.logins)?.print(rt, 0, scale.report)
}

fn print_searches(rt: &(impl CpuClock + Print), alloc: Global, scale: Scale) -> io::Result<()> {
    for (what, objects, count) in OVER {
        let (objects, count) = match scale.report {
            Report::Sums => (100, 1),
            Report::Times => (*objects, *count),
        };
        searching(rt, alloc, what, objects, count)?.print(rt, 0, scale.report)?;
    }
    Ok(())
}

fn print_lines(rt: &(impl CpuClock + Print), alloc: Global, scale: Scale) -> io::Result<()> {
    for (what, len, count, most) in THROUGH {
        let count = match scale.report {
            Report::Sums => 1,
            Report::Times => *count,
        };
        let run = match *most {
            0 => cipher(rt, alloc, what, *len, count)?,
            most => frames(rt, alloc, what, *len, most, count)?,
        };
        run.print(rt, 16, scale.report)?;
    }
    Ok(())
}

fn print_head(rt: &impl Print, report: Report) -> io::Result<()> {
    match report {
        Report::Sums => println!(rt;
            "bits  work                                      count  exclusive or of the blocks"
        ),
        Report::Times => {
            println!(rt;
                "bits  work                                      count   ns each      rate"
            )
        }
    }
}

/// Measures all that needs no daemon.
fn print_all(rt: &HostRuntime, scale: Scale) -> io::Result<()> {
    print_head(rt, scale.report)?;
    for size in KEY_SIZES {
        print_ciphers(rt, rt.alloc(), *size, scale)?;
    }
    over_texts(rt, rt.alloc(), Work::Hmac, 32, scale.texts)?.print(rt, 32, scale.report)?;
    derivation(rt, scale.rounds)?.print(rt, 8, scale.report)?;
    print_logins(rt, rt.alloc(), scale)?;
    print_readings(rt, rt.alloc(), scale)?;
    print_searches(rt, rt.alloc(), scale)?;
    print_lines(rt, rt.alloc(), scale)?;
    if let Report::Sums = scale.report {
        print_pieces(rt, rt.alloc(), Report::Sums)?;
    }
    events(rt, rt.alloc(), scale.events)?.print(rt, 0, scale.report)
}

fn print_usage(rt: &impl Print) -> io::Result<()> {
    println!(rt;
        "bench: nothing, or small, pieces, memory, calls SOCKET [CLIENTS], objects SOCKET [KEYS], searches SOCKET, opens STORE"
    )?;
    Err(io::Error::from(io::ErrorKind::InvalidInput))
}

/// Measures a daemon: what, and perhaps a number.
fn measure_daemon<T: Threads>(
    rt: &HostRuntime,
    threads: &T,
    what: &str,
    socket: &str,
    number: Option<u64>,
) -> io::Result<()> {
    match (what, number) {
        ("calls", number) => print_calls(rt, threads, socket, number.unwrap_or(FOUR)),
        ("objects", number) => print_objects(rt, threads, socket, number.unwrap_or(KEYS)),
        ("searches", None) => print_key_searches(rt, threads, socket),
        _ => print_usage(rt),
    }
}

/// Does what the words say, after the program's name.
fn measure<T: Threads>(rt: &HostRuntime, threads: &T, words: &[String]) -> io::Result<()> {
    match words {
        [_] => print_all(rt, FULL),
        [_, what] if what.as_str() == "small" => {
            print_all(rt, SMALL)?;
            print_echo(rt, threads, "bench.sock")
        }
        [_, what] if what.as_str() == "pieces" => {
            print_head(rt, Report::Times)?;
            print_pieces(rt, rt.alloc(), Report::Times)
        }
        [_, what] if what.as_str() == "memory" => print_memory(rt, rt.alloc()),
        [_, what, store] if what.as_str() == "opens" => print_openings(rt, store.as_str()),
        [_, what, socket] => measure_daemon(rt, threads, what.as_str(), socket.as_str(), None),
        [_, what, socket, number] => match number.as_str().parse::<u64>() {
            Ok(number) => {
                measure_daemon(rt, threads, what.as_str(), socket.as_str(), Some(number))
            }
            Err(_) => print_usage(rt),
        },
        _ => print_usage(rt),
    }
}

fn main(rt: HostRuntime) -> io::Result<()> {
    let mut words = Vec::new(rt.alloc());
    for word in env::args(&rt)? {
        words.push(word)?;
    }
    measure(&rt, &rt, &words)
}
