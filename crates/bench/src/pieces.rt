// Data encrypted and decrypted through a token, in parts beside single calls, and what memory it takes.

use crate::calls::{SESSION, failed, new_token, open, reply_to, succeeds};
use crate::frames::template;
use crate::run::{Report, Run, Unit};
use aes_modes::Direction;
use ck_calls::{Call, Mechanism, Output, Reply};
use ck_types::{Bytes, MechType};
use keep::ListKeep;
use std::alloc::Global;
use std::rt::Files;
use std::time::CpuClock;
use std::{fs, io};
use token::Token;

/// The handle of the key.
const OBJECT: u64 = 1;

/// The parameter of CTR: 128 bits count. Its last 16 bytes are that of CBC.
const PARAMETER: [u8; 24] = [
    0, 0, 0, 0, 0, 0, 0, 128, 0xf0, 0xf0, 0xf0, 0xf0, 0xf0, 0xf0, 0xf0, 0xf0, 0xf0, 0xf0, 0xf0,
    0xf0, 0xf0, 0xf0, 0xf0, 0xf0,
];

/// A mechanism and a direction.
#[derive(Clone, Copy)]
struct Cipher {
    mechanism: MechType,
    direction: Direction,
}

/// How data is given.
#[derive(Clone, Copy)]
enum Way {
    /// In parts of one operation.
    Piece,
    /// By one call, with an operation for each.
    Call,
}

const CBC: Cipher = Cipher {
    mechanism: MechType::AesCbc,
    direction: Direction::Encrypt,
};

const CBC_BACK: Cipher = Cipher {
    mechanism: MechType::AesCbc,
    direction: Direction::Decrypt,
};

const CTR: Cipher = Cipher {
    mechanism: MechType::AesCtr,
    direction: Direction::Encrypt,
};

const CTR_BACK: Cipher = Cipher {
    mechanism: MechType::AesCtr,
    direction: Direction::Decrypt,
};

/// The rows: what is done, how data is given, and its length.
const ROWS: &[(&str, Cipher, Way, u32)] = &[
    ("CBC, 64,000 a call", CBC, Way::Call, 64_000),
    ("CBC, 1,048,528 a call", CBC, Way::Call, 1_048_528),
    ("CBC, 65,536 a piece", CBC, Way::Piece, 65_536),
    ("CBC back, 64,000 a call", CBC_BACK, Way::Call, 64_000),
    ("CBC back, 1,048,528 a call", CBC_BACK, Way::Call, 1_048_528),
    ("CBC back, 65,536 a piece", CBC_BACK, Way::Piece, 65_536),
    ("CTR, 64,000 a call", CTR, Way::Call, 64_000),
    ("CTR, 1,048,528 a call", CTR, Way::Call, 1_048_528),
    ("CTR, 65,536 a piece", CTR, Way::Piece, 65_536),
    ("CTR back, 64,000 a call", CTR_BACK, Way::Call, 64_000),
    ("CTR back, 1,048,528 a call", CTR_BACK, Way::Call, 1_048_528),
    ("CTR back, 65,536 a piece", CTR_BACK, Way::Piece, 65_536),
];

/// The bytes of a row.
const ROW_LEN: u32 = 67_108_864;

/// The length of a part, and the parts of half a GiB.
const PIECE_LEN: u32 = 65_536;

const HALF: u32 = 8192;

// The length and the last byte of the data that a call gives.
fn ends_of(reply: &Reply) -> io::Result<(u64, u8)> {
    match reply {
        Reply::Output(Output::Data(bytes)) => Ok((
            bytes.len() as u64,
            bytes.as_slice().last().copied().unwrap_or(0),
        )),
        _ => Err(failed()),
    }
}

fn given_by(alloc: Global, token: &mut Token<ListKeep>, call: Call) -> io::Result<(u64, u8)> {
    let reply = reply_to(alloc, token, call)?;
    let ends = ends_of(&reply);
    drop(reply);
    ends
}

// Opens a session and makes a key.
fn make_key(alloc: Global, token: &mut Token<ListKeep>) -> io::Result<()> {
    open(alloc, token)?;
    let create = Call::CreateObject {
        session: SESSION,
        template: template(alloc)?,
    };
    succeeds(alloc, token, create)
}

impl Cipher {
    fn mechanism(self, alloc: Global) -> io::Result<Mechanism> {
        let (_, block) = PARAMETER.split_at(8);
        let parameter = match self.mechanism {
            MechType::AesCtr => &PARAMETER[..],
            _ => block,
        };
        Ok(Mechanism {
            mech_type: self.mechanism.number(),
            parameter: Bytes::from_slice(alloc, parameter)?,
        })
    }

    fn init(self, alloc: Global) -> io::Result<Call> {
        let mechanism = Some(self.mechanism(alloc)?);
        Ok(match self.direction {
            Direction::Encrypt => Call::EncryptInit {
                session: SESSION,
                mechanism,
                key: OBJECT,
            },
            Direction::Decrypt => Call::DecryptInit {
                session: SESSION,
                mechanism,
                key: OBJECT,
            },
        })
    }

    fn single(self, data: Bytes, buffer_len: Option<u64>) -> Call {
        match self.direction {
            Direction::Encrypt => Call::Encrypt {
                session: SESSION,
                data,
                buffer_len,
            },
            Direction::Decrypt => Call::Decrypt {
                session: SESSION,
                encrypted_data: data,
                buffer_len,
            },
        }
    }

    fn update(self, data: Bytes, buffer_len: Option<u64>) -> Call {
        match self.direction {
            Direction::Encrypt => Call::EncryptUpdate {
                session: SESSION,
                part: data,
                buffer_len,
            },
            Direction::Decrypt => Call::DecryptUpdate {
                session: SESSION,
                encrypted_part: data,
                buffer_len,
            },
        }
    }

    // Begins an operation.
    fn begin(self, alloc: Global, token: &mut Token<ListKeep>) -> io::Result<()> {
        succeeds(alloc, token, self.init(alloc)?)
    }

    // Gives a text in this way, and returns the length and the last byte of what comes.
    fn give(
        self,
        alloc: Global,
        token: &mut Token<ListKeep>,
        way: Way,
        text: &[u8],
    ) -> io::Result<(u64, u8)> {
        let buffer_len = Some(text.len() as u64);
        match way {
            Way::Piece => {
                let part = Bytes::from_slice(alloc, text)?;
                given_by(alloc, token, self.update(part, buffer_len))
            }
            Way::Call => {
                self.begin(alloc, token)?;
                let data = Bytes::from_slice(alloc, text)?;
                given_by(alloc, token, self.single(data, buffer_len))
            }
        }
    }

    // Gives a text so many times, and adds up the lengths and the last bytes of what comes.
    fn give_all(
        self,
        alloc: Global,
        token: &mut Token<ListKeep>,
        way: Way,
        text: &[u8],
        count: u32,
    ) -> io::Result<u128> {
        let mut given = 0u64;
        let mut lasts = 0u64;
        for _ in 0..count {
            let (len, last) = self.give(alloc, token, way, text)?;
            given = given.wrapping_add(len);
            lasts = lasts.wrapping_add(u64::from(last));
        }
        Ok(u128::from(given) << 64 | u128::from(lasts))
    }
}

// The sum of a row, over a token with a session and a key.
fn sum_in(
    alloc: Global,
    token: &mut Token<ListKeep>,
    (cipher, way): (Cipher, Way),
    len: u32,
    count: u32,
) -> io::Result<u128> {
    let text = vec![in alloc; 0x5a_u8; len as usize]?;
    if let Way::Piece = way {
        cipher.begin(alloc, token)?;
    }
    cipher.give_all(alloc, token, way, &text, count)
}

fn row_in(
    rt: &impl CpuClock,
    alloc: Global,
    token: &mut Token<ListKeep>,
    (what, cipher, way, len): (&'static str, Cipher, Way, u32),
    count: u32,
) -> io::Result<Run> {
    make_key(alloc, token)?;
    let start = rt.thread_cpu_time()?;
    let sum = sum_in(alloc, token, (cipher, way), len, count)?;
    Ok(Run {
        what,
        unit: Unit::Bytes(len),
        count,
        sum: sum.to_be_bytes(),
        time: rt.thread_cpu_time()?.saturating_sub(start),
    })
}

// A row, on a token of its own.
fn row(
    rt: &impl CpuClock,
    alloc: Global,
    row: (&'static str, Cipher, Way, u32),
    count: u32,
) -> io::Result<Run> {
    let mut token = new_token(alloc)?;
    let run = row_in(rt, alloc, &mut token, row, count);
    drop(token);
    run
}

/// Prints a row for each mechanism, direction and way.
pub(crate) fn print_pieces(
    rt: &(impl CpuClock + Print),
    alloc: Global,
    report: Report,
) -> io::Result<()> {
    for wanted in ROWS {
        let count = match report {
            Report::Sums => 2,
            Report::Times => ROW_LEN / wanted.3.max(1),
        };
        row(rt, alloc, *wanted, count)?.print(rt, 16, report)?;
    }
    Ok(())
}

// Prints what the system reports as resident of this process.
fn print_resident<R: Files + Alloc + Print>(rt: &R, after: u64) -> io::Result<()> {
    let status = fs::read_to_string(rt, "/proc/self/status")?;
    for line in status.as_str().lines() {
        if let Some(resident) = line.strip_prefix("VmRSS:") {
            println!(rt; "after {after:>10} bytes resident {resident}")?;
        }
    }
    Ok(())
}

fn print_memory_in<R: Files + Alloc + Print>(
    rt: &R,
    alloc: Global,
    token: &mut Token<ListKeep>,
) -> io::Result<()> {
    let text = vec![in alloc; 0x5a_u8; PIECE_LEN as usize]?;
    make_key(alloc, token)?;
    CBC.begin(alloc, token)?;
    let mut given = 0u64;
    print_resident(rt, given)?;
    for _ in 0..2 {
        let sum = CBC.give_all(alloc, token, Way::Piece, &text, HALF)?;
        given = given.wrapping_add((sum >> 64) as u64);
        print_resident(rt, given)?;
    }
    Ok(())
}

/// Prints the memory that is resident before, amid and after a GiB of C_EncryptUpdate.
pub(crate) fn print_memory<R: Files + Alloc + Print>(rt: &R, alloc: Global) -> io::Result<()> {
    let mut token = new_token(alloc)?;
    let printed = print_memory_in(rt, alloc, &mut token);
    drop(token);
    printed
}
