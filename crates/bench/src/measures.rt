//! Calls of a daemon by one client and by several, each beside its floor.

use crate::client::Client;
use crate::echo::{EchoThread, Exchange, start_echo};
use crate::requests::{operation, session_info};
use crate::rounds::{ROUNDS, Rounds, Times, print_head};
use crate::work::{Cipher, Work, time_together};
use aes_modes::Direction;
use ck_types::MechType;
use std::alloc::Global;
use std::io;
use std::thread::Threads;

/// How many echoes `small` has, and the lengths of their frames: those of C_GetSessionInfo.
const FEW_ECHOES: u64 = 500;

const REQUEST_LEN: usize = 14;

const REPLY_LEN: usize = 44;

/// More than the length of a frame without its text.
const SMALL_LEN: usize = 65_536;

/// The parameter of CTR: 128 bits count. Its last 16 bytes are that of CBC (`work::START`).
const PARAMETER: [u8; 24] = [
    0, 0, 0, 0, 0, 0, 0, 128, 3, 3, 3, 3, 3, 3, 3, 3, 3, 3, 3, 3, 3, 3, 3, 3,
];

/// What a client asks for.
#[derive(Clone, Copy)]
enum Request {
    SessionInfo,
    /// An operation on a text of so many bytes, by one call.
    Operation(MechType, Direction, usize),
}

const BLOCK: Request = Request::Operation(MechType::AesEcb, Direction::Encrypt, 16);

const LONG: Request = Request::Operation(MechType::AesCbcPad, Direction::Encrypt, 16_384);

const LONGER: Request = Request::Operation(MechType::AesCbcPad, Direction::Encrypt, 64_000);

/// The longest text that a frame has.
const LONGEST: Request = Request::Operation(MechType::AesCbcPad, Direction::Encrypt, 1_048_528);

const LONGER_BACK: Request = Request::Operation(MechType::AesCbcPad, Direction::Decrypt, 64_000);

const COUNTED_BACK: Request = Request::Operation(MechType::AesCtr, Direction::Decrypt, 64_000);

/// A line of the table: what each client asks for, and how often in a round.
type Row = (&'static str, Request, u64);

const SESSION_INFO: Row = ("C_GetSessionInfo", Request::SessionInfo, 5000);

const LONG_ENCRYPTION: Row = ("C_Encrypt, CBC_PAD, 16,384 bytes", LONG, 500);

/// The lines of one client. Each C_Encrypt and C_Decrypt is counted with its Init call as one.
const ALONE: &[Row] = &[
    ("C_Encrypt, ECB, 16 bytes", BLOCK, 3000),
    ("C_Encrypt, CBC_PAD, 64,000 bytes", LONGER, 150),
    ("C_Encrypt, CBC_PAD, 1,048,528 bytes", LONGEST, 20),
    ("C_Decrypt, CBC_PAD, 64,000 bytes", LONGER_BACK, 150),
    ("C_Decrypt, CTR, 64,000 bytes", COUNTED_BACK, 150),
];

/// How many clients are together, where nothing else is asked for.
pub(crate) const FOUR: u64 = 4;

/// How many times as many calls a round of several clients has as one of a single client. It is long enough that the system has
/// spread the threads over the processors for most of it.
const TOGETHER: u64 = 40;

fn parameter(mechanism: MechType) -> &'static [u8] {
    let (_, block) = PARAMETER.split_at(8);
    match mechanism {
        MechType::AesEcb => &[],
        MechType::AesCtr => &PARAMETER,
        _ => block,
    }
}

/// The text of an operation: what a text is encrypted to, where it is to be decrypted.
fn text_of(
    alloc: Global,
    mechanism: MechType,
    direction: Direction,
    len: usize,
) -> io::Result<Vec<u8>> {
    let text = vec![in alloc; 0x5a_u8; len]?;
    match direction {
        Direction::Encrypt => Ok(text),
        Direction::Decrypt => {
            let cipher = Cipher {
                alloc,
                mechanism,
                direction: Direction::Encrypt,
                text,
            };
            cipher.output()
        }
    }
}

impl Request {
    fn frames(self, alloc: Global) -> io::Result<Vec<Vec<u8>>> {
        match self {
            Request::SessionInfo => {
                let mut frames = Vec::new(alloc);
                frames.push(session_info(alloc)?)?;
                Ok(frames)
            }
            Request::Operation(mechanism, direction, len) => {
                let text = text_of(alloc, mechanism, direction, len)?;
                operation(alloc, mechanism, parameter(mechanism), direction, &text)
            }
        }
    }

    /// What the floor has beside the echo: nothing, or the cipher alone over the same text.
    fn other(self, alloc: Global) -> io::Result<Option<Work>> {
        match self {
            Request::SessionInfo | Request::Operation(MechType::AesEcb, _, _) => Ok(None),
            Request::Operation(mechanism, direction, len) => Ok(Some(Work::Cipher(Cipher {
                alloc,
                mechanism,
                direction,
                text: text_of(alloc, mechanism, direction, len)?,
            }))),
        }
    }

    /// More than the length of the longest frame.
    fn most(self) -> usize {
        match self {
            Request::SessionInfo => SMALL_LEN,
            Request::Operation(_, _, len) => len.saturating_add(SMALL_LEN),
        }
    }
}

/// Sends each frame once, and returns the lengths of the frames and of their replies.
pub(crate) fn exchanges(
    alloc: Global,
    client: &mut Client,
    frames: &[Vec<u8>],
) -> io::Result<Vec<Exchange>> {
    let mut exchanges = Vec::new(alloc);
    for frame in frames {
        client.ask(frame)?;
        exchanges.push(Exchange::new(alloc, frame.len(), client.reply().len())?)?;
    }
    Ok(exchanges)
}

/// What is measured together, and its floor: as many echoes, with a thread for each, and what else it has.
#[derive(Drop)]
struct Sides {
    measured: Vec<Work>,
    echoes: Vec<Work>,
    others: Vec<Work>,
    threads: Vec<EchoThread>,
}

impl Sides {
    fn new(alloc: Global) -> Sides {
        Sides {
            measured: Vec::new(alloc),
            echoes: Vec::new(alloc),
            others: Vec::new(alloc),
            threads: Vec::new(alloc),
        }
    }

    /// Adds a client.
    fn add<T: Threads>(
        &mut self,
        rt: &HostRuntime,
        threads: &T,
        socket: &str,
        request: Request,
    ) -> io::Result<()> {
        let alloc = rt.alloc();
        let frames = request.frames(alloc)?;
        let mut client = Client::connect(rt, socket, request.most())?;
        let exchanges = exchanges(alloc, &mut client, &frames)?;
        self.measured.push(Work::Calls(client, frames))?;
        let (echo, thread) = start_echo(rt, threads, socket, exchanges, request.most())?;
        self.threads.push(thread)?;
        self.echoes.push(Work::Calls(echo, request.frames(alloc)?))?;
        if let Some(other) = request.other(alloc)? {
            self.others.push(other)?;
        }
        Ok(())
    }

    /// Does each side so often, and returns the times.
    fn race<T: Threads>(&mut self, rt: &HostRuntime, threads: &T, count: u64) -> io::Result<Times> {
        let echo = time_together(rt, threads, &mut self.echoes, count)?;
        let measured = time_together(rt, threads, &mut self.measured, count)?;
        let other = time_together(rt, threads, &mut self.others, count)?;
        Ok(Times {
            measured,
            echo,
            other,
        })
    }

    /// The medians of all rounds. One round comes before, and is not counted.
    fn times<T: Threads>(
        &mut self,
        rt: &HostRuntime,
        threads: &T,
        count: u64,
    ) -> io::Result<Times> {
        self.race(rt, threads, count)?;
        let mut rounds = Rounds::new(rt.alloc());
        for _ in 0..ROUNDS {
            rounds.add(self.race(rt, threads, count)?)?;
        }
        Ok(rounds.medians())
    }

    /// Disconnects, and waits for the echoes to end.
    fn end<T: Threads>(self, threads: &T) -> io::Result<()> {
        drop(self.measured);
        drop(self.echoes);
        drop(self.others);
        for thread in self.threads {
            thread.join(threads)?;
        }
        Ok(())
    }
}

/// The times of so many clients together, each of which asks so often.
fn times_of<T: Threads>(
    rt: &HostRuntime,
    threads: &T,
    socket: &str,
    (request, count): (Request, u64),
    clients: u64,
) -> io::Result<Times> {
    let mut sides = Sides::new(rt.alloc());
    for _ in 0..clients {
        sides.add(rt, threads, socket, request)?;
    }
    let times = sides.times(rt, threads, count)?;
    sides.end(threads)?;
    Ok(times)
}

/// Prints the line of so many clients together, where a call of one alone takes `one` nanoseconds.
fn print_clients<T: Threads>(
    rt: &HostRuntime,
    threads: &T,
    socket: &str,
    (what, request, count): Row,
    clients: u64,
    one: u64,
) -> io::Result<()> {
    let what = format!(in rt.alloc(); "{what}, {clients} clients")?;
    let each = (count.saturating_mul(TOGETHER) / clients.max(1)).max(1);
    let times = times_of(rt, threads, socket, (request, each), clients)?;
    times.print(rt, what.as_str(), one)
}

/// Prints the line of one client, and returns the nanoseconds that it takes.
fn print_one<T: Threads>(
    rt: &HostRuntime,
    threads: &T,
    socket: &str,
    (what, request, count): Row,
) -> io::Result<u64> {
    let times = times_of(rt, threads, socket, (request, count), 1)?;
    times.print(rt, what, times.measured)?;
    Ok(times.measured)
}

/// Measures a daemon, each row beside its floor. So many clients are the most that are together.
pub(crate) fn print_calls<T: Threads>(
    rt: &HostRuntime,
    threads: &T,
    socket: &str,
    clients: u64,
) -> io::Result<()> {
    print_head(rt, "one client")?;
    let one = print_one(rt, threads, socket, SESSION_INFO)?;
    let one_long = print_one(rt, threads, socket, LONG_ENCRYPTION)?;
    for row in ALONE {
        print_one(rt, threads, socket, *row)?;
    }
    print_clients(rt, threads, socket, SESSION_INFO, FOUR, one)?;
    print_clients(rt, threads, socket, LONG_ENCRYPTION, FOUR, one_long)?;
    if clients > FOUR {
        print_clients(rt, threads, socket, SESSION_INFO, clients, one)?;
    }
    Ok(())
}

/// Echoes a few times.
pub(crate) fn print_echo<T: Threads>(
    rt: &HostRuntime,
    threads: &T,
    socket: &str,
) -> io::Result<()> {
    let alloc = rt.alloc();
    let frame = session_info(alloc)?;
    let mut exchanges = Vec::new(alloc);
    exchanges.push(Exchange::new(alloc, REQUEST_LEN, REPLY_LEN)?)?;
    let (mut client, thread) = start_echo(rt, threads, socket, exchanges, SMALL_LEN)?;
    for _ in 0..FEW_ECHOES {
        client.ask(&frame)?;
    }
    drop(client);
    thread.join(threads)?;
    println!(rt; "{FEW_ECHOES} echoes")
}
