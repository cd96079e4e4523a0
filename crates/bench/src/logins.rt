// Logins and logouts, beside the derivations of a key alone.

use crate::calls::{SESSION, new_token, open, succeeds};
use crate::run::{Run, Unit};
use ck_calls::Call;
use ck_types::Bytes;
use hmac_sha2::pbkdf2;
use keep::ListKeep;
use pin_record::ROUNDS;
use std::alloc::Global;
use std::io;
use std::time::CpuClock;
use token::Token;

/// The user types CKU_SO and CKU_USER, and their PINs.
const SO: u64 = 0;

const USER: u64 = 1;

const SO_PIN: &[u8] = b"so-pin";

const USER_PIN: &[u8] = b"user-pin";

const LABEL: [u8; 32] = *b"the token of the bench          ";

fn login(alloc: Global, token: &mut Token<ListKeep>, user_type: u64, pin: &[u8]) -> io::Result<()> {
    let call = Call::Login {
        session: SESSION,
        user_type,
        pin: Bytes::from_slice(alloc, pin)?,
    };
    succeeds(alloc, token, call)
}

fn logout(alloc: Global, token: &mut Token<ListKeep>) -> io::Result<()> {
    succeeds(alloc, token, Call::Logout { session: SESSION })
}

fn init_token(alloc: Global, token: &mut Token<ListKeep>) -> io::Result<()> {
    let call = Call::InitToken {
        slot: 0,
        pin: Bytes::from_slice(alloc, SO_PIN)?,
        label: Bytes::from_slice(alloc, &LABEL)?,
    };
    succeeds(alloc, token, call)
}

fn init_pin(alloc: Global, token: &mut Token<ListKeep>) -> io::Result<()> {
    let call = Call::InitPin {
        session: SESSION,
        pin: Bytes::from_slice(alloc, USER_PIN)?,
    };
    succeeds(alloc, token, call)
}

// Sets both PINs, and opens a session.
fn initialise(alloc: Global, token: &mut Token<ListKeep>) -> io::Result<()> {
    init_token(alloc, token)?;
    open(alloc, token)?;
    login(alloc, token, SO, SO_PIN)?;
    init_pin(alloc, token)?;
    logout(alloc, token)
}

fn logins_in(
    rt: &impl CpuClock,
    alloc: Global,
    token: &mut Token<ListKeep>,
    count: u32,
) -> io::Result<Run> {
    initialise(alloc, token)?;
    let start = rt.thread_cpu_time()?;
    for _ in 0..count {
        login(alloc, token, USER, USER_PIN)?;
        logout(alloc, token)?;
    }
    Ok(Run {
        what: "Login and Logout",
        unit: Unit::Exchange,
        count,
        sum: u128::from(count).to_be_bytes(),
        time: rt.thread_cpu_time()?.saturating_sub(start),
    })
}

/// So many logins of the user, each with its logout.
pub(crate) fn logins(rt: &impl CpuClock, alloc: Global, count: u32) -> io::Result<Run> {
    let mut token = new_token(alloc)?;
    let run = logins_in(rt, alloc, &mut token, count);
    drop(token);
    run
}

/// As many derivations alone, of as many rounds as a login's.
pub(crate) fn derivations(rt: &impl CpuClock, count: u32) -> io::Result<Run> {
    let mut last = 0u8;
    let start = rt.thread_cpu_time()?;
    for _ in 0..count {
        last ^= pbkdf2(USER_PIN, &[last; 16], ROUNDS)[0];
    }
    Ok(Run {
        what: "PBKDF2 of a login alone",
        unit: Unit::Exchange,
        count,
        sum: u128::from(last).to_be_bytes(),
        time: rt.thread_cpu_time()?.saturating_sub(start),
    })
}
