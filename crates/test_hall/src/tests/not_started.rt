//! A thread that is not started.

ghost use Rattle.std.specs.Prelude.{◌≡◌, ◌∷◌, [], true, IfOk};
ghost use Rattle.hall_log.specs.Histories.{History};
ghost use Rattle.hall.specs.Given.{Serves};
ghost use Rattle.hall.specs.Terms.{token_terms};

use ck_calls::{Call, Reply};
use hall::{Gate, HallFault, Held, Seat, SeatEvent, hold};
use hall_log::{Naming, Opened, Told};
use keep::{Keep, ListKeep};
use pin_record::Record;
use std::alloc::Global;
use std::marker::Brand;
use std::sync::atomic::{AtomicBool, Ordering};
use std::sync::{Arc, Wait};
use std::test::*;
use std::thread::Threads;
use std::time::Clock;
use test_scripts::{opened_session, token_over, told_code};
use token::Token;

/// A seat that has no event, and records that it was called.
#[derive(Drop)]
struct Silent {
    number: u64,
    is_asked: Arc<AtomicBool, Global>,
    has_ended: bool,
}

impl Silent {
    fn new(number: u64, is_asked: &Arc<AtomicBool, Global>) -> Result<Silent, Fail>
        ensures { IfOk result (λ seat. seat.number ≡ number) }
    {
        Ok(Silent {
            number,
            is_asked: Arc::try_clone(is_asked)?,
            has_ended: false,
        })
    }
}

impl<J: Naming> Seat<J> for Silent {
    ghost number = { λ s. s.number };

    ghost over = { λ s. s.has_ended ≡ true };

    ghost fixed = { λ s. s.number ∷ [] };

    ghost knows = { λ fixed. Unit {0} };

    ghost stands = { λ s xs. Unit {0} };

    ghost waits = { λ s before call. Unit {0} };

    fn next(&mut self, _told: &Told<J>) -> Option<SeatEvent> {
        self.is_asked.store(true, Ordering::SeqCst);
        self.has_ended = true;
        None
    }

    fn take(&mut self, _app: u64, _reply: Reply, _told: &Told<J>) {}
}

#[derive(Drop)]
struct Open;

impl Gate for Open {
    fn pass(&self, _seat: usize, _app: u64) {}
}

/// A token with one session, of application 1.
fn token_with_session<K: Keep>(alloc: Global, keep: K) -> Result<Token<K>, Fail> {
    let mut token = token_over(alloc, keep)?;
    match opened_session(alloc, &mut token, 1) {
        Ok(_) => Ok(token),
        Err(fault) => {
            drop(token);
            Err(fault)
        }
    }
}

/// Whether application 1 has its session.
fn has_session<K: Keep>(alloc: Global, token: &mut Token<K>) -> Result<bool, Fail> {
    let ask = Call::GetSessionInfo { session: 1 };
    Ok(told_code(alloc, token, 1, ask)?.is_none())
}

type Seats = (Silent, Silent, Silent, Silent);

/// Holds silent seats before a token, over a log with this name.
fn hold_named<
    J: Naming + Send + Sync + 'static,
    K: Keep,
    R: Threads + Wait + Clock + Copy + Send + Drop + 'static,
>(
    rt: R,
    alloc: Global,
    opened: Opened,
    token: Token<K>,
    seats: Seats,
    gate: &Arc<Open, Global>,
    stacks: (usize, usize, usize, usize),
) -> Result<Held<Token<K>, Silent>, (HallFault, Token<K>)>
    requires book { opened.seen.book ≡ J.book }
    requires means { (h : History) → J.served h → Serves (token_terms K.terms) J.was_read token h }
    requires all { (h : History) → Serves (token_terms K.terms) J.was_read token h → J.served h }
    requires numbers { (seats.0.number ≡ 0) × (seats.1.number ≡ 1) × (seats.2.number ≡ 2) × (seats.3.number ≡ 3) }
{
    hold::<J, Token<K>, Silent, Open, R>(rt, alloc, opened, token, seats, gate, stacks)
}

/// Why seats were not held, if they were not, whether one was asked, and whether the token is as it was.
type Came = (Option<HallFault>, bool, bool);

/// What comes of four silent seats before a token, with stacks of these sizes.
fn held_silent<K: Keep, R: Threads + Wait + Clock + Copy + Send + Drop + 'static>(
    rt: R,
    alloc: Global,
    keep: K,
    stacks: (usize, usize, usize, usize),
) -> Result<Came, Fail> {
    let is_asked = Arc::new(alloc, AtomicBool::new(false))?;
    let seats = (
        Silent::new(0, &is_asked)?,
        Silent::new(1, &is_asked)?,
        Silent::new(2, &is_asked)?,
        Silent::new(3, &is_asked)?,
    );
    let gate = Arc::new(alloc, Open)?;
    let token = token_with_session(alloc, keep)?;
    let held = hold_named::<Brand, K, R>(rt, alloc, Opened::new(), token, seats, &gate, stacks);
    let (fault, mut token) = match held {
        Ok(Held { token, seats }) => {
            drop(seats);
            (None, token)
        }
        Err((fault, token)) => (Some(fault), token),
    };
    let has_session = has_session(alloc, &mut token);
    drop(token);
    Ok((fault, is_asked.load(Ordering::SeqCst), has_session?))
}

/// Sees whether all seats were called, where no stack is too large; or that none was, that this is returned, and that the token
/// comes back as it was.
fn expect_asked<K: Keep, R: Threads + Wait + Clock + Copy + Send + Drop + 'static>(
    rt: R,
    alloc: Global,
    keep: K,
    stacks: (usize, usize, usize, usize),
    wanted: Option<HallFault>,
) -> Result<(), Fail> {
    let (fault, is_asked, has_session) = held_silent(rt, alloc, keep, stacks)?;
    if !has_session {
        return Err("the token is another one".into());
    }
    if fault == wanted && is_asked == wanted.is_none() {
        Ok(())
    } else {
        Err("seats were asked, or none".into())
    }
}

/// A stack that is too large for any thread.
const LARGE: usize = usize::MAX;

const STACKS: &[(usize, usize, usize, usize)] = &[
    (LARGE, 0, 0, 0),
    (0, LARGE, 0, 0),
    (0, 0, LARGE, 0),
    (0, 0, 0, LARGE),
];

#[test]
fn no_seat_is_asked_where_a_thread_is_not_started(rt: HostRuntime) -> Result<(), Fail> {
    let alloc = rt.alloc();
    for stacks in STACKS {
        let keep = ListKeep::new(alloc, Record::new());
        expect_asked(rt, alloc, keep, *stacks, Some(HallFault::Thread))?;
    }
    let keep = ListKeep::new(alloc, Record::new());
    expect_asked(rt, alloc, keep, (0, 0, 0, 0), None)
}

/// Whether silent seats were held. Where an allocation of `hold` was refused, that is returned, no seat was asked, and the token is as it
/// was.
fn is_held<R: Threads + Wait + Clock + Copy + Send + Drop + 'static>(
    rt: R,
    alloc: Global,
) -> Result<bool, Fail> {
    let keep = ListKeep::new(alloc, Record::new());
    let (fault, is_asked, has_session) = held_silent(rt, alloc, keep, (0, 0, 0, 0))?;
    if is_asked == fault.is_none() && (has_session || fault.is_none()) {
        Ok(fault.is_none())
    } else {
        Err("a seat was asked, or the token is another one".into())
    }
}

/// `rt try --test --fail-alloc N` refuses one allocation, so seats are held one time of two. Where it is one before, the test fails by it.
#[test]
fn no_seat_is_asked_where_memory_is_refused(rt: HostRuntime) -> Result<(), Fail> {
    let first = is_held(rt, rt.alloc())?;
    let second = is_held(rt, rt.alloc())?;
    assert!(rt; first || second);
    Ok(())
}
