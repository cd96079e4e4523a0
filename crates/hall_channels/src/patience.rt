//! How a thread waits for a message. First it looks again at once, for about as long as a message takes between two cores. Then it yields:
//! a turn costs next to nothing where the machine has a core to spare, and spares a sleep, which is dear to end. Where others want this
//! core a turn may cost a whole slice of their time, and a sleeper is woken sooner.

use crate::ends::Receiver;
use std::sync::Wait;
use std::time::{Clock, Duration};
use std::{hint, thread};

/// How often a thread looks at once, before it yields.
const LOOKS: u32 = 100;

/// After looks in vain, so many waits yield at once; after each further ones twice as many, up to the most. So on a busy machine few look.
const FEWEST_BLIND: u32 = 4;

const MOST_BLIND: u32 = 256;

/// A turn of more microseconds shows that others want this core.
const LONG_TURN_MICROS: u64 = 500;

/// After the first long turn so many waits sleep at once; after each further one twice as many, up to the most.
const FEWEST_SLEEPS: u32 = 32;

const MOST_SLEEPS: u32 = 4_096;

/// After a wait that is timed so many are not, for the clock's own cost.
const UNTIMED: u32 = 3;

/// After so many turns each wait is timed.
const UNTIMED_TURNS: u32 = 4;

/// Whether a turn was short. Where the clock couldn't be read it was not.
fn is_short(began: Duration, ended: Option<Duration>) -> bool {
    match ended {
        Some(ended) => ended.saturating_sub(began) <= Duration::from_micros(LONG_TURN_MICROS),
        None => false,
    }
}

/// Whether a thread looks and yields before it sleeps. It decides how a message is waited for, and nothing about which comes.
#[derive(Clone, Copy, Drop)]
pub struct Patience {
    /// How many waits are not to look at once.
    blind: u32,
    /// How many will not after the next looks in vain.
    blind_next: u32,
    /// How many waits are to sleep at once.
    sleeps: u32,
    /// How many will be after the next long turn.
    penalty: u32,
    /// How many waits are not to be timed.
    untimed: u32,
    /// When the last turn ended, where this wait is timed.
    ended: Option<Duration>,
}

impl Patience {
    /// That of a thread that knows of no long turn.
    pub(crate) fn new() -> Patience {
        Patience {
            blind: 0,
            blind_next: FEWEST_BLIND,
            sleeps: 0,
            penalty: FEWEST_SLEEPS,
            untimed: 0,
            ended: None,
        }
    }

    /// Receives the next message, and waits for it: it looks at once, then yields at most so many times, and then sleeps. None where the
    /// channel has ended.
    pub(crate) fn receive<M: Drop, R: Wait + Clock>(
        &mut self,
        rt: &R,
        end: &mut Receiver<M>,
        turns: u32,
    ) -> Option<M> {
        if let Some(message) = self.receive_at_once(rt, end) {
            return Some(message);
        }
        match self.receive_in_turns(rt, end, turns) {
            Some(message) => Some(message),
            None => end.recv(rt),
        }
    }

    /// Receives the next message, where it comes while this thread looks.
    fn receive_at_once<M: Drop, R: Wait + Clock>(
        &mut self,
        rt: &R,
        end: &mut Receiver<M>,
    ) -> Option<M> {
        if self.blind > 0 {
            self.blind -= 1;
            return None;
        }
        'looks: for look in 0..LOOKS {
            if let Some(message) = end.try_recv(rt) {
                if look > 0 {
                    self.blind_next = FEWEST_BLIND;
                }
                return Some(message);
            }
            hint::spin_loop();
        }
        self.blind = self.blind_next;
        self.blind_next = self.blind_next.saturating_mul(2).min(MOST_BLIND);
        None
    }

    /// Receives the next message, where it comes while this thread yields, at most so many times.
    fn receive_in_turns<M: Drop, R: Wait + Clock>(
        &mut self,
        rt: &R,
        end: &mut Receiver<M>,
        turns: u32,
    ) -> Option<M> {
        'turns: for turn in 0..turns {
            if let Some(message) = end.try_recv(rt) {
                if turn > 0 {
                    self.came_soon();
                }
                return Some(message);
            }
            if !self.turn(rt, turn) {
                return None;
            }
        }
        None
    }

    /// When a wait begins, if it is timed.
    fn begin<R: Clock>(&mut self, rt: &R) -> Option<Duration> {
        if self.untimed > 0 {
            self.untimed -= 1;
            return None;
        }
        self.untimed = UNTIMED;
        rt.monotonic().ok()
    }

    /// Yields once to the other threads. False where the wait is to sleep: in place of its first turn, or since a turn took long.
    fn turn<R: Clock>(&mut self, rt: &R, number: u32) -> bool {
        if self.sleeps > 0 {
            self.sleeps -= 1;
            return false;
        }
        if number == 0 {
            self.ended = self.begin(rt);
        } else if number >= UNTIMED_TURNS && self.ended.is_none() {
            self.ended = rt.monotonic().ok();
        }
        thread::yield_now();
        let Some(began) = self.ended else {
            return true;
        };
        self.ended = rt.monotonic().ok();
        if is_short(began, self.ended) {
            return true;
        }
        self.untimed = 0;
        self.sleeps = self.penalty;
        self.penalty = self.penalty.saturating_mul(2).min(MOST_SLEEPS);
        false
    }

    /// A message came after turns. Where they were timed they were short.
    fn came_soon(&mut self) {
        if self.ended.is_some() {
            self.penalty = FEWEST_SLEEPS;
        }
    }
}
