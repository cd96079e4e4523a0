//! A thread that looks after the daemon once a second while it serves: for a service manager, and for the log.

use crate::health::Health;
use commands::{Cause, Failure, Fault, Manager};
use crossbeam_channel::{Receiver, RecvTimeoutError, Sender, bounded};
use hall_sockets::Loads;
use journal::Journal;
use log::{error, warn};
use std::alloc::Global;
use std::io::Stderr;
use std::sync::{Arc, Wait};
use std::thread;
use std::thread::{JoinHandle, Threads};
use std::time::{Clock, Duration};

/// How many seconds are between two looks.
const EACH: u64 = 1;

/// How many seconds after its last look a worker counts as hanging: it waits for the token. Otherwise each looks once a second.
const LONGEST: u64 = 5;

/// How many seconds are between two lines that all connections are taken.
const REMINDER: u64 = 60;

/// What is looked at, and who hears of it.
#[derive(Drop)]
pub(crate) struct Monitor {
    alloc: Global,
    log: Journal<Stderr>,
    manager: Manager,
    loads: Arc<Loads, Global>,
    health: Arc<Health, Global>,
    /// How many connections there are at most.
    places: usize,
    /// How many objects there may be.
    max_objects: u64,
    /// The second of the last line that all connections are taken, and of the last one that there are as many objects as there may be.
    said_full: Option<u64>,
    said_limit: Option<u64>,
    is_hanging: bool,
}

/// Whether a line is due again, of which the last one was in this second.
fn is_due(said: Option<u64>, second: u64) -> bool {
    match said {
        Some(said) => second.saturating_sub(said) >= REMINDER,
        None => true,
    }
}

impl Monitor {
    /// One that has logged nothing yet, of so many connections and objects at most.
    pub(crate) fn new(
        alloc: Global,
        log: Journal<Stderr>,
        manager: Manager,
        loads: Arc<Loads, Global>,
        health: Arc<Health, Global>,
        (places, max_objects): (usize, u64),
    ) -> Monitor {
        Monitor {
            alloc,
            log,
            manager,
            loads,
            health,
            places,
            max_objects,
            said_full: None,
            said_limit: None,
            is_hanging: false,
        }
    }

    /// Looks once a second, until there is something to receive.
    fn run<R: Wait + Clock>(mut self, rt: &R, over: &Receiver<(), Global>) {
        for _ in rt.forever() {
            match over.recv_timeout(rt, Duration::from_secs(EACH)) {
                Err(RecvTimeoutError::Timeout) => self.look(rt),
                _ => return,
            }
        }
    }

    fn look<C: Clock>(&mut self, clock: &C) {
        let Ok(time) = clock.monotonic() else {
            return;
        };
        let second = time.as_secs();
        self.look_at_token(second);
        self.look_at_places(second);
        self.look_at_objects(second);
        self.say_counts(second);
        self.tell_manager();
    }

    /// Logs once that a worker hangs: it waits for the token, or for a job of its own.
    fn look_at_token(&mut self, second: u64) {
        let last = self.loads.last_look();
        let is_hanging = last > 0 && second.saturating_sub(last) > LONGEST;
        if is_hanging && !self.is_hanging {
            error!(self.log; "a worker had no turn for {LONGEST} seconds: the token gives no answer, or a job takes so long");
        }
        self.is_hanging = is_hanging;
    }

    /// Logs once a minute that all connections are taken.
    fn look_at_places(&mut self, second: u64) {
        let places = self.places;
        if self.loads.connections() >= places && is_due(self.said_full, second) {
            self.said_full = Some(second);
            warn!(self.log; "all {places} connections are taken: who connects now waits until one ends");
        }
    }

    /// Logs once a minute that there are as many objects as there may be.
    fn look_at_objects(&mut self, second: u64) {
        let most = self.max_objects;
        if self.health.objects() >= most && is_due(self.said_limit, second) {
            self.said_limit = Some(second);
            warn!(self.log; "there are {most} objects, as many as --max-objects allows: a new one is refused until one is destroyed");
        }
    }

    /// Logs once a minute how often there was what anybody may cause.
    fn say_counts(&self, second: u64) {
        if let Some(count) = self.loads.refused.take_due(second) {
            warn!(self.log; "{count} more connections were refused for their frames");
        }
        if let Some(count) = self.loads.unaccepted.take_due(second) {
            warn!(self.log; "{count} more times a connection was not accepted");
        }
    }

    /// Sends the daemon's state to a service manager, and that it lives unless its token hangs.
    fn tell_manager(&self) {
        if !self.manager.is_there() {
            return;
        }
        let watchdog = if self.manager.has_watchdog() && !self.is_hanging {
            "WATCHDOG=1\n"
        } else {
            ""
        };
        let store = if self.health.has_failed() {
            "the store failed; "
        } else {
            ""
        };
        let (objects, places) = (self.health.objects(), self.places);
        let connections = self.loads.connections();
        let text = format!(in self.alloc;
            "{watchdog}STATUS={store}{objects} objects, {connections} of {places} connections\n"
        );
        if let Ok(text) = text {
            self.manager.tell(text.as_str());
        }
    }
}

/// A monitor's thread, and how it is ended.
#[derive(Drop)]
pub(crate) struct Watching {
    over: Sender<(), Global>,
    thread: JoinHandle<()>,
}

impl Watching {
    /// Starts the thread.
    pub(crate) fn start<R: Threads + Wait + Clock + Copy + Send + Drop + 'static>(
        rt: R,
        alloc: Global,
        monitor: Monitor,
    ) -> Result<Watching, Fault> {
        let Ok((over, is_over)) = bounded(alloc, 1) else {
            return Err(Failure::Memory.into());
        };
        match thread::spawn(&rt, move || monitor.run(&rt, &is_over)) {
            Ok(thread) => Ok(Watching { over, thread }),
            Err(_) => Err(Failure::Socket.because(Cause::Thread)),
        }
    }

    /// Ends the thread.
    pub(crate) fn end<R: Threads + Wait>(self, rt: &R) {
        let Watching { over, thread } = self;
        let _ = over.send(rt, ());
        thread.join(rt);
    }
}
