//! One application's sessions.
//!
//! A session is a number from 1 on, with its access (read-only or read/write) and what is in progress
//! in it. Numbers rise by one and never return, so a session that was closed stays unknown for good.
//! All sessions share one login: nobody, the user or the security officer (SO). Closing the last
//! session ends it, and no session is read-only while the SO is logged in.
//!
//! What is in progress in a session, as its operations, is a value of the caller's type, an `Activity`. It
//! comes idle with the session, goes with it, and a logout makes it idle again.
//!
//! Contracts see the sessions as a list in the order in which they were opened, with the login and
//! the number of the next one. How they are stored, in a slab whose keys are used again, is in no
//! contract.
//!
//! Proved, by the names of contracts: numbers rise from 1 and never return (`IsTable`). All sessions of an application have one login.
#![tactic(auto)]

ghost use Rattle.std.specs.Prelude.{◌≡◌, ◌<◌, ◌==◌, [], length, find, map, count_by, nat_lt, nat_le, Some, None, is_some, option_copied, option_map, IsTrue, IsFalse, IfOk, OnOk, OnErr};
ghost use Rattle.std.specs.Option.{option_copied_mut};
ghost use Rattle.std.specs.Borrow.{sem};
ghost use Rattle.slab.specs.Slab.{entries};
ghost use Rattle.lists.specs.InOrder.{in_order};
ghost use Rattle.sessions.specs.Sessions.{no_sessions, session_at, state_of, has_read_only, with_session, without_session, busy_with, table_logged_out, IsTable};

use ck_types::{MAX_SESSION_COUNT, SessionState, UserType};
use lists::NUMBER_LIMIT;
use slab::Slab;
use std::alloc::{AllocError, Global};
use std::marker::Model;

/// How many sessions an application has at most.
pub const SESSION_LIMIT: usize = MAX_SESSION_COUNT as usize;

/// What is in progress in a session, as its operations.
pub trait Activity {
    /// Nothing is in progress.
    ghost idle: { Self };

    /// What a new session has in progress: nothing.
    fn idle() -> Self
        ensures { result ≡ idle };
}

/// A session: its number, whether it is read/write (CKF_RW_SESSION), and what is in progress in it.
#[derive(Drop)]
pub struct Session<W> {
    pub handle: u64,
    pub read_write: bool,
    pub work: W,
}

/// One application's sessions, and their login.
#[derive(Drop)]
pub struct Sessions<W> {
    sessions: Slab<Session<W>>,
    login: Option<UserType>,
    next_number: u64,
}

impl<W> Model for Sessions<W> {
    ghost use Rattle.lists.specs.InOrder.{in_order};
    ghost use Rattle.sessions.specs.Sessions.{SessionTable, IsTable};

    ghost Value = { SessionTable W };

    ghost view = { λ t. record { sessions = in_order (λ s. s.handle) t.sessions.slots; login = t.login; next_number = t.next_number } };

    ghost invariant = { λ t. IsTable (record { sessions = in_order (λ s. s.handle) t.sessions.slots; login = t.login; next_number = t.next_number }) };
}

impl<W: Activity> Sessions<W> {
    ghost use Rattle.sessions.specs.Lending.{lends_work};

    /// No sessions yet. Nothing is allocated.
    pub fn new(alloc: Global) -> Self
        ensures { result ≡ no_sessions }
    {
        Sessions {
            sessions: Slab::new(alloc),
            login: None,
            next_number: 1,
        }
    }

    /// The number of the next session.
    pub fn next_number(&self) -> u64
        ensures { result ≡ self.now.next_number }
    {
        self.next_number
    }

    /// Whether the next number is below the limit, which a caller tests before it opens a session.
    pub fn has_numbers(&self) -> bool
        ensures { result ≡ nat_lt self.now.next_number NUMBER_LIMIT }
    {
        self.next_number < NUMBER_LIMIT
    }

    /// How many sessions there are.
    pub fn count(&self) -> usize
        ensures count { result ≡ length self.now.sessions }
        ensures table { IsTable self.now }
    {
        self.sessions.len()
    }

    /// How many of them are read/write.
    pub fn read_write_count(&self) -> usize
        ensures { result ≡ count_by (λ s. s.read_write) self.now.sessions }
    {
        self.sessions
            .iter()
            .filter(|(_, session)| session.read_write)
            .count()
    }

    /// Whether there are as many sessions as an application may have, so that none may be opened.
    pub fn is_full(&self) -> bool
        ensures { result ≡ nat_le SESSION_LIMIT (length self.now.sessions) }
    {
        self.count() >= SESSION_LIMIT
    }

    /// Whether a session is read-only, so that the SO may not log in.
    pub fn has_read_only(&self) -> bool
        ensures { result ≡ has_read_only self.now.sessions }
    {
        self.sessions.iter().any(|(_, session)| !session.read_write)
    }

    /// Who is logged in.
    pub fn logged_in(&self) -> Option<UserType>
        ensures table { IsTable self.now }
        ensures login { result ≡ self.now.login }
    {
        self.login
    }

    /// Whether there is a session of this number.
    pub fn has(&self, handle: u64) -> bool
        ensures { result ≡ is_some (session_at self.now.sessions handle) }
    {
        find_session(&self.sessions, handle).is_some()
    }

    /// Whether the session of this number is read/write.
    pub fn is_read_write(&self, handle: u64) -> Option<bool>
        ensures { result ≡ option_map (λ s. s.read_write) (session_at self.now.sessions handle) }
    {
        find_session(&self.sessions, handle).map(|(_, session)| session.read_write)
    }

    /// The state of the session of this number (PKCS #11 v3.1, 3.3: `CK_STATE`).
    pub fn state(&self, handle: u64) -> Option<SessionState>
        ensures { result ≡ option_map (λ s. state_of self.now.login s.read_write) (session_at self.now.sessions handle) }
    {
        let read_write = self.is_read_write(handle)?;
        Some(session_state(self.login, read_write))
    }

    /// What is in progress in the session of this number.
    pub fn work(&self, handle: u64) -> Option<&W>
        ensures { option_copied result ≡ option_map (λ s. s.work) (session_at self.now.sessions handle) }
    {
        find_session(&self.sessions, handle).map(|(_, session)| &session.work)
    }

    /// What is in progress in the session of this number, for writing.
    pub fn work_mut(&mut self, handle: u64) -> Option<&mut W>
        ensures* writes_back { sem 𝓛 (lends_work W.row self.entry handle result) }
        ensures value { option_copied_mut result ≡ option_map (λ s. s.work) (session_at self.old.sessions handle) }
    {
        let (key, _) = find_session(&self.sessions, handle)?;
        Some(&mut self.sessions[key].work)
    }

    /// Opens a session, with nothing in progress in it (C_OpenSession). It fails only if an allocation
    /// fails, and then nothing changes.
    pub fn open(&mut self, read_write: bool) -> Result<u64, AllocError>
        requires numbers { self.old.next_number < NUMBER_LIMIT }
        requires room { length self.old.sessions < SESSION_LIMIT }
        requires access { self.old.login ≡ Some UserType.So → IsTrue read_write }
        ensures handle { IfOk result (λ handle. handle ≡ self.old.next_number) }
        ensures opened { OnOk result (self.new ≡ with_session W.idle self.old read_write) }
        ensures err { OnErr result (self.new ≡ self.old) }
    {
        self.sessions.reserve(1)?;
        let handle = self.next_number;
        self.sessions.insert_reserved(Session {
            handle,
            read_write,
            work: W::idle(),
        });
        self.next_number += 1;
        Ok(handle)
    }

    /// Closes the session of this number, if there is one, and hands back what was in progress in it
    /// (C_CloseSession). Closing the last one ends the login. No memory is taken.
    pub fn close(&mut self, handle: u64) -> Option<W>
        ensures work { result ≡ option_map (λ s. s.work) (session_at self.old.sessions handle) }
        ensures closed { self.new ≡ without_session self.old handle }
    {
        let (key, _) = find_session(&self.sessions, handle)?;
        let Session { work, .. } = self.sessions.remove(key);
        if self.sessions.is_empty() {
            self.login = None;
        }
        Some(work)
    }

    /// Closes all sessions, which ends the login (C_CloseAllSessions). No memory is taken.
    pub fn close_all(&mut self)
    where
        W: Drop,
        ensures { self.new ≡ record self.old { sessions = []; login = None } }
    {
        self.sessions.clear();
        self.login = None;
    }

    /// Logs in the user or the SO (C_Login). No memory is taken.
    pub fn login(&mut self, user: UserType)
        requires open { 0 < length self.old.sessions }
        requires public { self.old.login ≡ None }
        requires access { user ≡ UserType.So → IsFalse (has_read_only self.old.sessions) }
        ensures { self.new ≡ record self.old { login = Some user } }
    {
        self.login = Some(user);
    }

    /// Logs out, which ends all that is in progress (C_Logout). No memory is taken.
    pub fn logout(&mut self)
    where
        W: Drop,
        ensures { self.new ≡ table_logged_out W.idle self.old }
    {
        self.login = None;
        end_work(&mut self.sessions);
    }
}

fn session_state(login: Option<UserType>, read_write: bool) -> SessionState
    ensures { result ≡ state_of login read_write }
{
    match (login, read_write) {
        (None, false) => SessionState::RoPublic,
        (None, true) => SessionState::RwPublic,
        (Some(UserType::User), false) => SessionState::RoUser,
        (Some(UserType::User), true) => SessionState::RwUser,
        (Some(UserType::So), _) => SessionState::RwSo,
    }
}

// A session is found by the number that it carries. So a key which the slab gives out again is
// never taken for the session that had it before.
fn find_session<W>(sessions: &Slab<Session<W>>, handle: u64) -> Option<(usize, &Session<W>)>
    ensures { option_map (λ e. (e.0, e.1.now)) result ≡ find (λ e. e.1.handle == handle) (entries sessions.now) }
{
    sessions
        .iter()
        .find(|(_, session)| session.handle == handle)
}

fn end_work<W: Activity + Drop>(sessions: &mut Slab<Session<W>>)
    ensures { in_order (λ s. s.handle) sessions.new.slots ≡ map (busy_with W.idle) (in_order (λ s. s.handle) sessions.old.slots) }
{
    sessions.retain(|_, session| {
        session.work = W::idle();
        true
    });
}
