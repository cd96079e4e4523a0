//! Desks.

ghost use Rattle.std.specs.Prelude.{◌≡◌, ℕ, ◌+◌, ◌<◌, ◌^◌, ◌++◌, ◌∷◌, [], ◌==◌, not, drop, filter, map, length, nat_lt, nat_le, is_some, Some, None, option_map, count_by, vec_capacity, ◌↔◌, IfOk, IfSome, IsSome, OnOk, OnErr, IsTrue, IsFalse, true};
ghost use Rattle.fips_197.specs.KeyExpansion.{IsKey, IsKeyLength};
ghost use Rattle.std.specs.Option.{option_copied};
ghost use Rattle.std.specs.List.{position};
ghost use Rattle.ck_types.specs.declared.constants.TheConstants.{MAX_SESSION_COUNT};
ghost use Rattle.ck_types.specs.declared.user_type.UserType.TheVariants.{So};
ghost use Rattle.handles.specs.Handles.{object_of, handle_number, with_handle, handles_without, HasRoomFor};
ghost use Rattle.handles.specs.Handles.{IsHandleTable as IsHandleTable};
ghost use Rattle.sessions.specs.Sessions.{session_at, state_of, has_read_only, with_session, with_work, IsTable};
ghost use Rattle.guard.specs.Access.{is_user_in};
ghost use Rattle.ops.specs.Operations.{mac_in, mac_of, no_operations, operation_in, operation_of, search_in, table_with_mac, table_with_operation, with_search};
ghost use Rattle.desk.specs.Desks.{DeskState, SameDesk, IsDiscreet, empty_desk, is_busy, own_at, replaced_own, closed, all_closed, logged_out_desk, over, with_call, with_question};
ghost use Rattle.attrs.specs.Objects.{flag};
ghost use Rattle.ck_types.specs.declared.attr_type.AttrType.TheVariants.{Private};

use crate::last_key::LastKey;
use crate::own_object::OwnObject;
use crate::question::Question;
use aes_vector::Key;
use attrs::Object;
use ck_calls::Call;
use ck_types::{AttrType, MAX_SESSION_OBJECTS, SessionState, UserType};
use handles::Handles;
use lists::NUMBER_LIMIT;
use macs::Mac;
use mech::Job;
use ops::{MacPlace, Place, Places, Search};
use sessions::Sessions;
use std::alloc::{AllocError, Global};
use std::marker::Model;
use std::snapshot::Snapshot;
use streams::Stream;

/// One application's part of a token.
#[derive(Drop)]
pub struct Desk {
    sessions: Sessions<Places>,
    own: Vec<OwnObject>,
    handles: Handles,
    call: Option<Snapshot<Call>>,
    question: Option<Question>,
    next_question: u64,
    /// The key of the last operation that encrypts or decrypts. No contract sees it.
    last_key: Option<LastKey>,
}

impl Model for Desk {
    ghost use Rattle.std.specs.Prelude.{option_map, vec_capacity};
    ghost use Rattle.desk.specs.Desks.{DeskState, IsDiscreet};

    ghost Value = { DeskState };

    ghost view = { λ d. record {
      sessions = d.sessions;
      own = d.own.items;
      own_capacity = vec_capacity d.own;
      handles = d.handles;
      call = option_map (λ s. s.value) d.call;
      question = d.question;
      next_question = d.next_question;
    } };

    ghost invariant = { λ d. IsDiscreet (record {
      sessions = d.sessions;
      own = d.own.items;
      own_capacity = vec_capacity d.own;
      handles = d.handles;
      call = option_map (λ s. s.value) d.call;
      question = d.question;
      next_question = d.next_question;
    }) };
}

impl Desk {
    /// The desk of a new application. Nothing is allocated.
    pub fn new(alloc: Global) -> Desk
        ensures { SameDesk empty_desk result }
    {
        Desk {
            sessions: Sessions::new(alloc),
            own: Vec::new(alloc),
            handles: Handles::new(alloc),
            call: None,
            question: None,
            next_question: 1,
            last_key: None,
        }
    }

    /// Whether no call is taken: a call is pending, or a next number has reached its limit.
    pub fn is_busy(&self) -> bool
        ensures { result ≡ is_busy self.now }
    {
        self.question.is_some()
            || self.sessions.next_number() >= NUMBER_LIMIT
            || self.handles.next_number() >= NUMBER_LIMIT
            || self.next_question >= NUMBER_LIMIT
    }

    /// Who is logged in.
    pub fn logged_in(&self) -> Option<UserType>
        ensures login { result ≡ self.now.sessions.login }
        ensures table { IsTable self.now.sessions }
        ensures discreet { IsDiscreet self.now }
    {
        self.sessions.logged_in()
    }

    /// Whether there are as many sessions as an application may have.
    pub fn has_all_sessions(&self) -> bool
        ensures { result ≡ nat_le MAX_SESSION_COUNT (length self.now.sessions.sessions) }
    {
        self.sessions.is_full()
    }

    /// Whether there is a session at all.
    pub fn has_session(&self) -> bool
        ensures { result ≡ nat_lt 0 (length self.now.sessions.sessions) }
    {
        self.sessions.count() > 0
    }

    /// How many sessions there are.
    pub fn session_count(&self) -> usize
        ensures { result ≡ length self.now.sessions.sessions }
    {
        self.sessions.count()
    }

    /// How many of them are read/write.
    pub fn read_write_session_count(&self) -> usize
        ensures { result ≡ count_by (λ s. s.read_write) self.now.sessions.sessions }
    {
        self.sessions.read_write_count()
    }

    /// Whether a session is read-only, so that the SO may not log in.
    pub fn has_read_only_session(&self) -> bool
        ensures { result ≡ has_read_only self.now.sessions.sessions }
    {
        self.sessions.has_read_only()
    }

    /// The state of a session (`CK_STATE`; PKCS #11 v3.1, 3.3), or `None` where there is no such session.
    pub fn state(&self, session: u64) -> Option<SessionState>
        ensures { result ≡ option_map (λ s. state_of self.now.sessions.login s.read_write) (session_at self.now.sessions.sessions session) }
    {
        self.sessions.state(session)
    }

    /// Whether a session is read/write.
    pub fn is_read_write(&self, session: u64) -> Option<bool>
        ensures { result ≡ option_map (λ s. s.read_write) (session_at self.now.sessions.sessions session) }
    {
        self.sessions.is_read_write(session)
    }

    /// Opens a session (C_OpenSession). It fails only if an allocation fails, and then nothing changes.
    pub fn open_session(&mut self, read_write: bool) -> Result<u64, AllocError>
        requires numbers { self.old.sessions.next_number < 2 ^ 63 }
        requires room { length self.old.sessions.sessions < MAX_SESSION_COUNT }
        requires access { self.old.sessions.login ≡ Some So → IsTrue read_write }
        ensures number { IfOk result (λ n. n ≡ self.old.sessions.next_number) }
        ensures opened { OnOk result (self.new ≡ record self.old { sessions = with_session no_operations self.old.sessions read_write }) }
        ensures err { OnErr result (self.new ≡ self.old) }
    {
        self.sessions.open(read_write)
    }

    /// Closes a session, with its objects (C_CloseSession). Allocates nothing.
    pub fn close(&mut self, session: u64)
        ensures { self.new ≡ closed self.old session }
    {
        self.sessions.close(session);
        retain_others(&mut self.own, session);
        if self.sessions.logged_in().is_none() {
            self.last_key = None;
            self.handles.retire_private();
        }
    }

    /// Closes all sessions (C_CloseAllSessions). Allocates nothing.
    pub fn close_all(&mut self)
        ensures { self.new ≡ all_closed self.old }
    {
        self.last_key = None;
        self.sessions.close_all();
        self.own.clear();
        self.handles.retire_private();
    }

    /// Logs in the user or the SO (C_Login; PKCS #11 v3.1, 5.6). Allocates nothing.
    pub fn login(&mut self, user: UserType)
        requires open { 0 < length self.old.sessions.sessions }
        requires public { self.old.sessions.login ≡ None }
        requires access { user ≡ So → IsFalse (has_read_only self.old.sessions.sessions) }
        ensures { self.new ≡ record self.old { sessions = record self.old.sessions { login = Some user } } }
    {
        self.sessions.login(user);
    }

    /// Logs out (C_Logout). Allocates nothing.
    pub fn logout(&mut self)
        ensures { self.new ≡ logged_out_desk self.old }
    {
        self.last_key = None;
        self.sessions.logout();
        retain_public(&mut self.own);
        self.handles.retire_private();
    }

    /// The key of these bytes, or none where they are not 16, 24 or 32. That of the application's last operation is kept, and is not
    /// expanded again. Nothing that the application sees changes.
    pub fn key_of(&mut self, alloc: Global, value: &[u8]) -> Option<Key>
        ensures length { IsSome result ↔ IsKeyLength (length value.now) }
        ensures value { IfSome result (λ key. key ≡ value.now) }
        ensures same { self.new ≡ self.old }
    {
        if let Some(key) = self.known_key(value) {
            return Some(key);
        }
        let key = Key::new(value)?;
        self.last_key = LastKey::new(alloc, &key, value).ok();
        Some(key)
    }

    /// The key of these bytes, where it is the last operation's.
    fn known_key(&self, value: &[u8]) -> Option<Key>
        ensures value { IfSome result (λ key. key ≡ value.now) }
        ensures key { IfSome result IsKey }
    {
        self.last_key.as_ref()?.key_of(value)
    }

    /// The operation at a place of a session that encrypts or decrypts.
    pub fn operation(&self, session: u64, place: Place) -> Option<&Stream>
        ensures { option_map operation_of (option_copied result) ≡ operation_in (session_at self.now.sessions.sessions session) place }
    {
        self.sessions.work(session)?.get(place)
    }

    /// Begins an operation that encrypts or decrypts at a place of a session, continues it, or ends the one that is there.
    /// Without such a session nothing changes.
    pub fn set_operation(&mut self, session: u64, place: Place, operation: Option<Stream>)
        ensures { self.new ≡ record self.old { sessions = table_with_operation self.old.sessions session place (option_map operation_of operation) } }
    {
        if let Some(places) = self.sessions.work_mut(session) {
            places.set(place, operation);
        }
    }

    /// The operation at a place of a session that signs or verifies.
    pub fn mac(&self, session: u64, place: MacPlace) -> Option<&Mac>
        ensures { option_map mac_of (option_copied result) ≡ mac_in (session_at self.now.sessions.sessions session) place }
    {
        self.sessions.work(session)?.mac(place)
    }

    /// Begins an operation that signs or verifies at a place of a session, continues it, or ends the one that is there.
    /// Without such a session nothing changes.
    pub fn set_mac(&mut self, session: u64, place: MacPlace, operation: Option<Mac>)
        ensures { self.new ≡ record self.old { sessions = table_with_mac self.old.sessions session place (option_map mac_of operation) } }
    {
        if let Some(places) = self.sessions.work_mut(session) {
            places.set_mac(place, operation);
        }
    }

    /// The search of a session.
    pub fn search(&self, session: u64) -> Option<&Search>
        ensures { option_copied result ≡ search_in (session_at self.now.sessions.sessions session) }
    {
        self.sessions.work(session)?.search()
    }

    /// Begins a search of a session, or ends the one that is there. Without such a session nothing changes.
    pub fn set_search(&mut self, session: u64, search: Option<Search>)
        ensures { self.new ≡ record self.old { sessions = with_search self.old.sessions session search } }
    {
        if let Some(places) = self.sessions.work_mut(session) {
            places.set_search(search);
        }
    }

    /// Removes the first `count` handles of a session's search, which are returned now. Without such a search nothing changes.
    pub fn advance_search(&mut self, session: u64, count: usize)
        ensures { self.new ≡ record self.old {
          sessions = with_search self.old.sessions session
              (option_map (drop count) (search_in (session_at self.old.sessions.sessions session)));
        } }
    {
        if let Some(places) = self.sessions.work_mut(session) {
            places.advance_search(count);
        }
    }

    /// Whether there are as many session objects as an application may have.
    pub fn has_all_objects(&self) -> bool
        ensures { result ≡ nat_le MAX_SESSION_OBJECTS (length self.now.own) }
    {
        self.own.len() >= MAX_SESSION_OBJECTS
    }

    /// Adds a session object, and returns its handle. It fails only if an allocation fails, and then the desk is unchanged.
    pub fn add_own(&mut self, session: u64, object: Object) -> Result<u64, AllocError>
        requires { self.old.handles.next_number < 2 ^ 63 }
        ensures handle { IfOk result (λ handle. handle ≡ self.old.handles.next_number) }
        ensures added { OnOk result (SameDesk (record self.old {
          own = self.old.own ++ record { handle = self.old.handles.next_number; session = session; object = object } ∷ [];
          handles = record self.old.handles { next_number = self.old.handles.next_number + 1 };
        }) self.new) }
        ensures err { OnErr result (SameDesk self.old self.new) }
    {
        self.own.reserve(1)?;
        let handle = self.handles.take_number();
        self.own.push_reserved(OwnObject {
            handle,
            session,
            object,
        });
        Ok(handle)
    }

    /// The session objects, in the order of their creation.
    pub fn own_objects(&self) -> &[OwnObject]
        ensures { result.now ≡ self.now.own }
    {
        self.own.as_slice()
    }

    /// The session object under a handle.
    pub fn own_object(&self, handle: u64) -> Option<&Object>
        ensures { option_copied result ≡ own_at self.now.own handle }
    {
        self.own
            .iter()
            .find(|own| own.handle == handle)
            .map(|own| &own.object)
    }

    /// Destroys the session object under a handle, if there is one. Allocates nothing.
    pub fn remove_own(&mut self, handle: u64)
        ensures { self.new ≡ record self.old { own = filter (λ e. not (e.handle == handle)) self.old.own } }
    {
        remove_handle(&mut self.own, handle);
    }

    /// Replaces the session object under a handle, if there is one. Allocates nothing.
    pub fn replace_own(&mut self, handle: u64, object: Object)
        ensures { self.new ≡ record self.old { own = replaced_own self.old.own handle object } }
    {
        replace_object(&mut self.own, handle, object);
    }

    /// The id of the token object under a handle.
    pub fn id_of(&self, handle: u64) -> Option<u64>
        ensures id { result ≡ object_of self.now.handles.entries handle }
        ensures table { IsHandleTable self.now.handles.next_number self.now.handles.entries }
    {
        self.handles.object_of(handle)
    }

    /// The next handle.
    pub fn next_handle(&self) -> u64
        ensures { result ≡ self.now.handles.next_number }
    {
        self.handles.next_number()
    }

    /// Allocates for so many more handles of token objects. It fails only if an allocation fails.
    pub fn reserve_handles(&mut self, additional: usize) -> Result<(), AllocError>
        ensures room { OnOk result (HasRoomFor self.new.handles additional) }
        ensures same { SameDesk self.old self.new }
    {
        self.handles.reserve(additional)
    }

    /// Gives a token object its handle, and records whether the object is private, as it may be only where the user is logged in.
    /// Allocates nothing.
    pub fn give_handle(&mut self, id: u64, private: bool) -> u64
        requires below { self.old.handles.next_number + 1 < 2 ^ 64 }
        requires room { HasRoomFor self.old.handles 1 }
        requires discreet { IsTrue private → is_user_in self.old.sessions.login ≡ true }
        ensures given { self.new ≡ record self.old { handles = with_handle self.old.handles id private } }
        ensures handle { handle_number self.new.handles.entries id ≡ Some result }
    {
        self.handles.give(id, private)
    }

    /// Retires the handle of a token object, if it has one. Allocates nothing.
    pub fn retire(&mut self, id: u64)
        ensures { self.new ≡ record self.old { handles = record self.old.handles { entries = handles_without self.old.handles.entries id } } }
    {
        self.handles.retire(id);
    }

    /// The number of the next job.
    pub fn next_question(&self) -> u64
        ensures { result ≡ self.now.next_question }
    {
        self.next_question
    }

    /// Makes the call pending that a job answers.
    pub fn ask(&mut self, job: &Job)
        requires { self.old.next_question < 2 ^ 63 }
        ensures { self.new ≡ with_question self.old job.now }
    {
        self.question = Some(Question::new(job));
        self.next_question += 1;
    }

    /// The pending call.
    pub fn question(&self) -> Option<&Question>
        ensures { option_copied result ≡ self.now.question }
    {
        self.question.as_ref()
    }

    /// Notes which call is pending. The call is for contracts alone: none of its bytes is kept.
    pub fn note_call(&mut self, call: Snapshot<Call>)
        ensures { self.new ≡ with_call self.old call.value }
    {
        self.call = Some(call);
    }

    /// The call is pending no more.
    pub fn end_question(&mut self)
        ensures { self.new ≡ over self.old }
    {
        self.call = None;
        self.question = None;
    }

    /// A disconnect: all that the application has ends, and its numbers begin again. Allocates nothing.
    pub fn end(&mut self)
        ensures { SameDesk empty_desk self.new }
    {
        let alloc = *self.own.allocator();
        *self = Desk::new(alloc);
    }
}

fn remove_handle(own: &mut Vec<OwnObject>, handle: u64)
    ensures items { own.new.items ≡ filter (λ e. not (e.handle == handle)) own.old.items }
    ensures capacity { vec_capacity own.new ≡ vec_capacity own.old }
{
    own.retain(|e| e.handle != handle);
}

fn index_of_handle(own: &[OwnObject], handle: u64) -> Option<usize>
    ensures { result ≡ position (λ e. e.handle == handle) own.now }
{
    own.iter().position(|e| e.handle == handle)
}

fn replace_object(own: &mut Vec<OwnObject>, handle: u64, object: Object)
    ensures items { own.new.items ≡ replaced_own own.old.items handle object }
    ensures capacity { vec_capacity own.new ≡ vec_capacity own.old }
{
    if let Some(place) = index_of_handle(own, handle) {
        own[place].object = object;
    }
}

fn retain_others(own: &mut Vec<OwnObject>, session: u64)
    ensures items { own.new.items ≡ filter (λ e. not (e.session == session)) own.old.items }
    ensures capacity { vec_capacity own.new ≡ vec_capacity own.old }
{
    own.retain(|e| e.session != session);
}

fn retain_public(own: &mut Vec<OwnObject>)
    ensures items { own.new.items ≡ filter (λ e. not (flag e.object Private)) own.old.items }
    ensures capacity { vec_capacity own.new ≡ vec_capacity own.old }
{
    own.retain(|e| !e.object.flag(AttrType::Private));
}
