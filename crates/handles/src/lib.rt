//! One application's handles of token objects.
//!
//! A handle is a number from 1 on. Numbers rise by one and never return, so a handle that was
//! retired stays unknown for good. An object is known by its id, and has one handle at most.
//! Each handle records whether its object is private: a logout retires those handles without reading
//! the objects, and takes no memory.
//!
//! Contracts see the handles as a list in the order in which they were given, with the number of
//! the next one. They are stored twice, by rising number and by rising id, so that a handle is found
//! by bisection either way. A new handle comes last by its number, and mostly by its id too, since the
//! ids of new objects rise.
//!
//! An entry that is retired is marked and keeps its place, so that no entry behind it moves. Contracts
//! don't see it. Retired entries are taken out only where a list is full. At least as many handles are
//! then given before the next such walk as are left by it, unless an allocation fails.
//!
//! Proved, by the names of contracts: numbers rise from 1 and never return (`IsHandleTable`). An object has one handle at most, found either
//! way (`object_of`, `handle_number`); a logout retires those of private objects. No clause says how long a bisection takes, or when entries
//! are taken out.
#![tactic(auto)]

ghost use Rattle.std.specs.Prelude.{◌≡◌, ℕ, ◌+◌, ◌^◌, ◌<◌, ◌≤◌, ◌==◌, nat_lt, filter, find, length, not, None, Some, if◌then◌else◌, IsOk, IfSome, OnOk, vec_len};
ghost use Rattle.std.specs.List.{insert};
ghost use Rattle.std.specs.Vec.{vec_capacity};
ghost use Rattle.handles.specs.Handles.{no_handles, object_of, handle_number, with_handle, handles_without, public_handles, HasRoomFor, IsHandleTable};
ghost use Rattle.handles.specs.Stored.{handles_in, entry_id, entry_number, without_retired, IsTaken};
ghost use Rattle.lists.specs.Bisection.{KeysRise, IsIndexOf};
ghost use Rattle.lists.specs.InOrder.{NumbersRise, placed};

use lists::NUMBER_LIMIT;
use std::alloc::{AllocError, Global};
use std::marker::Model;

/// A handle: its number, the id of its object, and whether that object is private (CKA_PRIVATE).
#[derive(Clone, Copy, Debug, PartialEq, Eq)]
pub struct Handle {
    pub handle: u64,
    pub id: u64,
    pub private: bool,
}

/// A handle as it is stored, and whether it was retired.
#[derive(Clone, Copy)]
struct Entry {
    handle: Handle,
    retired: bool,
}

impl Entry {
    /// The handle, if it isn't retired.
    fn live(self) -> Option<Handle>
        ensures { result ≡ (if self.retired then None else Some self.handle) }
    {
        if self.retired {
            return None;
        }
        Some(self.handle)
    }
}

/// One application's handles of token objects.
#[derive(Drop)]
pub struct Handles {
    /// By rising number.
    entries: Vec<Entry>,
    /// The same handles by rising id.
    by_id: Vec<Entry>,
    next_number: u64,
}

impl Model for Handles {
    ghost use Rattle.std.specs.Prelude.{min};
    ghost use Rattle.std.specs.Vec.{vec_capacity};
    ghost use Rattle.handles.specs.Handles.{HandleTable};
    ghost use Rattle.handles.specs.Stored.{handles_in, IsStored};

    ghost Value = { HandleTable };

    ghost view = { λ h. record {
      entries = handles_in h.entries.items;
      next_number = h.next_number;
      capacity = min (vec_capacity h.entries) (vec_capacity h.by_id);
    } };

    ghost invariant = { λ h. IsStored h.next_number h.entries.items h.by_id.items };
}

impl Handles {
    /// No handles yet. Nothing is allocated.
    pub fn new(alloc: Global) -> Self
        ensures { result ≡ no_handles }
    {
        Handles {
            entries: Vec::new(alloc),
            by_id: Vec::new(alloc),
            next_number: 1,
        }
    }

    /// The number of the next handle.
    pub fn next_number(&self) -> u64
        ensures { result ≡ self.now.next_number }
    {
        self.next_number
    }

    /// Whether the next number is below the limit. A caller tests it before it gives handles; one
    /// search may give several after one test, so `give` itself asks only that the number fits.
    pub fn has_numbers(&self) -> bool
        ensures { result ≡ nat_lt self.now.next_number NUMBER_LIMIT }
    {
        self.next_number < NUMBER_LIMIT
    }

    /// The id of the object whose handle this is.
    pub fn object_of(&self, handle: u64) -> Option<u64>
        ensures object { result ≡ object_of self.now.entries handle }
        ensures matched { IfSome result (λ id. handle_number self.now.entries id ≡ Some handle) }
        ensures table { IsHandleTable self.now.next_number self.now.entries }
    {
        match find_handle(&self.entries, handle) {
            Some(found) => Some(found.id),
            None => None,
        }
    }

    /// The handle of the object with this id.
    pub fn number_of(&self, id: u64) -> Option<u64>
        ensures handle { result ≡ handle_number self.now.entries id }
        ensures matched { IfSome result (λ handle. object_of self.now.entries handle ≡ Some id) }
        ensures table { IsHandleTable self.now.next_number self.now.entries }
    {
        match find_id(&self.by_id, id) {
            Some(found) => Some(found.handle),
            None => None,
        }
    }

    /// Reserves memory for so many more handles. It fails only if an allocation fails, and either way the
    /// handles are as they were.
    pub fn reserve(&mut self, additional: usize) -> Result<(), AllocError>
        ensures room { OnOk result (HasRoomFor self.new additional) }
        ensures succeeds { HasRoomFor self.old additional → IsOk result }
        ensures same { self.new ≡ record self.old { capacity = self.new.capacity } }
        ensures grows { self.old.capacity ≤ self.new.capacity }
    {
        reserve_entries(&mut self.entries, additional)?;
        reserve_entries(&mut self.by_id, additional)
    }

    /// The handle of an object: the one that it has, or else the next one, which records whether the
    /// object is private. `reserve` has allocated for it, so no memory is taken.
    pub fn give(&mut self, id: u64, private: bool) -> u64
        requires fits { self.old.next_number + 1 < 2 ^ 64 }
        requires room { HasRoomFor self.old 1 }
        ensures given { self.new ≡ with_handle self.old id private }
        ensures handle { handle_number self.new.entries id ≡ Some result }
    {
        if let Some(found) = find_id(&self.by_id, id) {
            return found.handle;
        }
        let handle = self.next_number;
        let given = Handle {
            handle,
            id,
            private,
        };
        make_room(&mut self.entries);
        self.entries.push_reserved(Entry {
            handle: given,
            retired: false,
        });
        make_room(&mut self.by_id);
        put_by_id(&mut self.by_id, given);
        self.next_number += 1;
        handle
    }

    /// The next number, for an object that is kept elsewhere, as a session object. No memory is taken.
    pub fn take_number(&mut self) -> u64
        requires { self.old.next_number + 1 < 2 ^ 64 }
        ensures handle { result ≡ self.old.next_number }
        ensures taken { self.new ≡ record self.old { next_number = self.old.next_number + 1 } }
    {
        let handle = self.next_number;
        self.next_number = handle + 1;
        handle
    }

    /// Retires the handle of an object, if it has one. No memory is taken.
    pub fn retire(&mut self, id: u64)
        ensures { self.new ≡ record self.old { entries = handles_without self.old.entries id } }
    {
        if let Some(found) = retire_id(&mut self.by_id, id) {
            retire_handle(&mut self.entries, found.handle);
        }
    }

    /// Retires the handles of private objects. No memory is taken.
    pub fn retire_private(&mut self)
        ensures { self.new ≡ record self.old { entries = public_handles self.old.entries } }
    {
        take_out_private(&mut self.entries);
        take_out_private(&mut self.by_id);
    }
}

/// Where the handle with this number stands among entries by rising number, or where it would go.
fn index_of_handle(entries: &[Entry], handle: u64) -> Result<usize, usize>
    requires { KeysRise entry_number entries.now }
    ensures { IsIndexOf entry_number entries.now handle result }
{
    entries.binary_search_by_key(&handle, |entry| entry.handle.handle)
}

/// Where the handle of this object stands among entries by rising id, or where it would go.
fn index_of_id(entries: &[Entry], id: u64) -> Result<usize, usize>
    requires { KeysRise entry_id entries.now }
    ensures { IsIndexOf entry_id entries.now id result }
{
    entries.binary_search_by_key(&id, |entry| entry.handle.id)
}

/// The handle with this number, if it isn't retired.
fn find_handle(entries: &[Entry], handle: u64) -> Option<Handle>
    requires { KeysRise entry_number entries.now }
    ensures { result ≡ find (λ h. h.handle == handle) (handles_in entries.now) }
{
    match index_of_handle(entries, handle) {
        Ok(at) => entries[at].live(),
        Err(_) => None,
    }
}

/// The handle of this object, if it isn't retired.
fn find_id(entries: &[Entry], id: u64) -> Option<Handle>
    requires { KeysRise entry_id entries.now }
    ensures { result ≡ find (λ h. h.id == id) (handles_in entries.now) }
{
    match index_of_id(entries, id) {
        Ok(at) => entries[at].live(),
        Err(_) => None,
    }
}

/// Retires the handle with this number.
fn retire_handle(entries: &mut Vec<Entry>, handle: u64)
    requires { KeysRise entry_number entries.old.items }
    ensures left { handles_in entries.new.items ≡ filter (λ h. not (h.handle == handle)) (handles_in entries.old.items) }
    ensures numbers { (next : ℕ) → NumbersRise entry_number 1 entries.old.items next → NumbersRise entry_number 1 entries.new.items next }
    ensures capacity { vec_capacity entries.new ≡ vec_capacity entries.old }
{
    if let Ok(at) = index_of_handle(entries, handle) {
        entries[at].retired = true;
    }
}

/// Retires the handle of this object, and returns it.
fn retire_id(entries: &mut Vec<Entry>, id: u64) -> Option<Handle>
    requires { KeysRise entry_id entries.old.items }
    ensures found { result ≡ find (λ h. h.id == id) (handles_in entries.old.items) }
    ensures left { handles_in entries.new.items ≡ handles_without (handles_in entries.old.items) id }
    ensures rise { KeysRise entry_id entries.new.items }
    ensures capacity { vec_capacity entries.new ≡ vec_capacity entries.old }
{
    match index_of_id(entries, id) {
        Ok(at) => {
            let found = entries[at].live();
            entries[at].retired = true;
            found
        }
        Err(_) => None,
    }
}

/// Puts a handle among entries by rising id, where no live one is of its object. Memory is reserved for it.
fn put_by_id(entries: &mut Vec<Entry>, handle: Handle)
    requires rise { KeysRise entry_id entries.old.items }
    requires new { find (λ h. h.id == handle.id) (handles_in entries.old.items) ≡ None }
    requires room { vec_len entries.old < vec_capacity entries.old }
    ensures put { handles_in entries.new.items ≡ placed (λ h. h.id) handle (handles_in entries.old.items) }
    ensures rise { KeysRise entry_id entries.new.items }
    ensures capacity { vec_capacity entries.new ≡ vec_capacity entries.old }
{
    let entry = Entry {
        handle,
        retired: false,
    };
    match index_of_id(entries, handle.id) {
        Ok(at) => entries[at] = entry,
        Err(at) => insert_reserved(entries, at, entry),
    }
}

/// Inserts an entry at the index where it goes; memory for it is reserved.
fn insert_reserved(entries: &mut Vec<Entry>, at: usize, entry: Entry)
    requires place { at ≤ vec_len entries.old }
    requires room { vec_len entries.old < vec_capacity entries.old }
    ensures items { entries.new.items ≡ insert entries.old.items at entry }
    ensures capacity { vec_capacity entries.new ≡ vec_capacity entries.old }
{
    let _inserted = entries.insert(at, entry);
}

/// Takes the retired entries out.
fn take_out(entries: &mut Vec<Entry>)
    ensures left { entries.new.items ≡ without_retired entries.old.items }
    ensures len { vec_len entries.new ≡ length (handles_in entries.old.items) }
    ensures capacity { vec_capacity entries.new ≡ vec_capacity entries.old }
{
    entries.retain(|entry| !entry.retired);
}

/// Takes the retired entries out of a full list.
fn make_room(entries: &mut Vec<Entry>)
    ensures left { IsTaken entries.old.items entries.new.items }
    ensures room { length (handles_in entries.old.items) < vec_capacity entries.old → vec_len entries.new < vec_capacity entries.new }
    ensures capacity { vec_capacity entries.new ≡ vec_capacity entries.old }
{
    if entries.len() == entries.capacity() {
        take_out(entries);
    }
}

/// Reserves memory for so many more entries. In a full list the retired ones are taken out first, and then memory for as many
/// more as are left is asked for. So these walks take a bounded time for each handle that is given.
fn reserve_entries(entries: &mut Vec<Entry>, additional: usize) -> Result<(), AllocError>
    ensures left { IsTaken entries.old.items entries.new.items }
    ensures room { OnOk result (vec_len entries.new + additional ≤ vec_capacity entries.new) }
    ensures succeeds { length (handles_in entries.old.items) + additional ≤ vec_capacity entries.old → IsOk result }
    ensures grows { vec_capacity entries.old ≤ vec_capacity entries.new }
{
    if additional <= entries.capacity() - entries.len() {
        return Ok(());
    }
    take_out(entries);
    if entries.reserve(additional.max(entries.len())).is_ok() {
        return Ok(());
    }
    entries.reserve(additional)
}

/// Takes out the retired handles, and those of private objects.
fn take_out_private(entries: &mut Vec<Entry>)
    ensures left { handles_in entries.new.items ≡ public_handles (handles_in entries.old.items) }
    ensures numbers { (next : ℕ) → NumbersRise entry_number 1 entries.old.items next → NumbersRise entry_number 1 entries.new.items next }
    ensures rise { KeysRise entry_id entries.old.items → KeysRise entry_id entries.new.items }
    ensures capacity { vec_capacity entries.new ≡ vec_capacity entries.old }
{
    entries.retain(|entry| !entry.retired && !entry.handle.private);
}
