//! What a session has in progress.

ghost use Rattle.std.specs.Prelude.{◌≡◌, drop, option_map};
ghost use Rattle.std.specs.Option.{option_copied};
ghost use Rattle.ops.specs.Operations.{mac_at, mac_of, mac_placed, no_operations, operation_at, operation_of, placed};

use crate::place::{MacPlace, Place};
use crate::search::Search;
use macs::Mac;
use sessions::Activity;
use std::marker::Model;
use streams::Stream;

/// What a session has in progress: an operation at each place, or none, and a search, or none.
///
/// An operation keeps its own copy of the key, so that a later change of the key's object leaves it running.
#[derive(Drop)]
pub struct Places {
    encrypt: Option<Stream>,
    decrypt: Option<Stream>,
    sign: Option<Mac>,
    verify: Option<Mac>,
    find: Option<Search>,
}

impl Model for Places {
    ghost use Rattle.std.specs.Prelude.{option_map};
    ghost use Rattle.ops.specs.Operations.{Operations, mac_of, operation_of};

    ghost Value = { Operations };

    ghost view = { λ p. record {
      encrypt = option_map operation_of p.encrypt;
      decrypt = option_map operation_of p.decrypt;
      sign = option_map mac_of p.sign;
      verify = option_map mac_of p.verify;
      find = p.find;
    } };
}

impl Places {
    /// The operation at a place that encrypts or decrypts.
    pub fn get(&self, place: Place) -> Option<&Stream>
        ensures { option_map operation_of (option_copied result) ≡ operation_at self.now place }
    {
        match place {
            Place::Encrypt => self.encrypt.as_ref(),
            Place::Decrypt => self.decrypt.as_ref(),
        }
    }

    /// An operation that encrypts or decrypts begins or goes on at a place, or the one that is there ends. The other places
    /// keep theirs.
    pub fn set(&mut self, place: Place, operation: Option<Stream>)
        ensures { self.new ≡ placed self.old place (option_map operation_of operation) }
    {
        match place {
            Place::Encrypt => self.encrypt = operation,
            Place::Decrypt => self.decrypt = operation,
        }
    }

    /// The operation at a place that signs or verifies.
    pub fn mac(&self, place: MacPlace) -> Option<&Mac>
        ensures { option_map mac_of (option_copied result) ≡ mac_at self.now place }
    {
        match place {
            MacPlace::Sign => self.sign.as_ref(),
            MacPlace::Verify => self.verify.as_ref(),
        }
    }

    /// An operation that signs or verifies begins or goes on at a place, or the one that is there ends. The other places keep
    /// theirs.
    pub fn set_mac(&mut self, place: MacPlace, operation: Option<Mac>)
        ensures { self.new ≡ mac_placed self.old place (option_map mac_of operation) }
    {
        match place {
            MacPlace::Sign => self.sign = operation,
            MacPlace::Verify => self.verify = operation,
        }
    }

    /// The search.
    pub fn search(&self) -> Option<&Search>
        ensures { option_copied result ≡ self.now.find }
    {
        self.find.as_ref()
    }

    /// A search begins, or the one that is there ends. The operations at the places stay.
    pub fn set_search(&mut self, search: Option<Search>)
        ensures { self.new ≡ record self.old { find = search } }
    {
        self.find = search;
    }

    /// The first handles of the search, so many, are returned now. Without a search nothing changes.
    pub fn advance_search(&mut self, count: usize)
        ensures { self.new ≡ record self.old { find = option_map (drop count) self.old.find } }
    {
        if let Some(search) = &mut self.find {
            search.advance(count);
        }
    }
}

impl Activity for Places {
    ghost idle = { no_operations };

    fn idle() -> Places {
        Places {
            encrypt: None,
            decrypt: None,
            sign: None,
            verify: None,
            find: None,
        }
    }
}
