//! A search of a session.

ghost use Rattle.std.specs.Prelude.{◌≡◌, take, drop};

use std::marker::Model;

/// A search that is in progress (PKCS #11 v3.1, 5.7.7 to 5.7.9): the handles that it found, of which the first were returned.
///
/// The list is fixed when the search begins, even if an object is destroyed later.
#[derive(Drop)]
pub struct Search {
    handles: Vec<u64>,
    answered: usize,
}

impl Model for Search {
    ghost use Rattle.std.specs.Prelude.{ℕ, ◌≤◌, List, drop, vec_len};

    ghost Value = { List ℕ };

    ghost view = { λ s. drop s.answered s.handles.items };

    ghost invariant = { λ s. s.answered ≤ vec_len s.handles };
}

impl Search {
    /// A search that found these handles, of which none is returned yet.
    pub fn new(handles: Vec<u64>) -> Search
        ensures { result ≡ handles.items }
    {
        Search {
            handles,
            answered: 0,
        }
    }

    /// The first handles that weren't returned yet: as many as there are, but at most `count`.
    pub fn first(&self, count: usize) -> &[u64]
        ensures { result.now ≡ take count self.now }
    {
        let left = &self.handles[self.answered..];
        &left[..count.min(left.len())]
    }

    /// These are returned now.
    pub fn advance(&mut self, count: usize)
        ensures { self.new ≡ drop count self.old }
    {
        self.answered += count.min(self.handles.len() - self.answered);
    }
}
