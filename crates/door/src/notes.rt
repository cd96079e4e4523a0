//! What a connection's socket gave and took, for contracts alone. These are made where a connection comes by a door, and nowhere else.

ghost use Rattle.std.specs.Prelude.{◌≡◌, [], None};
ghost use Rattle.door.specs.Ends.{GaveBytes, TookBytes};

use lists::GhostBytes;
use std::marker::Model;

/// What was read of an application's connection.
#[derive(Drop)]
pub struct Gave {
    app: u64,
    gave: GhostBytes,
}

impl Model for Gave {
    ghost use Rattle.std.specs.Prelude.{None};
    ghost use Rattle.door.specs.Ends.{Reading};

    ghost Value = { Reading };

    ghost view = { λ g. record { app = g.app; gave = g.gave.bytes; left = None } };
}

impl Gave {
    /// Nothing was read yet.
    pub(crate) fn nothing(app: u64) -> Gave
        ensures { result ≡ record { app = app; gave = []; left = None } }
    {
        Gave {
            app,
            gave: GhostBytes::new(),
        }
    }

    /// These were read too. What is left is not known.
    pub fn note(&mut self, bytes: &[u8])
        ensures gave { GaveBytes self.old self.new bytes.now }
        ensures left { self.new.left ≡ None }
    {
        self.gave.push(bytes);
    }
}

/// What was written to an application's connection.
#[derive(Drop)]
pub struct Took {
    app: u64,
    took: GhostBytes,
}

impl Model for Took {
    ghost use Rattle.std.specs.Prelude.{None};
    ghost use Rattle.door.specs.Ends.{Writing};

    ghost Value = { Writing };

    ghost view = { λ t. record { app = t.app; took = t.took.bytes; holds = None } };
}

impl Took {
    /// Nothing was written yet.
    pub(crate) fn nothing(app: u64) -> Took
        ensures { result ≡ record { app = app; took = []; holds = None } }
    {
        Took {
            app,
            took: GhostBytes::new(),
        }
    }

    /// These were written too.
    pub fn note(&mut self, bytes: &[u8])
        ensures { TookBytes self.old self.new bytes.now }
    {
        self.took.push(bytes);
    }
}
