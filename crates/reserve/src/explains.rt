//! What a keeper can report of a failure.

ghost use Rattle.std.specs.Prelude.{◌≡◌};
ghost use Rattle.keep.specs.Keeping.{Counted, Stays};

use keep::{Keep, ListKeep};
use keep_sql::SqlKeep;
use sqlite::{Alter, Error};

/// A keeper that can report more of a failure than that there was one.
pub trait Explains: Keep {
    /// Why its device refused something last, where it knows that.
    fn cause(&self) -> Option<Error>;

    /// Whether each later call fails by the device.
    fn is_shut(&mut self) -> bool
        ensures same { Stays Self.Keep.terms self.old self.new }
        ensures counts { Counted Self.Keep.terms self.old self.new 0 0 }
        ensures failures { Self.Keep.terms.failures self.new ≡ Self.Keep.terms.failures self.old };
}

impl Explains for ListKeep {
    fn cause(&self) -> Option<Error> {
        None
    }

    fn is_shut(&mut self) -> bool {
        false
    }
}

impl<S: Alter + Drop> Explains for SqlKeep<S> {
    fn cause(&self) -> Option<Error> {
        SqlKeep::cause(self)
    }

    fn is_shut(&mut self) -> bool {
        SqlKeep::is_shut(self)
    }
}
