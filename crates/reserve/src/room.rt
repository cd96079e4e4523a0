//! What sets room on a disk aside.

ghost use Rattle.std.specs.Prelude.{◌≡◌, Bool, false};

/// Room on a disk, which is set aside or given up.
pub trait SpareRoom: Drop {
    /// Whether it is set aside, as far as this knows.
    ghost is_whole: { Self → Bool };

    /// Sets the room aside, where it isn't, and returns whether it is.
    fn fill(&mut self) -> bool
        ensures { result ≡ is_whole self.new };

    /// Gives the room to whatever is written next, and returns whether there was any.
    fn give_up(&mut self) -> bool
        ensures had { result ≡ is_whole self.old }
        ensures gone { is_whole self.new ≡ false };
}
