//! Numbers that look as if they came in no order, and are the same each time.

ghost use Rattle.std.specs.Prelude.{◌<◌};

/// A linear congruence.
#[derive(Drop)]
pub(super) struct Numbers {
    last: u64,
}

impl Numbers {
    pub(super) fn new(first: u64) -> Numbers {
        Numbers { last: first }
    }

    /// The next number, below this one.
    pub(super) fn next(&mut self, below: u64) -> u64
        requires { 0 < below }
        ensures { result < below }
    {
        self.last = self
            .last
            .wrapping_mul(6_364_136_223_846_793_005)
            .wrapping_add(1_442_695_040_888_963_407);
        (self.last >> 33) % below
    }
}
