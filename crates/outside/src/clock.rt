// What time it is.
ghost use Rattle.std.specs.Prelude.{ℕ, List, Option};
ghost use Rattle.outside.specs.Times.{Shows};

/// A clock in milliseconds. It has no faults.
///
/// A clock may tell the times to come. Where it does, a call shows the first of them and leaves the
/// others; the last one stays, and a clock without times shows 0.
pub trait Clock {
    /// The times to come, where they are told.
    ghost ahead: { Self → Option (List ℕ) };

    /// The time.
    fn now(&mut self) -> u64
        ensures { Shows (ahead self.old) (ahead self.new) result };
}
