// Where wires come from.
ghost use Rattle.std.specs.Prelude.{◌≡◌, ◌≤◌, ℕ, List, Option, ⊤};
ghost use Rattle.outside.specs.declared.door.Accepted.{Accepted};
ghost use Rattle.outside.specs.Door.{Admits, IsOut, CountsAccept, Gains, Stays};

use crate::Wire;

/// What an accept answers.
pub enum Accepted<W> {
    /// A wire, which is handed back by [`Door::close`].
    Wire(W),
    /// No wire is to come.
    Closed,
    /// The accept failed: the count of faults rose in it, and no wire was lost.
    Failed,
}

/// Where wires come from, one after the other, and where they are handed back.
///
/// A door may tell the wires still to come and those handed back. It counts its faults. The count never
/// falls, and an accept answers [`Accepted::Failed`] only where it rose, as at a
/// [`Source`](crate::Source).
pub trait Door {
    type Wire: Wire;

    /// The wires still to come, in order, where they are told.
    ghost coming: { Self → Option (List Self.Wire) };

    /// The wires handed back, in order and as they then were, where they are told.
    ghost returned: { Self → Option (List Self.Wire) };

    /// How many wires that an accept gave are still out.
    ghost out: { Self → ℕ };

    /// How often it has failed.
    ghost faults: { Self → ℕ };

    /// What else an accept does. An implementation may say more of its accepts here.
    ghost accepts: { Self → Accepted Self.Wire → Self → Type 0 } = { λ _ _ _. ⊤ };

    /// What else a closing does. An implementation may say more of it here.
    ghost closes: { Self → Self → Type 0 } = { λ _ _. ⊤ };

    /// The next wire: the first of those to come, where they are told.
    ///
    /// `Closed` comes only where none is to come, where that is told. Else both lists stay as they were.
    fn accept(&mut self) -> Accepted<Self::Wire>
        ensures wires { Admits (coming self.old) (coming self.new) result }
        ensures handed { Stays (returned self.old) (returned self.new) }
        ensures out { IsOut result (out self.new) }
        ensures cause { CountsAccept (faults self.old) (faults self.new) result }
        ensures step { accepts self.old result self.new };

    /// Takes a wire back, and puts it at the end of those handed back. A wire that an accept gave is
    /// still out.
    fn close(&mut self, wire: Self::Wire)
        requires { 1 ≤ out self.old }
        ensures wires { Stays (coming self.old) (coming self.new) }
        ensures handed { Gains (returned self.old) (returned self.new) wire }
        ensures count { faults self.new ≡ faults self.old }
        ensures step { closes self.old self.new };
}
