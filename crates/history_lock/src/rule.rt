// The rule of the lock's table, and what each of its steps tells the pass that makes it.
use crate::view::View;
use atomic_table::{Join, Play, Split, TableRule};
use std::marker::PhantomData;

/// A value with a list of entries that only grows.
pub trait History {
    ghost use Rattle.std.specs.Prelude.{◌≡◌, ℕ, List, length};

    type Entry;

    ghost history: { Self → List Self.Entry };

    // behind these entries this entry closes that position
    ghost closes: { List Self.Entry → Self.Entry → ℕ → Type 0 };

    /// How many entries the history has.
    fn entries(&self) -> u64
        ensures { result ≡ length (history self.now) };
}

/// The rule: tickets are served in turn, and the value's history grows in the hands of the one who is served.
pub struct Tickets<T>(PhantomData<T>);

impl<T: History> TableRule<Option<T>, View<T::Entry>, u64> for Tickets<T> {
    ghost use Rattle.std.specs.Prelude.{[], ◌+◌};
    ghost use Rattle.history_lock.specs.Rule.{Kept};
    ghost use Rattle.history_lock.specs.Views.{view};
    ghost use Rattle.history_lock.specs.declared.view.Stage.TheVariants.{Idle};

    ghost holds = { λ seats. Kept T.history T.closes (seats + 1) };

    ghost first = { λ seats. view [] [] Idle seats };
}

/// Drawing a ticket.
pub struct Draws<T>(PhantomData<T>);

impl<T: History> Play<Option<T>, View<T::Entry>> for Draws<T> {
    ghost use Rattle.history_lock.specs.Rule.{Draws as Drawn};

    ghost then = { Drawn T.history T.closes };
}

/// Looking which ticket is served; the one whose it is takes the value.
pub struct Looks<T>(PhantomData<T>);

impl<T: History> Play<Option<T>, View<T::Entry>> for Looks<T> {
    ghost use Rattle.history_lock.specs.Rule.{Looks as Looked};

    ghost then = { Looked T.history T.closes };
}

/// Counting the entries that were added.
pub struct Adds<T>(PhantomData<T>);

impl<T: History> Play<Option<T>, View<T::Entry>> for Adds<T> {
    ghost use Rattle.history_lock.specs.Rule.{Adds as Added};

    ghost then = { Added T.history T.closes };
}

/// Letting the next one in.
pub struct Leaves<T>(PhantomData<T>);

impl<T: History> Play<Option<T>, View<T::Entry>> for Leaves<T> {
    ghost use Rattle.history_lock.specs.Rule.{Leaves as Left};

    ghost then = { Left T.history T.closes };
}

/// Splitting a pass off, and joining one to another.
pub struct Seats;

impl<E> Split<View<E>> for Seats {
    ghost use Rattle.history_lock.specs.Views.{one_less, newcomer};

    ghost left = { one_less };

    ghost right = { newcomer };
}

impl<E> Join<View<E>> for Seats {
    ghost use Rattle.history_lock.specs.Views.{joined, spent as spent_view};

    ghost both = { joined };

    ghost spent = { spent_view };
}
