use std::marker::Model;

/// A place in a store, which stands for a term. Contracts see it as a number.
///
/// A cell is of one store, and stands for the same term there as long as no variable in it is bound.
#[derive(Clone, Copy, Debug, Drop)]
pub struct Cell {
    place: u32,
}

impl Model for Cell {
    ghost use Rattle.std.specs.Prelude.{ℕ};

    ghost Value = { ℕ };

    ghost view = { λ c. c.place };

    ghost inverse = { λ n. record { place = n } };
}

impl Cell {
    ghost use Rattle.std.specs.Prelude.{◌≡◌};

    pub(crate) fn at(place: u32) -> Cell
        ensures { result ≡ place }
    {
        Cell { place }
    }

    pub(crate) fn place(self) -> u32
        ensures { result ≡ self }
    {
        self.place
    }
}
