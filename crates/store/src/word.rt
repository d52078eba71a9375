// A term's outermost symbol in 64 bits, with the place of its arguments.
ghost use Rattle.std.specs.Prelude.{◌≡◌, ◌<◌, ◌≤◌, ◌^◌, ◌+◌, pos, ◌≤ℤ◌, ◌<ℤ◌, neg_ℤ};
ghost use Rattle.store.specs.Words.{shape_of, is_closed_shape, first_of_shape};

/// The greatest number of words, and so of cells.
pub const MAX_CELLS: usize = 1 << 28;

/// The greatest number of different names.
pub(crate) const MAX_NAMES: u64 = 1 << 23;

/// One above the greatest number of a variable.
pub(crate) const MAX_VARIABLES: u64 = 1 << 60;

/// What a word says. A name or a large integer is a place in a table.
#[derive(Clone, Copy, Debug, Drop)]
pub(crate) enum Shape {
    Var(u64),
    Int(i128),
    Large(u64),
    Atom(u64),
    Comp {
        name: u64,
        count: u32,
        // The place of the first argument; the others follow it.
        first: u64,
        // The term has no variable.
        closed: bool,
    },
}

// From the lowest bit: two bits for the kind, and then
// - of a small integer its distance from -2^61;
// - of a variable its number;
// - of an atom or a large integer one bit to tell which, and the place in its table;
// - of a compound one bit for closed, ten for the arguments less one, 23 for the name, 28 for the first argument.
#[derive(Clone, Copy, Debug, Drop)]
pub(crate) struct Word {
    bits: u64,
}

impl Word {
    pub(crate) fn var(number: u64) -> Word
        requires { number < MAX_VARIABLES }
        ensures { shape_of result ≡ Shape.Var number }
    {
        Word {
            bits: 4 * number + 1,
        }
    }

    pub(crate) fn small(value: i128) -> Word
        requires low { neg_ℤ (pos (2 ^ 61)) ≤ℤ value }
        requires high { value <ℤ pos (2 ^ 61) }
        ensures { shape_of result ≡ Shape.Int value }
    {
        Word {
            bits: 4 * (value + (1 << 61)) as u64,
        }
    }

    pub(crate) fn large(at: u64) -> Word
        requires { at < 2 ^ 60 }
        ensures { shape_of result ≡ Shape.Large at }
    {
        Word { bits: 8 * at + 6 }
    }

    pub(crate) fn atom(name: u64) -> Word
        requires { name < MAX_NAMES }
        ensures { shape_of result ≡ Shape.Atom name }
    {
        Word { bits: 8 * name + 2 }
    }

    pub(crate) fn comp(name: u64, count: u32, first: u64, closed: bool) -> Word
        requires name { name < MAX_NAMES }
        requires some { 1 ≤ count }
        requires few { count ≤ 1024 }
        requires first { first < MAX_CELLS }
        ensures { shape_of result ≡ Shape.Comp name count first closed }
    {
        let count = u64::from(count - 1);
        let bits = 3 + 4 * u64::from(closed) + 8 * count + 8192 * name + 68719476736 * first;
        Word { bits }
    }

    /// Whether the term is known to have no variable.
    pub(crate) fn is_closed(self) -> bool
        ensures { result ≡ is_closed_shape (shape_of self) }
    {
        match self.shape() {
            Shape::Var(_) => false,
            Shape::Int(_) | Shape::Large(_) | Shape::Atom(_) => true,
            Shape::Comp { closed, .. } => closed,
        }
    }

    /// What the word says.
    pub(crate) fn shape(self) -> Shape
        ensures shape { result ≡ shape_of self }
        ensures place { first_of_shape result < 2 ^ 28 }
    {
        let kind = self.bits % 4;
        let rest = self.bits / 4;
        if kind == 0 {
            return Shape::Int(i128::from(rest) - (1 << 61));
        }
        if kind == 1 {
            return Shape::Var(rest);
        }
        if kind == 2 {
            if rest % 2 == 0 {
                return Shape::Atom(rest / 2);
            }
            return Shape::Large(rest / 2);
        }
        Shape::Comp {
            name: self.bits / 8192 % (1 << 23),
            count: (self.bits / 8 % 1024) as u32 + 1,
            first: self.bits / 68719476736,
            closed: rest % 2 == 1,
        }
    }
}
