use store::Cell;
use term_core::{Name, Term};

// A term for which a cell is to be made.
#[derive(Debug, Drop)]
pub(crate) enum What {
    // This cell's term.
    Cell(Cell),
    Int(i128),
    Atom(Name),
    // A compound of so many new variables.
    New(Name, u32),
    // A compound of these cells' terms.
    Compound(Name, Vec<Cell>),
    // The list of a compound's name and arguments, or of the term alone.
    Parts(Cell),
    // A copy with new variables.
    Copy(Cell),
    // The list of the term's variables.
    Variables(Cell),
}

// What a primitive gives, before cells are made for it.
#[derive(Debug, Drop)]
pub(crate) enum Plan {
    // No result.
    Fails,
    // One result, for which nothing is to be unified.
    Passes,
    // One result, in which the argument of this place is this term.
    Equal(u32, What),
    // One result, in which the second argument is the name of this cell's term, and the third its arity.
    Symbol(Cell),
    // One result, in which the third argument is the first of these, and the fourth the second.
    Divided(i128, i128),
    // An error.
    Ball(Term),
}
