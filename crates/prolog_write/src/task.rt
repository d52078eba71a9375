// What a term's writer still has to do.

use crate::lexeme::Lexeme;
use crate::place::Place;

// What the next node begins.
#[derive(Clone, Copy, Debug, Drop)]
pub(crate) enum Want {
    // A term at this place.
    Term(Place),
    // What a list has behind an element.
    Rest,
}

#[derive(Clone, Copy, Debug, Drop)]
pub(crate) enum Task<'a> {
    Write(Lexeme<'a>),
    Take(Want),
    // So many arguments behind others, and the closing bracket.
    Arguments(u32),
}
