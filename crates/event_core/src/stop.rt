use term_core::{Pi, Term};

/// Where a query halts and has something to tell. In each term the variables are numbered from 0.
#[derive(Debug, Drop)]
pub enum Stop {
    /// An answer, as an instance of the template, and whether an alternative is left.
    Found(Term, bool),
    /// A term that the query puts out.
    Output(Term),
    /// A term with which the query asks for a reply.
    Prompt(Term),
    /// There is no further answer.
    NoMore,
    /// A ball that nothing caught.
    Ball(Term),
    /// The limit of steps is made, and a further one is to be made.
    Limit,
    /// The query called this predicate, which reaches outside.
    Outside(Pi),
}
