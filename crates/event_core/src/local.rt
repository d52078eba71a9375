use term_core::{List, Term};

/// How a query ends that nobody replies to.
#[derive(Debug, Drop)]
pub enum End {
    /// There is no answer after the last one.
    NoMore,
    /// It has no answer.
    Failure,
    /// A ball that nothing caught, or the refusal of its goal.
    Ball(Term),
    /// It has made its limit of steps.
    Limit,
    /// It waits for a reply to this term, and gets none.
    Prompt(Term),
    /// Want of memory.
    Memory,
}

/// What a query comes to: all its answers, in order, and how it ends.
#[derive(Debug, Drop)]
pub struct Answers {
    pub answers: List<Term>,
    pub end: End,
}
