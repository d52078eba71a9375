use term_core::{List, Pi, Term};

/// What a query gives, as far as it went.
#[derive(Debug, Drop)]
pub struct Trace {
    /// The answers, outputs and prompts in order, each with the number of steps made before it.
    pub marks: List<(u64, TraceMark)>,
    /// How many steps were made, at most the limit.
    pub steps: u64,
    /// How many replies were taken, from the first on.
    pub replies_used: u64,
    /// How the query ended.
    pub end: TraceEnd,
}

/// What a query shows on its way.
#[derive(Debug, Drop)]
pub enum TraceMark {
    /// An answer.
    Answer {
        /// The template under the answer's substitution.
        term: Term,
        /// Whether an alternative is left, which may still fail.
        more: bool,
    },
    /// A term that the query puts out.
    Output(Term),
    /// A term with which the query asks for a reply.
    Prompt(Term),
}

/// How a query ends.
#[derive(Debug, Drop)]
pub enum TraceEnd {
    /// No alternative is left.
    Failed,
    /// A ball was thrown that no catch took; its variables are numbered from 0 by first occurrence.
    Thrown(Term),
    /// It asked for a reply, and none was left.
    Waits,
    /// It has made all its steps, and one more was to be made.
    Spent,
    /// It called this predicate, which reaches outside.
    Outside(Pi),
}
