// What the sandbox finds in a text: literals, and the places where goals stand.
use term_core::{Pi, Term};

// How an argument of a literal is read.
#[derive(Clone, Copy, Debug, Drop, PartialEq, Eq)]
pub(crate) enum Kind {
    // no goal
    Plain,
    // a part of the body that holds it
    Part,
    // a goal to which so many arguments are added
    Adds(u32),
    // a goal that may stand behind `^`
    Behind,
}

// What stands at a goal position.
#[derive(Debug, Drop)]
pub(crate) enum Stands {
    // a body, which is opened
    Opens,
    // a variable
    Unbound,
    // a term that is no body
    Shut(Term),
}

#[derive(Debug, Drop)]
pub(crate) enum Found {
    Literal(Pi),
    // a goal position, with the literal that holds it; none holds the goal itself
    Place(Option<Pi>, Stands),
}
