use crate::list::List;
use crate::name::Name;
use crate::term::Term;

/// A term that was read from a text, with the names that its variables had there.
#[derive(Debug, Drop)]
pub struct ReadTerm {
    /// The term, whose variables are numbered from 0 by first occurrence.
    pub term: Term,
    /// The names of the variables and their numbers, by first occurrence; `_` has none.
    pub names: List<(Name, u64)>,
}
