ghost use Rattle.std.specs.Prelude.{◌≤◌};
ghost use Rattle.term_core.specs.Variables.{first_free};

use term_core::Term;

/// A clause of a program (ISO 13211-1, 3.32), whose variables are numbered from 0.
#[derive(Debug, Drop)]
pub struct Clause {
    /// The head: an atom or a compound.
    pub head: Term,
    /// The body; a fact's is the atom `true`.
    pub body: Term,
    /// How many variables the clause has; each one's number is less.
    pub vars: u64,
    /// Whether it stands in the client's text; otherwise it is the library's.
    pub own: bool,
    pub ghost head_below: { first_free head ≤ vars },
    pub ghost body_below: { first_free body ≤ vars },
}
