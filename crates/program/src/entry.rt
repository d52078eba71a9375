ghost use Rattle.std.specs.Prelude.{IsTrue};
ghost use Rattle.program.specs.Clauses.{is_for};

use crate::clause::Clause;
use term_core::Pi;

// A clause and the predicate that it is of.
#[derive(Drop)]
pub(crate) struct Entry {
    pub(crate) pi: Pi,
    pub(crate) clause: Clause,
    ghost is_of: { IsTrue (is_for pi clause.head) },
}
