// The predicates that heads and goals are of.
ghost use Rattle.std.specs.Prelude.{◌≡◌, ◌&&◌, ◌==◌, IfOk};
ghost use Rattle.program.specs.Bodies.{is_connective as is_connective_name};
ghost use Rattle.program.specs.Clauses.{indicator_of};

use program::is_connective;
use std::alloc::Global;
use term_core::{Memory, Node, Pi, Term};

// The predicate that a head or a goal is of; a variable and an integer are of none.
pub(crate) fn indicator(alloc: Global, term: &Term) -> Result<Option<Pi>, Memory>
    ensures { IfOk result (λ pi. pi ≡ indicator_of term.now) }
{
    match term.symbol() {
        Node::Var(_) | Node::Int(_) => Ok(None),
        Node::Atom(name) => Ok(Some(Pi {
            name: name.copied(alloc)?,
            arity: 0,
        })),
        Node::Comp(name, count) => Ok(Some(Pi {
            name: name.copied(alloc)?,
            arity: *count,
        })),
    }
}

// Whether the predicate is `,`, `;` or `->` of two arguments, which are parts of the body that holds it.
pub(crate) fn has_parts(pi: &Pi) -> bool
    ensures { result ≡ (is_connective_name pi.now.name && pi.now.arity == 2) }
{
    is_connective(&pi.name) && pi.arity == 2
}
