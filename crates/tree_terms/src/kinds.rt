// The tests of a term's kind (ISO/IEC 13211-1, 8.3).
ghost use Rattle.std.specs.Prelude.{◌≡◌, [], ◌∷◌, List as list, IfOk};
ghost use Rattle.term_core.specs.Tree.{Tree};
ghost use Rattle.builtin_table.specs.Primitives.{is_ground as is_ground_tree, of_one as of_one_tree};
ghost use Rattle.tree_results.specs.Outcomes.{outcome_of};

use std::alloc::Global;
use term_core::{Memory, Node, Term};
use tree_results::{
    Outcome, is_atom, is_compound, is_integer, is_list, is_variable, tested, unknown,
};

// Whether no variable occurs.
fn is_ground(term: &Term) -> bool
    ensures { result ≡ is_ground_tree term.now }
{
    for node in term.nodes() {
        if let Node::Var(_) = node {
            return false;
        }
    }
    true
}

/// What the primitive of this name and one argument gives.
#[tactic(auto, unfolding(builtin_table::specs::Primitives::of_one))]
pub fn of_one(alloc: Global, name: &str, term: &Term) -> Result<Outcome, Memory>
    ensures { IfOk result (λ o. (ts : list Tree) → outcome_of ts o ≡ of_one_tree name.now term.now) }
{
    match name {
        "var" => Ok(tested(alloc, is_variable(term))),
        "nonvar" => Ok(tested(alloc, !is_variable(term))),
        "atom" => Ok(tested(alloc, is_atom(term))),
        "integer" | "number" => Ok(tested(alloc, is_integer(term))),
        "atomic" => Ok(tested(alloc, is_atom(term) || is_integer(term))),
        "compound" => Ok(tested(alloc, is_compound(term))),
        "callable" => Ok(tested(alloc, is_atom(term) || is_compound(term))),
        "is_list" => Ok(tested(alloc, is_list(alloc, term)?)),
        "ground" => Ok(tested(alloc, is_ground(term))),
        _ => Ok(unknown()),
    }
}
