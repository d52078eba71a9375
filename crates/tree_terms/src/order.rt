// compare/3 (ISO/IEC 13211-1, Cor.2, 8.4.2).
ghost use Rattle.std.specs.Prelude.{◌≡◌, [], ◌∷◌, IfOk};
ghost use Rattle.term_core.specs.Tree.{Tree, atom};
ghost use Rattle.term_core.specs.Order.{tree_cmp};
ghost use Rattle.builtin_table.specs.Primitives.{compares, unifies as unifies_of, order_name as order_name_of, is_order_name as is_order_name_of};
ghost use Rattle.tree_results.specs.Outcomes.{outcome_of};

use builtin_table::{domain_error, type_error};
use std::alloc::Global;
use std::cmp::Ordering;
use term_core::{Memory, Node, Term};
use tree_results::{Outcome, ball, unifies};

/// What compare(O, T, U) gives.
pub fn compare(alloc: Global, order: &Term, first: &Term, second: &Term) -> Result<Outcome, Memory>
    ensures { IfOk result (λ o. outcome_of (order.now ∷ first.now ∷ second.now ∷ []) o
        ≡ compares order.now (tree_cmp first.now second.now)) }
{
    match order.symbol() {
        Node::Var(_) => {
            let outcome = is_order(alloc, Term::cmp(first, second))?;
            Ok(outcome)
        }
        Node::Atom(name) => {
            if !is_order_name(name.as_str()) {
                let formal = domain_error(alloc, "order", order.copied(alloc)?)?;
                let outcome = ball(alloc, "compare", 3, formal)?;
                return Ok(outcome);
            }
            let outcome = is_order(alloc, Term::cmp(first, second))?;
            Ok(outcome)
        }
        Node::Int(_) | Node::Comp(_, _) => {
            let formal = type_error(alloc, "atom", order.copied(alloc)?)?;
            let outcome = ball(alloc, "compare", 3, formal)?;
            Ok(outcome)
        }
    }
}

// The first argument is the name of this order.
fn is_order(alloc: Global, found: Ordering) -> Result<Outcome, Memory>
    ensures { IfOk result (λ o. (r t u : Tree) →
        outcome_of (r ∷ t ∷ u ∷ []) o ≡ unifies_of r (atom (order_name_of found))) }
{
    let name = Term::atom(alloc, order_name(found))?;
    unifies(alloc, 0, name)
}

fn order_name(found: Ordering) -> &'static str
    ensures { result.now ≡ order_name_of found }
{
    match found {
        Ordering::Less => "<",
        Ordering::Equal => "=",
        Ordering::Greater => ">",
    }
}

fn is_order_name(name: &str) -> bool
    ensures { result ≡ is_order_name_of name.now }
{
    name == "<" || name == "=" || name == ">"
}
