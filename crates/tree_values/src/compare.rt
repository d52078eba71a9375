// Comparison of the values of expressions, and is/2 (ISO/IEC 13211-1, 8.6 and 8.7).
ghost use Rattle.std.specs.Prelude.{◌≡◌, [], ◌∷◌, List as list, IfOk};
ghost use Rattle.term_core.specs.Tree.{Tree};
ghost use Rattle.builtin_table.specs.Arithmetic.{value_of};
ghost use Rattle.builtin_table.specs.Primitives.{compared as compared_of, assigned};
ghost use Rattle.tree_results.specs.Outcomes.{outcome_of};

use crate::values::{Value, evaluate};
use builtin_table::Relation;
use std::alloc::Global;
use term_core::{Memory, Term};
use tree_results::{Outcome, ball, tested, unifies};

/// What a comparison of this name of the values of two expressions gives.
pub fn compare_values(
    alloc: Global,
    name: &str,
    relation: Relation,
    first: &Term,
    second: &Term,
) -> Result<Outcome, Memory>
    ensures { IfOk result (λ o. (ts : list Tree) → outcome_of ts o
        ≡ compared_of name.now relation (value_of first.now) (value_of second.now)) }
{
    let first = evaluate(alloc, first)?;
    let second = evaluate(alloc, second)?;
    let outcome = compared(alloc, name, relation, first, second)?;
    Ok(outcome)
}

// Of two faults the first expression's goes first.
fn compared(
    alloc: Global,
    name: &str,
    relation: Relation,
    first: Value,
    second: Value,
) -> Result<Outcome, Memory>
    ensures { IfOk result (λ o. (ts : list Tree) → outcome_of ts o
        ≡ compared_of name.now relation first second) }
{
    match (first, second) {
        (Ok(first), Ok(second)) => Ok(tested(alloc, relation.holds(first.cmp(&second)))),
        (Ok(_), Err(fault)) => {
            let outcome = ball(alloc, name, 2, fault)?;
            Ok(outcome)
        }
        (Err(fault), _) => {
            let outcome = ball(alloc, name, 2, fault)?;
            Ok(outcome)
        }
    }
}

/// What T is E gives, whatever T is.
pub fn assign(alloc: Global, expression: &Term) -> Result<Outcome, Memory>
    ensures { IfOk result (λ o. (t : Tree) → outcome_of (t ∷ expression.now ∷ []) o
        ≡ assigned t (value_of expression.now)) }
{
    match evaluate(alloc, expression)? {
        Ok(value) => {
            let value = Term::int(alloc, value)?;
            let outcome = unifies(alloc, 0, value)?;
            Ok(outcome)
        }
        Err(fault) => {
            let outcome = ball(alloc, "is", 2, fault)?;
            Ok(outcome)
        }
    }
}
