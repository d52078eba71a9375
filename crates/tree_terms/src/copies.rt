// Copies and variables of terms (ISO/IEC 13211-1, 8.5.4 and 8.5.5).
ghost use Rattle.std.specs.Prelude.{◌≡◌, ◌∷◌, [], map, length, IfOk};
ghost use Rattle.term_core.specs.Tree.{Tree, variable};
ghost use Rattle.term_core.specs.Variables.{variables};
ghost use Rattle.builtin_table.specs.Primitives.{copy, offer, unifies as unifies_of};
ghost use Rattle.builtin_table.specs.Lists.{list_of as list_of_trees};
ghost use Rattle.tree_results.specs.Outcomes.{outcome_of};

use std::alloc::Global;
use term_core::{List, Memory, Term};
use tree_results::{Outcome, further, list_of, one, unifies, variable_terms};

/// What copy_term(T, C) gives, whatever C is; `Memory` also where no number is left for a variable.
pub fn copy_term(alloc: Global, term: &Term, next: u64) -> Result<Outcome, Memory>
    ensures { IfOk result (λ o. (u : Tree) → outcome_of (term.now ∷ u ∷ []) o
        ≡ offer ((u, copy next term.now) ∷ []) (length (variables term.now))) }
{
    let fresh = term.variables(alloc)?.len() as u64;
    further(next, fresh)?;
    let numbered = term.numbered(alloc)?;
    let copied = numbered.rename(alloc, next)?;
    let mut pairs = List::new(alloc);
    pairs.push((1, copied))?;
    Ok(one(pairs, fresh))
}

/// What term_variables(T, L) gives, whatever L is.
pub fn term_variables(alloc: Global, term: &Term) -> Result<Outcome, Memory>
    ensures { IfOk result (λ o. (l : Tree) → outcome_of (term.now ∷ l ∷ []) o
        ≡ unifies_of l (list_of_trees (map variable (variables term.now)))) }
{
    let numbers = term.variables(alloc)?;
    let variables = variable_terms(alloc, &numbers)?;
    let outcome = unifies(alloc, 1, list_of(alloc, &variables)?)?;
    Ok(outcome)
}
