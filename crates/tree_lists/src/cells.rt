// '$skip_list'/3.
ghost use Rattle.std.specs.Prelude.{◌≡◌, [], ◌∷◌, IfOk};
ghost use Rattle.term_core.specs.Tree.{Tree};
ghost use Rattle.builtin_table.specs.Primitives.{skip_list as skip_list_of};
ghost use Rattle.tree_results.specs.Outcomes.{outcome_of};

use std::alloc::Global;
use term_core::{List, Memory, Term};
use tree_results::{Outcome, list_parts, one};

/// What '$skip_list'(L, K, T) gives, whatever K and T are.
pub fn skip_list(alloc: Global, list: &Term) -> Result<Outcome, Memory>
    ensures { IfOk result (λ o. (k t : Tree) → outcome_of (list.now ∷ k ∷ t ∷ []) o
        ≡ skip_list_of list.now k t) }
{
    let (elements, rest) = list_parts(alloc, list)?;
    let found = Term::int(alloc, elements.len() as i128)?;
    let mut pairs = List::new(alloc);
    pairs.push((1, found))?;
    pairs.push((2, rest))?;
    Ok(one(pairs, 0))
}
