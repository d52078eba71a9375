// Terms in the order of their keys.
ghost use Rattle.std.specs.Prelude.{◌≡◌, IfOk};
ghost use Rattle.builtin_table.specs.Sorting.{key_of as key_of_tree};
ghost use Rattle.tree_lists.specs.Keys.{keyed};

use std::alloc::Global;
use std::cmp::Ordering;
use term_core::{Memory, Term};

// A term that is compared by its key alone.
#[derive(Debug, Drop)]
pub(crate) struct Keyed {
    pub(crate) key: Term,
    pub(crate) term: Term,
}

// The key of a pair, or the term itself.
fn key_of(alloc: Global, term: &Term) -> Result<Term, Memory>
    ensures { IfOk result (λ t. t ≡ key_of_tree term.now) }
{
    let arguments = term.arguments(alloc)?;
    match arguments.as_slice() {
        [key, ..] => key.copied(alloc),
        [] => term.copied(alloc),
    }
}

impl Keyed {
    pub(crate) fn of(alloc: Global, term: &Term) -> Result<Keyed, Memory>
        ensures { IfOk result (λ k. k ≡ keyed term.now) }
    {
        Ok(Keyed {
            key: key_of(alloc, term)?,
            term: term.copied(alloc)?,
        })
    }
}

impl PartialEq for Keyed {
    ghost use Rattle.std.specs.Cmp.{partial_equiv_from_equiv};
    ghost use Rattle.std.specs.Ordering.{eq_by_cmp};
    ghost use Rattle.std.proofs.lemmas.Cmp.{eq_by_cmp_equiv};
    ghost use Rattle.tree_lists.specs.Keys.{keyed_cmp, keyed_cmp_total};

    ghost eq = { eq_by_cmp keyed_cmp };

    ghost laws = { partial_equiv_from_equiv (eq_by_cmp_equiv keyed_cmp_total) };

    fn eq(&self, other: &Keyed) -> bool {
        Term::cmp(&self.key, &other.key).is_eq()
    }
}

impl Eq for Keyed {
    ghost use Rattle.std.proofs.lemmas.Cmp.{eq_by_cmp_equiv};
    ghost use Rattle.tree_lists.specs.Keys.{keyed_cmp_total};

    ghost laws = { eq_by_cmp_equiv keyed_cmp_total };
}

impl PartialOrd for Keyed {
    ghost use Rattle.std.specs.Cmp.{partial_order_from_total};
    ghost use Rattle.std.specs.Ordering.{as_partial_cmp};
    ghost use Rattle.tree_lists.specs.Keys.{keyed_cmp, keyed_cmp_total};

    ghost partial_cmp = { as_partial_cmp keyed_cmp };

    ghost laws = { partial_order_from_total keyed_cmp_total };

    fn partial_cmp(&self, other: &Keyed) -> Option<Ordering> {
        Some(Term::cmp(&self.key, &other.key))
    }
}

impl Ord for Keyed {
    ghost use Rattle.std.specs.Prelude.{refl};
    ghost use Rattle.tree_lists.specs.Keys.{keyed_cmp, keyed_cmp_total};

    ghost cmp = { keyed_cmp };

    ghost total = { keyed_cmp_total };

    ghost matches_partial_cmp = { λ _ _. refl };

    ghost matches_eq = { λ _ _. refl };

    fn cmp(&self, other: &Keyed) -> Ordering {
        Term::cmp(&self.key, &other.key)
    }
}
