ghost use Rattle.std.specs.Prelude.{◌≡◌, map, length, true, IfOk};
ghost use Rattle.std.specs.List.{All};
ghost use Rattle.builtin_table.specs.Primitives.{primitive};
ghost use Rattle.store.specs.Cells.{IsCell, tree_of};
ghost use Rattle.tree_offers.specs.Outcomes.{outcome_of, OutcomeHasPlaces};
ghost use Rattle.prims_text.specs.Rows.{is_row};

use std::alloc::Global;
use store::{Cell, Store};
use term_core::{Memory, Pi};
use tree_offers::Outcome;

/// What the primitive of this indicator, one of `is_row`, gives for as many arguments.
///
/// The results are those of the definition over the terms that the cells stand for, in order. They are found
/// when they are asked for, and the store stays as it is. `Memory` also comes where an argument or a term of
/// an error has more than `term_core::MAX_NODES` nodes.
pub fn call(alloc: Global, store: &mut Store, pi: &Pi, args: &[Cell]) -> Result<Outcome, Memory>
    requires cells { All (IsCell store.old) args.now }
    requires row { is_row pi.now.name pi.now.arity ≡ true }
    requires count { length args.now ≡ pi.now.arity }
    ensures outcome { IfOk result (λ o. outcome_of (map (tree_of store.old) args.now) o
        ≡ primitive pi.now.name (map (tree_of store.old) args.now) store.old.next) }
    ensures places { IfOk result (OutcomeHasPlaces (length args.now)) }
    ensures store { store.new ≡ store.old }
{
    let _arity = pi.arity;
    tree_offers::call(alloc, store, pi.name.as_str(), args)
}
