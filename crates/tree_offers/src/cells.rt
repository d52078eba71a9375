// Cells for the pairs of a result.
ghost use Rattle.std.specs.Prelude.{IfOk};
ghost use Rattle.store.specs.Cells.{Keeps};
ghost use Rattle.tree_offers.specs.Results.{Offered};

use std::alloc::Global;
use store::{Offer, Store};
use term_core::{List, Memory, Term};

// Cells for the terms of these pairs, one after the other, with the arguments' places.
pub(crate) fn offered(
    alloc: Global,
    store: &mut Store,
    pairs: &[(u32, Term)],
) -> Result<Offer, Memory>
    ensures offered { IfOk result (λ o. Offered store.old store.new pairs.now o.pairs) }
    ensures keeps { Keeps store.old store.new }
{
    let mut offered = List::new(alloc);
    for pair in pairs {
        let cell = store.put(&pair.1, 0)?;
        offered.push((pair.0, cell))?;
    }
    Ok(Offer { pairs: offered })
}
