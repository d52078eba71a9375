// The results that are left, with cells made for each when it is asked for.
ghost use Rattle.std.specs.Prelude.{◌≡◌, [], IfOk, OnErr, MatchOption};
ghost use Rattle.store.specs.Cells.{Keeps};
ghost use Rattle.tree_offers.specs.Results.{IsNext};

use crate::cells::offered;
use prims_tree::{PlacedOffers, find_first};
use std::alloc::Global;
use std::marker::Model;
use store::{Offer, Store};
use term_core::Memory;

/// The results that are left, which contracts see as their list: of each pair an argument's place, from 0,
/// and the term that the argument is unified with.
#[derive(Debug, Drop)]
pub struct Offers {
    // the next result, where it was asked for and there was no memory for its cells
    ahead: Option<tree_results::Offer>,
    later: PlacedOffers,
    alloc: Global,
}

impl Model for Offers {
    ghost use Rattle.std.specs.Prelude.{List as list};
    ghost use Rattle.tree_results.specs.Placed.{Result as result, coded_results};
    ghost use Rattle.prims_tree.specs.Views.{with_ahead};

    ghost Value = { list result };

    ghost coded = { coded_results };

    ghost view = { λ o. with_ahead o.ahead o.later };
}

impl Offers {
    /// These results.
    pub fn new(alloc: Global, results: PlacedOffers) -> Offers
        ensures { result ≡ results }
    {
        Offers {
            ahead: None,
            later: results,
            alloc,
        }
    }

    /// Takes the next result; `None` exactly where none is left.
    ///
    /// A pair's cell is made by this call. It stands for the result's term, in which a variable of a number
    /// that the store knows is that variable, as it is bound now. The cells that the store had stand for the
    /// same terms as before. `Memory` leaves the results as they were.
    pub fn next(&mut self, store: &mut Store) -> Result<Option<Offer>, Memory>
        ensures offer { IfOk result (λ o. MatchOption o
            ((self.old ≡ []) × (self.new ≡ []) × (store.new ≡ store.old))
            (λ offer. IsNext store.old store.new self.old self.new offer)) }
        ensures keeps { Keeps store.old store.new }
        ensures err { OnErr result (self.new ≡ self.old) }
    {
        find_first(self.alloc, &mut self.ahead, &mut self.later)?;
        let Some(result) = &self.ahead else {
            return Ok(None);
        };
        let offer = offered(self.alloc, store, result.pairs.as_slice())?;
        self.ahead = None;
        Ok(Some(offer))
    }
}
