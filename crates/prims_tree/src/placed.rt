// The results of a primitive, by the places of the arguments.
ghost use Rattle.std.specs.Prelude.{◌≡◌, [], ◌∷◌, true, map, reverse, IfOk, OnErr, MatchOption};
ghost use Rattle.std.specs.List.{list_all};
ghost use Rattle.tree_results.specs.Outcomes.{result_of, results_of};
ghost use Rattle.tree_results.specs.Placed.{has_places as has_places_of};
ghost use Rattle.tree_texts.specs.Parts.{splits_of, parts_of};

use std::alloc::Global;
use std::marker::Model;
use term_core::Memory;
use tree_results::Offer;
use tree_texts::{Parts, Splits};

// What is left to give: one result or none, some that were made before, or the parts of a text.
#[derive(Debug, Drop)]
pub(crate) enum Left {
    Ready(Option<Offer>),
    // the first of them last
    Several(Vec<Offer>),
    Splits(Splits),
    Parts(Parts),
}

/// The results that a primitive has left, which contracts see as their list: of each pair an argument's
/// place, from 0, and the term that the argument is unified with. Each is made when it is asked for.
#[derive(Debug, Drop)]
pub struct PlacedOffers {
    left: Left,
}

impl Model for PlacedOffers {
    ghost use Rattle.std.specs.Prelude.{List as list};
    ghost use Rattle.tree_results.specs.Placed.{Result as result, coded_results};
    ghost use Rattle.prims_tree.specs.Views.{results_left};

    ghost Value = { list result };

    ghost coded = { coded_results };

    ghost view = { λ o. results_left o.left };
}

impl PlacedOffers {
    // One result or none.
    pub(crate) fn ready(offer: Option<Offer>) -> PlacedOffers
        ensures { result ≡ results_of offer }
    {
        PlacedOffers {
            left: Left::Ready(offer),
        }
    }

    pub(crate) fn splits(splits: Splits) -> PlacedOffers
        ensures { result ≡ splits_of splits }
    {
        PlacedOffers {
            left: Left::Splits(splits),
        }
    }

    pub(crate) fn parts(parts: Parts) -> PlacedOffers
        ensures { result ≡ parts_of parts }
    {
        PlacedOffers {
            left: Left::Parts(parts),
        }
    }

    /// These results, the first of them last.
    pub fn several(offers: Vec<Offer>) -> PlacedOffers
        ensures { result ≡ reverse (map result_of offers.items) }
    {
        PlacedOffers {
            left: Left::Several(offers),
        }
    }

    /// Takes the next result; `None` exactly where none is left. After `Memory` the results are as before.
    pub fn next(&mut self, alloc: Global) -> Result<Option<Offer>, Memory>
        ensures ok { IfOk result (λ r.
            MatchOption r ((self.old ≡ []) × (self.new ≡ [])) (λ o. self.old ≡ result_of o ∷ self.new)) }
        ensures err { OnErr result (self.new ≡ self.old) }
    {
        match &mut self.left {
            Left::Ready(offer) => Ok(offer.take()),
            Left::Several(offers) => Ok(next_of(offers)),
            Left::Splits(splits) => splits.next(alloc),
            Left::Parts(parts) => parts.next(alloc),
        }
    }

    // Whether each place is that of one of so many arguments, as far as that is seen at once.
    #[tactic(auto, using(crate::proofs::HavePlaces::splits_have_places, crate::proofs::HavePlaces::parts_have_places))]
    pub(crate) fn has_places(&self, count: u32) -> bool
        ensures { result ≡ true → list_all (has_places_of count) self.now ≡ true }
    {
        match &self.left {
            Left::Ready(Some(offer)) => offer_has_places(offer, count),
            Left::Ready(None) => true,
            Left::Several(_) => false,
            Left::Splits(_) => count >= 2,
            Left::Parts(_) => count >= 5,
        }
    }
}

// Takes the last of these.
fn next_of(offers: &mut Vec<Offer>) -> Option<Offer>
    ensures { MatchOption result ((reverse (map result_of offers.old.items) ≡ []) × (reverse (map result_of offers.new.items) ≡ [])) (λ o. reverse (map result_of offers.old.items) ≡ result_of o ∷ reverse (map result_of offers.new.items)) }
{
    offers.pop()
}

// Whether each place of a result is that of one of so many arguments.
fn offer_has_places(offer: &Offer, count: u32) -> bool
    ensures { result ≡ has_places_of count (result_of offer.now) }
{
    for pair in offer.pairs.as_slice() {
        if pair.0 >= count {
            return false;
        }
    }
    true
}
