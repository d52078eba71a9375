ghost use Rattle.std.specs.Prelude.{◌≡◌, List as list};
ghost use Rattle.term_core.specs.Tree.{Tree};
ghost use Rattle.tree_results.specs.Outcomes.{outcome_of as one_outcome_of};
ghost use Rattle.tree_texts.specs.Parts.{text_outcome_of};
ghost use Rattle.prims_tree.specs.Outcomes.{placed_outcome_of};

use crate::offer::Offers;
use crate::placed::PlacedOffers;
use term_core::Term;
use tree_texts::TextOutcome;

/// What a primitive gives.
#[derive(Debug, Drop)]
pub enum Outcome {
    /// Its results in order; one whose pairs don't unify is none.
    Offers(Offers),
    /// An error, `error(E, Name/Arity)` with the primitive's indicator.
    Ball(Term),
    /// No primitive has this name and so many arguments.
    Unknown,
}

/// What a primitive gives, where the arguments are told by their places.
#[derive(Debug, Drop)]
pub enum PlacedOutcome {
    /// Its results in order; one whose pairs don't unify is none.
    Offers(PlacedOffers),
    /// An error, `error(E, Name/Arity)` with the primitive's indicator.
    Ball(Term),
    /// No primitive has this name and so many arguments.
    Unknown,
}

impl PlacedOutcome {
    // Of a primitive that has one result at most.
    #[tactic(auto, unfolding(tree_results::specs::Outcomes::outcome_of))]
    pub(crate) fn of_one(outcome: tree_results::Outcome) -> PlacedOutcome
        ensures { (ts : list Tree) → placed_outcome_of ts result ≡ one_outcome_of ts outcome }
    {
        match outcome {
            tree_results::Outcome::Result(offer) => {
                PlacedOutcome::Offers(PlacedOffers::ready(offer))
            }
            tree_results::Outcome::Ball(ball) => PlacedOutcome::Ball(ball),
            tree_results::Outcome::Unknown => PlacedOutcome::Unknown,
        }
    }

    // Of a primitive on texts.
    pub(crate) fn of_text(outcome: TextOutcome) -> PlacedOutcome
        ensures { (ts : list Tree) → placed_outcome_of ts result ≡ text_outcome_of ts outcome }
    {
        match outcome {
            TextOutcome::Splits(splits) => PlacedOutcome::Offers(PlacedOffers::splits(splits)),
            TextOutcome::Parts(parts) => PlacedOutcome::Offers(PlacedOffers::parts(parts)),
            TextOutcome::Outcome(outcome) => PlacedOutcome::of_one(outcome),
        }
    }
}
