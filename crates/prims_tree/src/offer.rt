// The results of a primitive over terms.
ghost use Rattle.std.specs.Prelude.{◌≡◌, [], ◌∷◌, map, None, IfOk, OnOk, OnErr, MatchOption};
ghost use Rattle.tree_results.specs.Placed.{argument as argument_of, for_arguments};
ghost use Rattle.tree_results.specs.Outcomes.{result_of};
ghost use Rattle.prims_tree.specs.Views.{offer_of, with_ahead};

use crate::placed::PlacedOffers;
use std::alloc::Global;
use std::marker::Model;
use term_core::{List, Memory, Term};

/// One result of a primitive: what has to be unified for it.
#[derive(Debug, Drop)]
pub struct Offer {
    /// Pairs of terms that are to be unified, from the left and all together.
    pub pairs: List<(Term, Term)>,
    /// How many new variables the pairs have, which are numbered from the next variable of the call.
    pub fresh: u64,
}

/// The results that a primitive has left, which contracts see as their list. Each is made when it is
/// asked for.
#[derive(Debug, Drop)]
pub struct Offers {
    arguments: Vec<Term>,
    // the next result, where it was asked for and there was no memory for its pairs
    ahead: Option<tree_results::Offer>,
    later: PlacedOffers,
}

impl Model for Offers {
    ghost use Rattle.std.specs.Prelude.{List as list, map};
    ghost use Rattle.builtin_table.specs.Primitives.{Offer as offer};
    ghost use Rattle.tree_results.specs.Placed.{for_arguments};
    ghost use Rattle.prims_tree.specs.Views.{coded_offers, with_ahead};

    ghost Value = { list offer };

    ghost coded = { coded_offers };

    ghost view = { λ o. map (for_arguments o.arguments.items) (with_ahead o.ahead o.later) };
}

impl Offers {
    /// These results for these arguments.
    pub fn over(arguments: Vec<Term>, results: PlacedOffers) -> Offers
        ensures { result ≡ map (for_arguments arguments.items) results }
    {
        Offers {
            arguments,
            ahead: None,
            later: results,
        }
    }

    /// Takes the next result; `None` exactly where none is left. After `Memory` the results are as before.
    pub fn next(&mut self, alloc: Global) -> Result<Option<Offer>, Memory>
        ensures ok { IfOk result (λ r.
            MatchOption r ((self.old ≡ []) × (self.new ≡ [])) (λ o. self.old ≡ offer_of o ∷ self.new)) }
        ensures err { OnErr result (self.new ≡ self.old) }
    {
        find_first(alloc, &mut self.ahead, &mut self.later)?;
        let Some(result) = &self.ahead else {
            return Ok(None);
        };
        let offer = over(alloc, &self.arguments, result)?;
        self.ahead = None;
        Ok(Some(offer))
    }
}

/// Takes the first of the later results, where none is ahead of them.
pub fn find_first(
    alloc: Global,
    ahead: &mut Option<tree_results::Offer>,
    later: &mut PlacedOffers,
) -> Result<(), Memory>
    ensures same { with_ahead ahead.new later.new ≡ with_ahead ahead.old later.old }
    ensures none { OnOk result (ahead.new ≡ None → later.new ≡ []) }
{
    if ahead.is_none() {
        *ahead = later.next(alloc)?;
    }
    Ok(())
}

// The argument of a place; the empty atom where there is none.
fn argument(alloc: Global, arguments: &[Term], place: u32) -> Result<Term, Memory>
    ensures { IfOk result (λ t. t ≡ argument_of arguments.now place) }
{
    match arguments.get(place as usize) {
        Some(term) => term.copied(alloc),
        None => Term::atom(alloc, ""),
    }
}

// A result for these arguments.
fn over(alloc: Global, arguments: &[Term], placed: &tree_results::Offer) -> Result<Offer, Memory>
    ensures { IfOk result (λ o. offer_of o ≡ for_arguments arguments.now (result_of placed.now)) }
{
    let mut pairs = List::new(alloc);
    for pair in placed.pairs.as_slice() {
        let argument = argument(alloc, arguments, pair.0)?;
        pairs.push((argument, pair.1.copied(alloc)?))?;
    }
    Ok(Offer {
        pairs,
        fresh: placed.fresh,
    })
}
