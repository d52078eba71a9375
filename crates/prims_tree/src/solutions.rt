// What findall/3, bagof/3 and setof/3 offer.
ghost use Rattle.std.specs.Prelude.{◌≡◌, [], ◌∷◌, IfOk};
ghost use Rattle.builtin_table.specs.Solutions.{findall_offers as findall_offers_of, group_offers as group_offers_of};
ghost use Rattle.tree_lists.specs.Groups.{arranged as arranged_of, placed_groups, placed_list};

use crate::offer::Offers;
use crate::placed::PlacedOffers;
use std::alloc::Global;
use term_core::{Memory, Term};
use tree_lists::{Arrangement, findall_results, group_results};

/// What bagof/3 or setof/3 offers for solutions W-T over two arguments, the witness and the list: one result
/// for each group of solutions whose W are variants, by the standard order of W with its variables numbered.
///
/// A result's pairs make the witness one with each W of its group, in the order of the solutions, and then
/// the list one with the list of the terms T. `Memory` also where a term would have more than
/// `term_core::MAX_NODES` nodes.
pub fn placed_group_offers(
    alloc: Global,
    arrangement: Arrangement,
    solutions: &[Term],
) -> Result<PlacedOffers, Memory>
    ensures { IfOk result (λ os. os ≡ placed_groups (arranged_of arrangement) solutions.now) }
{
    Ok(PlacedOffers::several(group_results(alloc, arrangement, solutions)?))
}

/// The same for a witness and a list.
#[tactic(auto, using(tree_lists::proofs::ForArguments::groups_for))]
pub fn group_offers(
    alloc: Global,
    arrangement: Arrangement,
    witness: &Term,
    list: &Term,
    solutions: &[Term],
) -> Result<Offers, Memory>
    ensures { IfOk result (λ os. os ≡ group_offers_of (arranged_of arrangement) witness.now list.now solutions.now) }
{
    let results = placed_group_offers(alloc, arrangement, solutions)?;
    let arguments = vec![in alloc; witness.copied(alloc)?, list.copied(alloc)?]?;
    Ok(Offers::over(arguments, results))
}

/// What findall/3 offers over two arguments: the second is the list of the solutions.
///
/// `Memory` also where the list would have more than `term_core::MAX_NODES` nodes.
pub fn placed_findall_offers(alloc: Global, solutions: &[Term]) -> Result<PlacedOffers, Memory>
    ensures { IfOk result (λ os. os ≡ placed_list solutions.now ∷ []) }
{
    Ok(PlacedOffers::several(findall_results(alloc, solutions)?))
}

/// What findall/3 offers: the list argument is the list of the solutions.
///
/// `Memory` also where the list would have more than `term_core::MAX_NODES` nodes.
pub fn findall_offers(alloc: Global, list: Term, solutions: &[Term]) -> Result<Offers, Memory>
    ensures { IfOk result (λ os. os ≡ findall_offers_of list solutions.now) }
{
    let results = placed_findall_offers(alloc, solutions)?;
    let arguments = vec![in alloc; Term::atom(alloc, "[]")?, list]?;
    Ok(Offers::over(arguments, results))
}
