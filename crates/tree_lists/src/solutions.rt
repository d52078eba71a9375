// What findall/3, bagof/3 and setof/3 make of a goal's solutions (ISO/IEC 13211-1, 8.10).
ghost use Rattle.std.specs.Prelude.{◌≡◌, [], ◌∷◌, map, reverse, IfOk};
ghost use Rattle.builtin_table.specs.Sorting.{sorted};
ghost use Rattle.builtin_table.specs.Solutions.{grouped as grouped_of, key_cmp, keyed as keyed_of, parts as parts_of};
ghost use Rattle.tree_results.specs.Outcomes.{result_of};
ghost use Rattle.tree_lists.specs.Groups.{arranged as arranged_of, first_is_other, groups_of, placed_group, placed_groups, placed_list};

use std::alloc::Global;
use std::mem;
use term_core::{List, Memory, Term};
use tree_results::{Offer, list_of};

/// How the list of a group's results is made.
#[derive(Clone, Copy, Drop)]
pub enum Arrangement {
    /// As the solutions come, as bagof/3 does.
    AsFound,
    /// Sorted by the standard order, each of equal ones once, as setof/3 does.
    Sorted,
}

// W and T of a solution W-T.
fn parts(alloc: Global, solution: &Term) -> Result<(Term, Term), Memory>
    ensures { IfOk result (λ p. p ≡ parts_of solution.now) }
{
    let mut arguments = solution.arguments(alloc)?;
    if arguments.len() == 2 {
        let result = arguments.remove(1);
        let witness = arguments.remove(0);
        return Ok((witness, result));
    }
    Ok((solution.copied(alloc)?, solution.copied(alloc)?))
}

// The solutions, each with its key.
fn keyed(alloc: Global, solutions: &[Term]) -> Result<Vec<(Term, Term)>, Memory>
    ensures { IfOk result (λ v. v.items ≡ map keyed_of solutions.now) }
{
    let mut all = Vec::new(alloc);
    for solution in solutions {
        all.push((key(alloc, solution)?, solution.copied(alloc)?))?;
    }
    Ok(all)
}

// A solution's witness with its variables numbered by first occurrence.
fn key(alloc: Global, solution: &Term) -> Result<Term, Memory>
    ensures { IfOk result (λ k. k ≡ (keyed_of solution.now).0) }
{
    let (witness, _) = parts(alloc, solution)?;
    witness.numbered(alloc)
}

// The solutions in the order of their keys.
fn sorted_by_key(solutions: Vec<(Term, Term)>) -> Result<Vec<(Term, Term)>, Memory>
    ensures { IfOk result (λ v. v.items ≡ sorted key_cmp solutions.items) }
{
    let mut solutions = solutions;
    solutions.sort_by(|a, b| Term::cmp(&a.0, &b.0))?;
    Ok(solutions)
}

// Whether the group has a first solution, which stands last, and the key of that is another.
fn is_other(group: &[(Term, Term)], key: &Term) -> bool
    ensures { result ≡ first_is_other (reverse group.now) key.now }
{
    match group.last() {
        Some(first) => !Term::cmp(key, &first.0).is_eq(),
        None => false,
    }
}

// The solutions of one key together, the last group first and in each the last solution first.
fn grouped(alloc: Global, solutions: Vec<(Term, Term)>) -> Result<Vec<List<(Term, Term)>>, Memory>
    ensures { IfOk result (λ v. groups_of v.items ≡ grouped_of solutions.items) }
{
    let mut rest = solutions;
    let mut groups = Vec::new(alloc);
    let mut group = List::new(alloc);
    while let Some(solution) = rest.pop() {
        if is_other(group.as_slice(), &solution.0) {
            groups.push(mem::replace(&mut group, List::new(alloc)))?;
        }
        group.push(solution)?;
    }
    if group.len() > 0 {
        groups.push(group)?;
    }
    Ok(groups)
}

// A group's results as they come, or sorted without equals.
fn arranged(arrangement: Arrangement, results: Vec<Term>) -> Result<Vec<Term>, Memory>
    ensures { IfOk result (λ v. v.items ≡ arranged_of arrangement results.items) }
{
    let mut results = results;
    match arrangement {
        Arrangement::AsFound => Ok(results),
        Arrangement::Sorted => {
            results.sort()?;
            results.dedup();
            Ok(results)
        }
    }
}

// What a group offers, over the witness and the list; its last solution comes first.
fn group_offer(
    alloc: Global,
    arrangement: Arrangement,
    group: List<(Term, Term)>,
) -> Result<Offer, Memory>
    ensures { IfOk result (λ o. result_of o ≡ placed_group (arranged_of arrangement) (reverse group)) }
{
    let mut group = group;
    let mut pairs = List::new(alloc);
    let mut results = Vec::new(alloc);
    while let Some((_key, solution)) = group.pop() {
        let (instance, result) = parts(alloc, &solution)?;
        pairs.push((0, instance))?;
        results.push(result)?;
    }
    let results = arranged(arrangement, results)?;
    pairs.push((1, list_of(alloc, &results)?))?;
    Ok(Offer { pairs, fresh: 0 })
}

// What the groups offer, the last of it first; the last group comes first.
fn offers_of_groups(
    alloc: Global,
    arrangement: Arrangement,
    groups: Vec<List<(Term, Term)>>,
) -> Result<Vec<Offer>, Memory>
    ensures { IfOk result (λ v. reverse (map result_of v.items) ≡ map (placed_group (arranged_of arrangement)) (groups_of groups.items)) }
{
    let mut groups = groups;
    let mut offers = Vec::new(alloc);
    while let Some(group) = groups.pop() {
        offers.push(group_offer(alloc, arrangement, group)?)?;
    }
    offers.reverse();
    Ok(offers)
}

/// What bagof/3 or setof/3 offers for solutions W-T, the last of it first: one result for each group of
/// solutions whose W are variants, by the standard order of W with its variables numbered.
///
/// A result's pairs make the first of two arguments, the witness, one with each W of its group, in the order
/// of the solutions, and then the second one with the list of the terms T. `Memory` also where a term would
/// have more than `term_core::MAX_NODES` nodes.
pub fn group_results(
    alloc: Global,
    arrangement: Arrangement,
    solutions: &[Term],
) -> Result<Vec<Offer>, Memory>
    ensures { IfOk result (λ v. reverse (map result_of v.items) ≡ placed_groups (arranged_of arrangement) solutions.now) }
{
    let solutions = sorted_by_key(keyed(alloc, solutions)?)?;
    let groups = grouped(alloc, solutions)?;
    offers_of_groups(alloc, arrangement, groups)
}

/// What findall/3 offers: the second of two arguments is the list of the solutions.
///
/// `Memory` also where the list would have more than `term_core::MAX_NODES` nodes.
pub fn findall_results(alloc: Global, solutions: &[Term]) -> Result<Vec<Offer>, Memory>
    ensures { IfOk result (λ v. reverse (map result_of v.items) ≡ placed_list solutions.now ∷ []) }
{
    let mut pairs = List::new(alloc);
    pairs.push((1, list_of(alloc, solutions)?))?;
    let offer = Offer { pairs, fresh: 0 };
    Ok(vec![in alloc; offer]?)
}
