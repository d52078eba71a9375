// A primitive by its name and arguments.
ghost use Rattle.std.specs.Prelude.{◌≡◌, [], ◌∷◌, length, IfOk};
ghost use Rattle.term_core.specs.Tree.{Tree};
ghost use Rattle.builtin_table.specs.Primitives.{primitive, of_two as of_two_tree, of_two_terms as of_two_terms_tree, of_two_texts as of_two_texts_tree, of_two_lists as of_two_lists_tree, of_three as of_three_tree, of_four as of_four_tree, of_five as of_five_tree};
ghost use Rattle.tree_results.specs.Outcomes.{outcome_of as one_outcome_of};
ghost use Rattle.tree_texts.specs.Parts.{text_outcome_of};
ghost use Rattle.prims_tree.specs.Outcomes.{outcome_of, placed_outcome_of, OutcomeHasPlaces};

use crate::offer::Offers;
use crate::outcome::{Outcome, PlacedOutcome};
use builtin_table::{Relation, Spelling};
use std::alloc::Global;
use term_core::{Memory, Term};
use tree_lists::{keysort, msort, skip_list, sort};
use tree_results::{tested, unifies, unknown};
use tree_terms::{arg, compare, copy_term, functor, of_one, term_variables, univ};
use tree_texts::{
    TextOutcome, atom_concat, atom_length, atom_number, atom_spelled, char_code, number_spelled,
    sub_atom,
};
use tree_values::{assign, compare_values, divmod, plus};

/// What the primitive of this name gives for these arguments, which stand under the present
/// substitution. New variables are numbered from `next`, which is above each variable of the run.
///
/// `Memory` also where no number is left for a new variable, and where a term would have more than
/// `term_core::MAX_NODES` nodes.
#[tactic(auto, using(crate::proofs::HavePlaces::results_are))]
pub fn call(alloc: Global, name: &str, args: &[Term], next: u64) -> Result<Outcome, Memory>
    ensures { IfOk result (λ o. outcome_of o ≡ primitive name.now args.now next) }
{
    match placed_call(alloc, name, args, next)? {
        PlacedOutcome::Offers(results) => {
            let arguments = copies(alloc, args)?;
            Ok(Outcome::Offers(Offers::over(arguments, results)))
        }
        PlacedOutcome::Ball(ball) => Ok(Outcome::Ball(ball)),
        PlacedOutcome::Unknown => Ok(Outcome::Unknown),
    }
}

/// The same, where the results tell the arguments by their places.
pub fn placed_call(
    alloc: Global,
    name: &str,
    args: &[Term],
    next: u64,
) -> Result<PlacedOutcome, Memory>
    ensures outcome { IfOk result (λ o. placed_outcome_of args.now o ≡ primitive name.now args.now next) }
    ensures places { IfOk result (OutcomeHasPlaces (length args.now)) }
{
    let Ok(count) = u32::try_from(args.len()) else {
        return Err(Memory);
    };
    match by_arity(alloc, name, args, next)? {
        PlacedOutcome::Offers(results) => {
            // no primitive has a place that isn't one of its arguments
            if !results.has_places(count) {
                return Err(Memory);
            }
            Ok(PlacedOutcome::Offers(results))
        }
        PlacedOutcome::Ball(ball) => Ok(PlacedOutcome::Ball(ball)),
        PlacedOutcome::Unknown => Ok(PlacedOutcome::Unknown),
    }
}

// Copies of these terms.
fn copies(alloc: Global, terms: &[Term]) -> Result<Vec<Term>, Memory>
    ensures { IfOk result (λ v. v.items ≡ terms.now) }
{
    let mut copies = Vec::new(alloc);
    for term in terms {
        copies.push(term.copied(alloc)?)?;
    }
    Ok(copies)
}

#[tactic(auto, unfolding(builtin_table::specs::Primitives::primitive))]
fn by_arity(alloc: Global, name: &str, args: &[Term], next: u64) -> Result<PlacedOutcome, Memory>
    ensures { IfOk result (λ o. placed_outcome_of args.now o ≡ primitive name.now args.now next) }
{
    match args {
        [term] => Ok(PlacedOutcome::of_one(of_one(alloc, name, term)?)),
        [first, second] => Ok(PlacedOutcome::of_one(of_two(alloc, name, first, second, next)?)),
        [first, second, third] => {
            Ok(PlacedOutcome::of_text(of_three(alloc, name, first, second, third, next)?))
        }
        [first, second, _, _] => Ok(PlacedOutcome::of_one(of_four(alloc, name, first, second)?)),
        [first, _, _, _, _] => Ok(PlacedOutcome::of_text(of_five(alloc, name, first)?)),
        _ => Ok(PlacedOutcome::Unknown),
    }
}

#[tactic(auto, unfolding(builtin_table::specs::Primitives::of_two))]
fn of_two(
    alloc: Global,
    name: &str,
    first: &Term,
    second: &Term,
    next: u64,
) -> Result<tree_results::Outcome, Memory>
    ensures { IfOk result (λ o. one_outcome_of (first.now ∷ second.now ∷ []) o
        ≡ of_two_tree name.now first.now second.now next) }
{
    if let Some(relation) = Relation::of_order(name) {
        return Ok(tested(alloc, relation.holds(Term::cmp(first, second))));
    }
    if let Some(relation) = Relation::of_values(name) {
        let outcome = compare_values(alloc, name, relation, first, second)?;
        return Ok(outcome);
    }
    let outcome = of_two_terms(alloc, name, first, second, next)?;
    Ok(outcome)
}

#[tactic(auto, unfolding(builtin_table::specs::Primitives::of_two_terms))]
fn of_two_terms(
    alloc: Global,
    name: &str,
    first: &Term,
    second: &Term,
    next: u64,
) -> Result<tree_results::Outcome, Memory>
    ensures { IfOk result (λ o. one_outcome_of (first.now ∷ second.now ∷ []) o
        ≡ of_two_terms_tree name.now first.now second.now next) }
{
    match name {
        "=" | "unify_with_occurs_check" => unifies(alloc, 0, second.copied(alloc)?),
        "is" => assign(alloc, second),
        "=.." => univ(alloc, first, second),
        "copy_term" => copy_term(alloc, first, next),
        "term_variables" => term_variables(alloc, first),
        _ => of_two_texts(alloc, name, first, second),
    }
}

#[tactic(auto, unfolding(builtin_table::specs::Primitives::of_two_texts))]
fn of_two_texts(
    alloc: Global,
    name: &str,
    first: &Term,
    second: &Term,
) -> Result<tree_results::Outcome, Memory>
    ensures { IfOk result (λ o. one_outcome_of (first.now ∷ second.now ∷ []) o
        ≡ of_two_texts_tree name.now first.now second.now) }
{
    match name {
        "atom_length" => atom_length(alloc, first, second),
        "char_code" => char_code(alloc, first, second),
        "atom_chars" => atom_spelled(alloc, Spelling::Characters, first, second),
        "atom_codes" => atom_spelled(alloc, Spelling::Codes, first, second),
        "number_chars" => number_spelled(alloc, Spelling::Characters, first, second),
        "number_codes" => number_spelled(alloc, Spelling::Codes, first, second),
        "atom_number" => atom_number(alloc, first, second),
        _ => of_two_lists(alloc, name, first, second),
    }
}

#[tactic(auto, unfolding(builtin_table::specs::Primitives::of_two_lists))]
fn of_two_lists(
    alloc: Global,
    name: &str,
    first: &Term,
    second: &Term,
) -> Result<tree_results::Outcome, Memory>
    ensures { IfOk result (λ o. one_outcome_of (first.now ∷ second.now ∷ []) o
        ≡ of_two_lists_tree name.now first.now second.now) }
{
    match name {
        "msort" => msort(alloc, first),
        "sort" => sort(alloc, first),
        "keysort" => keysort(alloc, first),
        _ => Ok(unknown()),
    }
}

#[tactic(auto, unfolding(builtin_table::specs::Primitives::of_three))]
fn of_three(
    alloc: Global,
    name: &str,
    first: &Term,
    second: &Term,
    third: &Term,
    next: u64,
) -> Result<TextOutcome, Memory>
    ensures { IfOk result (λ o. text_outcome_of (first.now ∷ second.now ∷ third.now ∷ []) o
        ≡ of_three_tree name.now first.now second.now third.now next) }
{
    match name {
        "functor" => Ok(TextOutcome::Outcome(functor(alloc, first, second, third, next)?)),
        "arg" => Ok(TextOutcome::Outcome(arg(alloc, first, second)?)),
        "compare" => Ok(TextOutcome::Outcome(compare(alloc, first, second, third)?)),
        "atom_concat" => atom_concat(alloc, first, second, third),
        "$skip_list" => Ok(TextOutcome::Outcome(skip_list(alloc, first)?)),
        "plus" => Ok(TextOutcome::Outcome(plus(alloc, first, second, third)?)),
        _ => Ok(TextOutcome::Outcome(unknown())),
    }
}

#[tactic(auto, unfolding(builtin_table::specs::Primitives::of_four))]
fn of_four(
    alloc: Global,
    name: &str,
    first: &Term,
    second: &Term,
) -> Result<tree_results::Outcome, Memory>
    ensures { IfOk result (λ o. (t u : Tree) → one_outcome_of (first.now ∷ second.now ∷ t ∷ u ∷ []) o
        ≡ of_four_tree name.now first.now second.now t u) }
{
    match name {
        "divmod" => divmod(alloc, first, second),
        _ => Ok(unknown()),
    }
}

#[tactic(auto, unfolding(builtin_table::specs::Primitives::of_five))]
fn of_five(alloc: Global, name: &str, first: &Term) -> Result<TextOutcome, Memory>
    ensures { IfOk result (λ o. (t u v w : Tree) → text_outcome_of (first.now ∷ t ∷ u ∷ v ∷ w ∷ []) o
        ≡ of_five_tree name.now first.now t u v w) }
{
    match name {
        "sub_atom" => sub_atom(alloc, first),
        _ => Ok(TextOutcome::Outcome(unknown())),
    }
}
